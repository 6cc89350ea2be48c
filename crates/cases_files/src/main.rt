//! Shows what is read in files, which the arguments name, each after its kind:
//!
//! - `elf`: an ELF file, with the functions at the addresses of the input. `scripts/elf-files` writes what readelf reads there.
//! - `link`: a file's link to its debug file, and the checksum of its bytes, as readelf and zlib have them.
//! - `recording`: a recording of perf. `scripts/perf-recordings` writes what a second reader reads there.
//! - `names`: mangled names, a line each. `scripts/symbol-names` writes what `c++filt` writes.
//! - `stacks`, `flame`, `icicle`: stacks with their counts, as the boxes of each line or as a picture of all lines.
//!   `scripts/flame-graphs` writes what a second reader finds.
//! - `code`: machine code in hexadecimal digits, a case a line: the rules of prologues and epilogues, or behind `lengths` the length of
//!   the instruction of x86_64 that each beginning of the code begins with, as `scripts/analysis-rows` and `scripts/x86-cases` have them,
//!   or behind `way` the rules of ways out of a function, as `scripts/way-cases` has them.
//! - `instructions`: words of aarch64, a line each, for `scripts/ways-instructions`; `effects`: codes of x86_64, each of which begins
//!   with an instruction, for `scripts/x86-lengths`; `ways`: places of functions of x86_64 behind their code, for `scripts/x86-ways`.
#![tactic(auto)]

mod callers;
mod code;
mod detecting;
mod elf;
mod events;
mod frames;
mod functions;
mod instructions;
mod lengths;
mod links;
mod mapped;
mod names;
mod recording;
mod records;
mod samples;
mod sections;
mod segments;
mod stacks;
mod text;
mod ways;

use anyhow::{Result, bail};
use code::show_code;
use elf::show_elf;
use flame_graph::Direction;
use instructions::show_instructions;
use lengths::show_effects;
use links::show_link;
use names::show_names;
use recording::show_recording;
use shown_text::Shown;
use stacks::{show_picture, show_stacks};
use std::io::{Read, Write};
use std::{env, fs, io};
use ways::show_ways;

// Shows a file of a kind.
fn show(rt: &HostRuntime, kind: &str, path: &str, shown: &mut Shown) -> Result<()> {
    let bytes = fs::read(rt, path)?;
    match kind {
        "elf" => {
            let mut input = Vec::new(rt.alloc());
            rt.reader().read_to_end(&mut input)?;
            show_elf(&bytes, str::from_utf8(&input)?, shown)
        }
        "link" => {
            show_link(&bytes, shown);
            Ok(())
        }
        "recording" => show_recording(&bytes, shown),
        "names" => show_names(str::from_utf8(&bytes)?, shown),
        "stacks" => show_stacks(str::from_utf8(&bytes)?, shown),
        "flame" => show_picture(str::from_utf8(&bytes)?, Direction::Flame, shown),
        "icicle" => show_picture(str::from_utf8(&bytes)?, Direction::Icicle, shown),
        "code" => show_code(str::from_utf8(&bytes)?, shown),
        "instructions" => show_instructions(str::from_utf8(&bytes)?, shown),
        "effects" => show_effects(str::from_utf8(&bytes)?, shown),
        "ways" => show_ways(str::from_utf8(&bytes)?, shown),
        _ => bail!("no kind has this name"),
    }
}

fn main(rt: HostRuntime) -> Result<()> {
    let words: Vec<String> = env::args(&rt)?.skip(1).collect(rt.alloc())?;
    let mut shown = Shown::new(rt.alloc());
    for pair in words.chunks(2) {
        match pair {
            [kind, path] => show(&rt, kind, path, &mut shown)?,
            _ => bail!("each kind has a file"),
        }
    }
    let text = shown.finish()?;
    io::writer(&rt).write_all(&text)?;
    Ok(())
}
