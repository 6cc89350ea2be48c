//! ELF files.

use crate::frames::show_frames;
use crate::functions::show_functions;
use crate::sections::{show_build_id, show_sections};
use crate::segments::show_segments;
use anyhow::Result;
use elf_files::{ElfFile, FileKind, Machine};
use shown_text::Shown;

fn machine_name(machine: Machine) -> &'static str {
    match machine {
        Machine::X86_64 => "x86_64",
        Machine::Aarch64 => "aarch64",
    }
}

fn kind_number(kind: FileKind) -> u16 {
    match kind {
        FileKind::Relocatable => 1,
        FileKind::Executable => 2,
        FileKind::SharedObject => 3,
        FileKind::Core => 4,
        FileKind::Other(number) => number,
    }
}

fn show_header(file: &ElfFile<'_>, shown: &mut Shown) {
    shown.text("file ");
    shown.text(machine_name(file.machine()));
    shown.number(" kind ", u64::from(kind_number(file.kind())));
    shown.hex(" entry 0x", file.entry());
    shown.end();
}

/// Shows the header of a file, its segments, its sections and their notes, its build id, its section of call frames, and the function
/// at each of some addresses.
pub(crate) fn show_elf(bytes: &[u8], addresses: &str, shown: &mut Shown) -> Result<()> {
    let file = ElfFile::parse(bytes)?;
    show_header(&file, shown);
    show_segments(&file, shown)?;
    show_sections(&file, shown)?;
    show_build_id(&file, shown)?;
    show_frames(bytes, shown);
    show_functions(&file, addresses, shown)
}
