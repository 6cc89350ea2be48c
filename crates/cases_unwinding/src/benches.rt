//! What benches time, made once: walks by an index or a header, walks by tables of rules, and steps by compact unwind info, of each
//! architecture; walks of x86_64 through a cache of 1,024 slots; steps by Windows' unwind data; and passes over the entries and rows of a
//! section.

use crate::architectures::show_on;
use anyhow::{Result, bail};
use bench_steps::{X86_64, print_frames_of, print_pe};

/// Makes what the bench with a name times, on its input, and prints what the program prints that makes it alone, which `bench/programs`
/// builds for its times.
pub(crate) fn show_bench(rt: &HostRuntime, name: &str, input: &[u8]) -> Result<()> {
    if let Some(what) = name.strip_suffix("_x86_64") {
        return show_on(rt, false, what, input);
    }
    if let Some(what) = name.strip_suffix("_aarch64") {
        return show_on(rt, true, what, input);
    }
    match name {
        "pe" => print_pe::<X86_64, HostRuntime>(rt, input, false),
        "frames" => print_frames_of::<HostRuntime>(rt, input, 0),
        _ => bail!("there is no bench of this name"),
    }
}
