//! What is made on one of the architectures. Of each it is one call: a call at a concrete unwinding takes as long to prove as ten functions
//! over any.

use crate::tables::{Case, ComparedRegs, show_steps};
use anyhow::{Result, bail};
use bench_steps::{
    Aarch64, Plain, Tabulated, TimedData, X86_64, print_caches, print_compact, print_walks,
};
use framehop::ModuleUnwinding;
use shown_text::Shown;
use std::io;
use std::io::Write;

// Compares the steps of a case.
fn show_case<A: ModuleUnwinding<UnwindData = TimedData>>(rt: &HostRuntime, line: &str) -> Result<()>
where
    A::UnwindRegs: ComparedRegs,
{
    let case = Case::parse(rt.alloc(), line)?;
    let mut shown = Shown::new(rt.alloc());
    show_steps::<A>(&case, &mut shown)?;
    io::writer(rt).write_all(&shown.finish()?)?;
    Ok(())
}

// Makes what is named, of an input.
fn show_what<A: ModuleUnwinding<UnwindData = TimedData>>(
    rt: &HostRuntime,
    what: &str,
    input: &[u8],
) -> Result<()>
where
    A::UnwindRegs: ComparedRegs,
{
    match what {
        "walks" => print_walks::<A, Plain, HostRuntime>(rt, input, ""),
        "tables" => print_walks::<A, Tabulated, HostRuntime>(rt, input, ""),
        "compact_steps" => print_compact::<A, HostRuntime>(rt, input, false),
        "caches" => print_caches::<A, HostRuntime>(rt, input, 1024, false),
        "steps" => show_case::<A>(rt, str::from_utf8(input)?),
        _ => bail!("there is no bench of this name"),
    }
}

/// Makes the walks or steps of an input on an architecture: those that benches time, or those of a case.
pub(crate) fn show_on(rt: &HostRuntime, is_aarch64: bool, what: &str, input: &[u8]) -> Result<()> {
    if is_aarch64 {
        show_what::<Aarch64>(rt, what, input)
    } else {
        show_what::<X86_64>(rt, what, input)
    }
}
