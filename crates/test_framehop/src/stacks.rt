//! The text of the stacks of a core.

use backtrace_files::GivenFile;
use backtrace_walks::{BacktraceOptions, write_stacks};
use core_files::CoreFile;
use json_program::Streamed;
use std::alloc::Global;
use std::process::Abort;
use std::test::Fail;

/// The text of the core with these bytes is this one, by the bytes of its file if they are known.
pub fn expect_stacks(
    rt: &impl Abort,
    alloc: Global,
    core: &[u8],
    file: Option<&[u8]>,
    options: &BacktraceOptions,
    expected: &str,
) -> Result<(), Fail> {
    let core = CoreFile::parse(alloc, core)?;
    let mut sink = Streamed::new(Vec::new(alloc));
    let given = GivenFile {
        bytes: file,
        debug: None,
    };
    write_stacks(alloc, &core, &[given], options, &mut sink)?;
    assert!(rt;
        sink.into_inner().as_slice() == expected.as_bytes(),
        "{expected}"
    );
    Ok(())
}
