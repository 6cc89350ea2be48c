//! Files with other build ids.

use crate::object::{object, other_object};
use crate::small_core::core_with;
use backtrace_files::has_other_build_id;
use core_files::CoreFile;
use std::test::Fail;

/// The bytes that are said to be those of a file.
#[derive(Debug, Clone, Copy)]
enum Said {
    Same,
    Other,
    Nothing,
    NoFile,
}

/// A core whose memory has the first bytes of `/a`, or zeros in their place; the name of a file; its bytes; and whether these have
/// another build id.
static CASES: [(bool, &[u8], Said, bool); 6] = [
    (true, b"/a", Said::Same, false),
    (true, b"/a", Said::Other, true),
    (true, b"/a", Said::NoFile, true),
    (false, b"/a", Said::Same, false),
    (false, b"/b", Said::Same, false),
    (false, b"/c", Said::Nothing, false),
];

#[test]
fn by_the_first_bytes_in_memory(rt: HostRuntime) -> Result<(), Fail> {
    let same = object(rt.alloc())?;
    let other = other_object(rt.alloc())?;
    for &(is_mapped, name, said, differs) in &CASES {
        let mapped = if is_mapped {
            same.as_slice()
        } else {
            &[0; 0x300]
        };
        let bytes = core_with(rt.alloc(), mapped)?;
        let core = CoreFile::parse(rt.alloc(), &bytes)?;
        let file = match said {
            Said::Same => same.as_slice(),
            Said::Other => other.as_slice(),
            Said::Nothing => b"".as_slice(),
            Said::NoFile => b"no file of this kind".as_slice(),
        };
        assert!(rt;
            has_other_build_id(&core, name, file) == differs,
            "{said:?}"
        );
    }
    Ok(())
}
