//! Where the code of a mapping is loaded.

use crate::object::object;
use backtrace_files::{LoadedFile, loaded_code};
use core_files::MappedFile;
use std::process::Abort;
use std::test::Fail;

/// Where a mapping starts and ends, from which offset of its file on, and where the segment with the code begins in the file and in
/// memory, if the mapping has code.
type Base = (u64, u64, u64, Option<(u64, u64)>);

/// Of the object, whose code has offset 0x308 and address 0x1308.
static BASES: [Base; 10] = [
    (0x7000_0300, 0x7000_0348, 0x300, LOADED),
    (0x7000_0000, 0x7000_0309, 0, LOADED),
    (0x7000_0347, 0x7000_0400, 0x347, LOADED),
    // below its stated address
    (0x1300, 0x1348, 0x300, Some((0x1308, 0x1308))),
    (0x12ff, 0x1347, 0x300, Some((0x1308, 0x1307))),
    (0x3f, 0x40, 0x347, Some((0x1308, 0))),
    // without code
    (0x7000_0000, 0x7000_0308, 0, None),
    (0x7000_0348, 0x7000_0400, 0x348, None),
    // the segment would begin below 0, or past the last address
    (0x3e, 0x3f, 0x347, None),
    (u64::MAX - 0x100, u64::MAX, 0x300, None),
];

const LOADED: Option<(u64, u64)> = Some((0x1308, 0x7000_0308));

/// What makes the first 0x1010 bytes of the object code too, and has the other code at offset 0x1000 and address 0x2000.
static CHANGES: [(usize, u8); 7] = [
    (0x44, 0x05),
    (0x60, 0x10),
    (0x61, 0x10),
    (0x80, 0x00),
    (0x81, 0x10),
    (0x88, 0x00),
    (0x89, 0x20),
];

/// Of the object with these changes: of two segments with code in a page.
static BASES_OF_TWO: [Base; 3] = [
    (0x7000_0000, 0x7000_2000, 0, Some((0, 0x7000_0000))),
    (
        0x7000_1000,
        0x7000_2000,
        0x1000,
        Some((0x2000, 0x7000_1000)),
    ),
    // neither begins in a page that begins here
    (0x7000_1008, 0x7000_2000, 0x1008, Some((0, 0x7000_0000))),
];

/// Of a file that is no object, or whose bytes aren't known.
static NO_BASES: [Base; 1] = [(0x7000_0300, 0x7000_0348, 0x300, None)];

// The mappings of a file with these bytes have these bases.
fn expect_bases(rt: &impl Abort, bytes: Option<&[u8]>, bases: &[Base]) {
    for &(start, end, offset, base) in bases {
        let mapping = MappedFile {
            start,
            end,
            offset,
            name: b"/a",
        };
        let file = LoadedFile {
            mapping,
            bytes,
            debug: None,
        };
        let found = match loaded_code(&file) {
            Some(code) => Some((code.base_svma, code.base_avma)),
            None => None,
        };
        assert!(rt; found == base, "{start:#x}");
    }
}

#[test]
fn by_the_segment_with_code(rt: HostRuntime) -> Result<(), Fail> {
    let mut bytes = object(rt.alloc())?;
    expect_bases(&rt, Some(&bytes), &BASES);
    for &(at, byte) in &CHANGES {
        if let Some(place) = bytes.get_mut(at) {
            *place = byte;
        }
    }
    expect_bases(&rt, Some(&bytes), &BASES_OF_TWO);
    expect_bases(&rt, Some(b"text"), &NO_BASES);
    expect_bases(&rt, None, &NO_BASES);
    Ok(())
}
