//! A small table of which each byte is turned.

use crate::compact::tables::{SMALL, TURNED};
use framehop_compact_tables::{UnwindInfo, is_increasing};
use std::alloc::{AllocError, Global};
use std::process::Abort;

/// What a lookup finds, as text.
fn found_in(
    alloc: Global,
    unwind_info: UnwindInfo<'_>,
    address: u32,
) -> Result<String, AllocError> {
    let text = match unwind_info.lookup(address) {
        Ok(Some(function)) => {
            let (start, end) = (function.start_address, function.end_address);
            format!(in alloc; "{start:x}..{end:x}:{:x}", function.opcode)?
        }
        Ok(None) => format!(in alloc; "none")?,
        Err(error) => format!(in alloc; "{error:?}")?,
    };
    Ok(text)
}

/// Asserts what a lookup finds, and also by halving, if the table increases.
fn assert_found(rt: &impl Abort, alloc: Global, table: &[u8], address: u32, wanted: &str) {
    let found = found_in(alloc, UnwindInfo::new(table), address).expect(rt, "memory");
    assert!(rt; found.as_str() == wanted, "{table:?}");
    if is_increasing(table) {
        let halved = UnwindInfo::new_increasing(table);
        let found = found_in(alloc, halved, address).expect(rt, "memory");
        assert!(rt; found.as_str() == wanted, "{table:?}");
    }
}

/// Asserts what lookups find by a line of the table.
fn assert_turned(rt: &impl Abort, alloc: Global, line: &str) {
    let mut words = line.split_whitespace();
    let bits = u8::from_str_radix(words.next().expect(rt, "bits"), 16).expect(rt, "bits");
    let at: usize = words
        .next()
        .expect(rt, "an index")
        .parse()
        .expect(rt, "an index");
    let mut table = SMALL;
    if let Some(byte) = table.get_mut(at) {
        *byte ^= bits;
    }
    for address in [0x1005, 0x1015] {
        let wanted = words.next().expect(rt, "what is found");
        assert_found(rt, alloc, &table, address, wanted);
    }
}

#[test]
fn turned_bytes_are_read_as_the_header_says(rt: HostRuntime) {
    assert!(rt; is_increasing(&SMALL));
    let mut count = 0u32;
    for line in TURNED.lines() {
        assert_turned(&rt, rt.alloc(), line);
        count = count.wrapping_add(1);
    }
    assert!(rt; count == 240);
}
