//! Tables, strings and addresses of sections. `cases_dwarf` has what they give for bytes.

mod cache;
mod parts;

use dwarf_constants::{DwForm, Encoding, Format};
use dwarf_read_core::{AttributeSpecification, DebugAddr, Section};
use dwarf_readers::{Reader, ReaderOffset, RunTimeEndian};
use std::alloc::Global;
use std::process::Abort;
use test_readers::{Outcome, ReaderTest, over_each_reader};

// The one set of addresses of a section, and that no other follows.
#[derive(Drop)]
struct OneSet;

impl<H: Abort> ReaderTest<H> for OneSet {
    fn run<R: Reader>(&self, rt: &H, _alloc: Global, reader: R) -> Outcome {
        let section = DebugAddr::from(reader);
        assert!(rt; Section::reader(&section).len().into_u64() == 16);
        let mut headers = section.headers();
        let header = headers.next()?.ok_or("a set")?;
        let mut entries = header.entries();
        for address in [Some(0x11), Some(0x22), None] {
            assert!(rt; entries.next()? == address);
        }
        assert!(rt; headers.next()?.is_none());
        Ok(())
    }
}

#[test]
fn addresses(rt: HostRuntime) -> Outcome {
    let set = [
        0x0c, 0, 0, 0, 0x05, 0, 0x04, 0, 0x11, 0, 0, 0, 0x22, 0, 0, 0,
    ];
    over_each_reader(&rt, rt.alloc(), &OneSet, &set, RunTimeEndian::Little)
}

// Forms with the sizes of their values, where these don't depend on the value.
static FORMS: [(u16, Option<usize>); 4] = [
    (0x01, Some(8)),
    (0x0e, Some(4)),
    (0x10, Some(8)),
    (0x0a, None),
];

#[test]
fn sizes_of_forms(rt: HostRuntime) {
    let encoding = Encoding {
        address_size: 8,
        format: Format::Dwarf32,
        version: 2,
    };
    for (form, size) in &FORMS {
        let attribute = AttributeSpecification::new(3, DwForm(*form), None);
        assert!(rt; attribute.size(encoding) == *size);
    }
}
