//! Parts of a section, and sections that are loaded.

use dwarf_constants::{Error, ReaderOffsetId, SectionId};
use dwarf_read_core::{DebugStr, Section};
use dwarf_readers::{Reader, ReaderOffset, RunTimeEndian};
use std::alloc::Global;
use std::process::Abort;
use test_readers::{Outcome, ReaderTest, over_each_reader};

#[derive(Drop)]
struct PartTest;

impl<H: Abort> ReaderTest<H> for PartTest {
    fn run<R: Reader>(&self, rt: &H, _alloc: Global, reader: R) -> Outcome {
        let section = DebugStr::load(|id: SectionId| -> Result<R, Error> {
            match id {
                SectionId::DebugStr => Ok(reader),
                _ => Err(Error::BadUtf8),
            }
        })?;
        let part = section.dwp_range(1, 3)?;
        let reader = Section::reader(&part);
        assert!(rt; reader.len().into_u64() == 3);
        assert!(rt; reader.offset_id() == ReaderOffsetId(1));
        let found = part.lookup_offset_id(ReaderOffsetId(4));
        let found = found.map(|(id, offset)| (id, offset.into_u64()));
        assert!(rt; found == Some((SectionId::DebugStr, 3)));
        assert!(rt; part.lookup_offset_id(ReaderOffsetId(5)).is_none());
        for (offset, size, end) in [(6, 0, 0), (2, 4, 2)] {
            let refused = section.dwp_range(offset, size).err();
            assert!(rt; refused == Some(Error::UnexpectedEof(ReaderOffsetId(end))));
        }
        Ok(())
    }
}

#[test]
fn parts_of_a_section(rt: HostRuntime) -> Outcome {
    let bytes = [0x61, 0x62, 0, 0x63, 0];
    over_each_reader(&rt, rt.alloc(), &PartTest, &bytes, RunTimeEndian::Little)
}
