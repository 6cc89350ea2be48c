//! Functions of addresses in compact unwind info.

use crate::damaged::readings::{Check, check_all};
use crate::damaged::values::{COMPACT, TABLES, UNSORTED_INDEX, UNSORTED_PAGE};
use framehop_compact_tables::{CompactFormatError, Function, UnwindInfo, is_increasing};
use std::alloc::Global;
use std::process::Abort;
use std::test::Fail;
use test_readers::Outcome;

// The function of an address, by a pass and, where the tables increase, by halving.
#[derive(Drop)]
struct FunctionOf(u32);

// The text of what a lookup finds.
fn text_of(
    alloc: Global,
    found: Result<Option<Function>, CompactFormatError>,
) -> Result<String, Fail> {
    Ok(match found {
        Ok(Some(function)) => {
            let Function {
                start_address,
                end_address,
                opcode,
            } = function;
            format!(in alloc; "{start_address:x}..{end_address:x} {opcode:x}")?
        }
        Ok(None) => format!(in alloc; "none")?,
        Err(CompactFormatError::BadPageKind(kind)) => {
            format!(in alloc; "BadPageKind(0x{kind:x})")?
        }
        Err(CompactFormatError::Truncated) => format!(in alloc; "Truncated")?,
        Err(CompactFormatError::BadEncodingIndex) => format!(in alloc; "BadEncodingIndex")?,
    })
}

impl<H: Abort> Check<H> for FunctionOf {
    fn check(&self, rt: &H, alloc: Global, bytes: &[u8], answer: &str) -> Outcome {
        let passed = text_of(alloc, UnwindInfo::new(bytes).lookup(self.0))?;
        assert!(rt; passed.as_str() == answer, "{passed}");
        if is_increasing(bytes) {
            let halved = text_of(alloc, UnwindInfo::new_increasing(bytes).lookup(self.0))?;
            assert!(rt; halved.as_str() == answer, "{halved}");
        }
        Ok(())
    }
}

#[test]
fn functions_of_unwind_info(rt: HostRuntime) -> Outcome {
    for readings in [&COMPACT, &UNSORTED_PAGE, &UNSORTED_INDEX] {
        check_all(&rt, rt.alloc(), &FunctionOf(0x1005), readings)?;
    }
    for readings in &TABLES {
        check_all(&rt, rt.alloc(), &FunctionOf(0x1005), readings)?;
    }
    Ok(())
}
