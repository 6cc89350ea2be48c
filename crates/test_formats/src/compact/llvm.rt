//! Tables that lld links, beside what LLVM reads in them.

use crate::compact::tables::{
    AARCH64_FUNCTIONS, AARCH64_TABLES, X86_64_BODIES, X86_64_FRAMES_BODIES,
    X86_64_FRAMES_FUNCTIONS, X86_64_FRAMES_TABLES, X86_64_FRAMES_TEXT, X86_64_FUNCTIONS,
    X86_64_TABLES, X86_64_TEXT,
};
use framehop_compact::x86_64::{ArchX86_64, UnwindRuleX86_64};
use framehop_compact::{CompactUnwindInfoUnwinder, CuiUnwindResult, TextBytes};
use framehop_compact_tables::{CompactFormatError, Function, UnwindInfo, is_increasing};
use std::process::Abort;

/// Where the code of either library starts.
const TEXT_START: u32 = 0x560;

/// What a lookup finds.
type Found = Result<Option<Function>, CompactFormatError>;

/// The function of an address by halving, if the tables increase.
fn by_halving(tables: &[u8], address: u32) -> Option<Found> {
    if !is_increasing(tables) {
        return None;
    }
    Some(UnwindInfo::new_increasing(tables).lookup(address))
}

/// Asserts that a function is found at its first and its last address, in either way.
fn assert_function(rt: &impl Abort, tables: &[u8], function: Function) {
    let last = function.end_address.saturating_sub(1);
    for address in [function.start_address, last] {
        let found = Ok(Some(function));
        assert!(rt;
            UnwindInfo::new(tables).lookup(address) == found,
            "{address:x}"
        );
        assert!(rt; by_halving(tables, address) == Some(found), "{address:x}");
    }
}

/// A function by its parts.
fn function_of((start_address, end_address, opcode): (u32, u32, u32)) -> Function {
    Function {
        start_address,
        end_address,
        opcode,
    }
}

#[test]
fn functions_are_those_that_llvm_reads(rt: HostRuntime) {
    for parts in X86_64_FUNCTIONS {
        assert_function(&rt, &X86_64_TABLES, function_of(parts));
    }
    for parts in X86_64_FRAMES_FUNCTIONS {
        assert_function(&rt, &X86_64_FRAMES_TABLES, function_of(parts));
    }
    for parts in AARCH64_FUNCTIONS {
        assert_function(&rt, &AARCH64_TABLES, function_of(parts));
    }
}

/// The tables of a library, its code, and the rules of its functions' bodies.
type Library = (
    &'static [u8],
    &'static [u8],
    &'static [(u32, UnwindRuleX86_64)],
);

#[test]
fn bodies_have_the_rules_of_their_rows(rt: HostRuntime) {
    let libraries: [Library; 2] = [
        (&X86_64_TABLES, &X86_64_TEXT, &X86_64_BODIES),
        (
            &X86_64_FRAMES_TABLES,
            &X86_64_FRAMES_TEXT,
            &X86_64_FRAMES_BODIES,
        ),
    ];
    for (tables, text, bodies) in libraries {
        let text = Some(TextBytes::new(TEXT_START, text));
        let unwinder = CompactUnwindInfoUnwinder::<ArchX86_64>::new(tables, text, (0, 0), (0, 0));
        for &(address, rule) in bodies {
            let found = unwinder.unwind_frame(address, false);
            assert!(rt;
                found == Ok(CuiUnwindResult::ExecRule(rule)),
                "{address:x} {found:?}"
            );
        }
    }
}
