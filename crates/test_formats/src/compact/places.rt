//! Steps by where an address is: in stubs, at a function's start, and outside of functions.

use crate::compact::worked::{Answer, TABLES, TEXT};
use framehop_compact::aarch64::{ArchAarch64, UnwindRuleAarch64};
use framehop_compact::x86_64::{ArchX86_64, UnwindRuleX86_64};
use framehop_compact::{
    CodeRules, CompactFormatError, CompactUnwindInfoUnwinder, CompactUnwindInfoUnwinderError,
    CompactUnwindInfoUnwinding, CuiUnwindResult, TextBytes,
};

const STUB: CompactUnwindInfoUnwinderError =
    CompactUnwindInfoUnwinderError::StubFunctionCannotBeCaller;

/// The rules where nothing, two words and three are above the stack pointer.
const RETURN: Answer = Ok(CuiUnwindResult::ExecRule(UnwindRuleX86_64::JustReturn));

const TWO: Answer = Ok(CuiUnwindResult::ExecRule(UnwindRuleX86_64::OffsetSp { sp_offset_by_8: 2 }));

const THREE: Answer = Ok(CuiUnwindResult::ExecRule(UnwindRuleX86_64::OffsetSp {
    sp_offset_by_8: 3,
}));

const FRAME: Answer = Ok(CuiUnwindResult::ExecRule(UnwindRuleX86_64::UseFramePointer));

// What is said of a later frame outside of functions.
macro_rules! outside {
    ($address:expr) => {
        Err(CompactUnwindInfoUnwinderError::AddressOutsideRange($address))
    };
}

/// A file with the worked function, its code from an address on, stubs from 0x100 to 0x200, and helpers of stubs from 0x200
/// to 0x300.
fn unwinder(text: TextBytes<'_>) -> CompactUnwindInfoUnwinder<'_, ArchX86_64> {
    CompactUnwindInfoUnwinder::new(&TABLES, Some(text), (0x100, 0x200), (0x200, 0x300))
}

/// Which bytes of the code there are, from the first on and up to the second; an address, whether it is a first frame's, and what a step
/// says.
static STEPS: [((usize, usize), u32, bool, Answer); 22] = [
    // first frames can be anywhere
    ((0, 16), 0xff, true, RETURN),
    ((0, 16), 0x100, true, RETURN),
    ((0, 16), 0x1ff, true, RETURN),
    ((0, 16), 0x206, true, TWO),
    ((0, 16), 0x207, true, THREE),
    ((0, 16), 0x300, true, RETURN),
    ((0, 16), 0x1000, true, RETURN),
    ((0, 16), 0x1001, true, TWO),
    // later frames are in functions
    ((0, 16), 0x100, false, Err(STUB)),
    ((0, 16), 0x1ff, false, Err(STUB)),
    ((0, 16), 0x200, false, Err(STUB)),
    ((0, 16), 0x2ff, false, Err(STUB)),
    ((0, 16), 0xff, false, outside!(0xff)),
    ((0, 16), 0x300, false, outside!(0x300)),
    ((0, 16), 0xfff, false, outside!(0xfff)),
    ((0, 16), 0x1010, false, outside!(0x1010)),
    ((0, 16), 0x1000, false, FRAME),
    ((0, 16), 0x1001, false, FRAME),
    ((0, 16), 0x100f, false, FRAME),
    // machine code is read where a function is whole
    ((0, 16), 0x1001, true, TWO),
    ((0, 15), 0x1001, true, FRAME),
    ((1, 16), 0x1001, true, FRAME),
];

#[test]
fn steps_by_their_places(rt: HostRuntime) {
    for &((from, to), address, is_first_frame, wanted) in &STEPS {
        let start = if from == 0 { 0x1000 } else { 0x1001 };
        let text = TextBytes::new(start, TEXT.get(from..to).unwrap_or(&TEXT));
        let found = unwinder(text).unwind_frame(address, is_first_frame);
        assert!(rt; found == wanted, "{address:x} {found:?}");
    }
}

#[test]
fn code_is_read_by_the_rules_that_are_asked_for(rt: HostRuntime) {
    for (code_rules, wanted) in [(CodeRules::Published, THREE), (CodeRules::Known, TWO)] {
        let found = unwinder(TextBytes::new(0x1000, &TEXT))
            .with_code_rules(code_rules)
            .unwind_frame(0x207, true);
        assert!(rt; found == wanted, "{found:?}");
    }
}

/// Offsets in the helpers of stubs, and the rules there: by the rules of the original, and by what the code does. They differ within the
/// `push` that all stubs share.
static HELPERS: [(u32, Answer, Answer); 10] = [
    (0x6, TWO, TWO),
    (0x7, THREE, TWO),
    (0x8, THREE, TWO),
    (0x9, THREE, THREE),
    (0xf, THREE, THREE),
    (0x10, RETURN, RETURN),
    (0x15, TWO, TWO),
    (0x1a, RETURN, RETURN),
    (0x1f, TWO, TWO),
    (0x0, TWO, TWO),
];

const ONE_PAIR: UnwindRuleAarch64 = UnwindRuleAarch64::OffsetSp { sp_offset_by_16: 1 };

/// The same on aarch64, by either.
static HELPERS_AARCH64: [(u32, UnwindRuleAarch64); 4] = [
    (0xb, UnwindRuleAarch64::NoOp),
    (0xc, ONE_PAIR),
    (0x17, ONE_PAIR),
    (0x18, UnwindRuleAarch64::NoOp),
];

#[test]
fn helpers_of_stubs_have_rules(rt: HostRuntime) {
    for &(offset, published, known) in &HELPERS {
        let found = ArchX86_64::rule_for_stub_helper(CodeRules::Published, offset);
        assert!(rt; found == published, "{offset:x} {found:?}");
        let found = ArchX86_64::rule_for_stub_helper(CodeRules::Known, offset);
        assert!(rt; found == known, "{offset:x} {found:?}");
    }
    for &(offset, rule) in &HELPERS_AARCH64 {
        for code_rules in [CodeRules::Published, CodeRules::Known] {
            let found = ArchAarch64::rule_for_stub_helper(code_rules, offset);
            assert!(rt; found == Ok(CuiUnwindResult::ExecRule(rule)), "{offset:x}");
        }
    }
}

#[test]
fn without_tables_no_function_is_known(rt: HostRuntime) {
    let unwinder = CompactUnwindInfoUnwinder::<ArchAarch64>::new(
        &[],
        None,
        (0x1d2d18, 0x1d309c),
        (0x1d309c, 0x1d3438),
    );
    let refusal = CompactUnwindInfoUnwinderError::BadFormat(CompactFormatError::Truncated);
    assert!(rt; unwinder.unwind_frame(0x1292c0, true) == Err(refusal));
    let no_op = Ok(CuiUnwindResult::ExecRule(UnwindRuleAarch64::NoOp));
    assert!(rt; unwinder.unwind_frame(0x1d2d18, true) == no_op);
}
