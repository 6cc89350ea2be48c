//! Rows of aarch64 at the edges of what unwind rules say, each beside the same row with its CFA as an
//! expression, which no rule says.

use crate::modules::module_with;
use crate::steps::{cache_of, frame_of, unwinder_of};
use dwarf_readers::leb128::Leb128;
use framehop::aarch64::{ArchAarch64, PtrAuthMask, UnwindRegsAarch64};
use framehop::{
    BySections, ModuleUnwindData, ModuleUnwinding, MustNotAllocateDuringUnwind, Unwinder,
};
use std::alloc::{AllocError, Global};
use std::process::Abort;

/// The register that a CFA is relative to.
const SP_COLUMN: u8 = 31;

const FP_COLUMN: u8 = 29;

/// A register rule: the instruction that sets it, if there is one, and the offset from the CFA at which the register is stored.
type Column = (u8, i64);

const NONE: Column = (0, 0);

const SAME: Column = (0x08, 0);

const UNDEFINED: Column = (0x07, 0);

/// The instruction for a register that is stored.
const STORED: u8 = 0x11;

/// The register that the CFA is relative to, its offset, and the rules of X29 and X30.
type Row = (u8, i64, Column, Column);

/// A CIE whose offsets are in bytes and whose return address is in X30, and an FDE of 44 bytes for a function of sixteen bytes at
/// 0x1000, up to its instructions.
const HEAD: [u8; 40] = [
    12, 0, 0, 0, 0, 0, 0, 0, 1, 0, 1, 1, 30, 0, 0, 0, 44, 0, 0, 0, 20, 0, 0, 0, 0, 0x10, 0, 0, 0,
    0, 0, 0, 16, 0, 0, 0, 0, 0, 0, 0,
];

/// How many bytes the section has, with its end.
const SIZE: usize = 68;

/// A section with a function of sixteen bytes at 0x1000, which has this row.
fn with_row(alloc: Global, is_expression: bool, row: Row) -> Result<Vec<u8>, AllocError> {
    let (register, offset, fp, lr) = row;
    let mut bytes = HEAD.to_vec(alloc)?;
    let offset = Leb128::signed(offset);
    if is_expression {
        let length = (offset.len() as u8).wrapping_add(1);
        bytes.extend_from_slice(&[0x0f, length, register.wrapping_add(0x70)])?;
    } else {
        bytes.extend_from_slice(&[0x12, register])?;
    }
    bytes.extend_from_slice(offset.bytes())?;
    for (register, (instruction, stored)) in [(29, fp), (30, lr)] {
        if instruction != 0 {
            bytes.extend_from_slice(&[instruction, register])?;
        }
        if instruction == STORED {
            bytes.extend_from_slice(Leb128::signed(stored).bytes())?;
        }
    }
    bytes.resize(SIZE, 0)?;
    Ok(bytes)
}

/// The stack pointer of each frame, far from 0 and from 2^63.
const SP: u64 = 0x10_0000_0000;

/// The frame pointer, above it.
const FP: u64 = SP + 0x1_0000;

/// The greatest distance in bytes that an unsigned field of words says.
const WORDS: i64 = 8 * 65_535;

/// The greatest distance in bytes that a field of pairs of words says.
const PAIRS: i64 = 16 * 65_535;

/// The word at each address of a stack: an address above it, with an authentication code.
fn word_at(address: u64) -> Result<u64, ()> {
    Ok(address.wrapping_add(0x2b00_0000_0100_0000))
}

type Aarch64 = BySections<ArchAarch64, Vec<u8>, MustNotAllocateDuringUnwind>;

/// What the last of two equal steps gives and leaves, and whether its rule was found again.
type Stepped = (Option<u64>, (u64, u64, u64), bool);

/// Two equal steps in a module with a section, from a first or a later frame.
fn step_by<
    A: ModuleUnwinding<UnwindRegs = UnwindRegsAarch64, UnwindData = ModuleUnwindData<Vec<u8>>>,
>(rt: &impl Abort, alloc: Global, section: Vec<u8>, is_first: bool) -> Stepped {
    let module = module_with(alloc, section).expect(rt, "memory");
    let unwinder = unwinder_of::<A>(rt, alloc, module);
    let mut cache = cache_of::<A>(rt, alloc);
    let address = if is_first { 0x101004 } else { 0x101005 };
    let frame = frame_of(is_first, address).expect(rt, "a frame");
    let first = UnwindRegsAarch64::new_with_ptr_auth_mask(PtrAuthMask::new_24_40(), 0x1234, SP, FP);
    let (mut regs, mut read_stack) = (first, word_at);
    let _ = unwinder.unwind_frame(frame, &mut regs, &mut cache, &mut read_stack);
    regs = first;
    let answer = unwinder.unwind_frame(frame, &mut regs, &mut cache, &mut read_stack);
    let left = (regs.lr(), regs.sp(), regs.fp());
    (answer.ok().flatten(), left, cache.stats().hits() == 1)
}

/// Whether a signed field of words says where a register is stored, if it is stored.
fn is_said(offset: i64, (instruction, stored): Column) -> bool {
    let distance = offset.wrapping_add(stored);
    instruction != STORED || distance % 8 == 0 && -8 * 32_768 <= distance && distance <= 8 * 32_767
}

/// Whether an unwind rule says the row.
fn has_rule((register, offset, fp, lr): Row) -> bool {
    if !is_said(offset, fp) || !is_said(offset, lr) || offset < 0 {
        return false;
    }
    let (stores_fp, stores_lr) = (fp.0 == STORED, lr.0 == STORED);
    if register == SP_COLUMN {
        offset % 16 == 0 && offset <= PAIRS && (stores_lr || !stores_fp)
    } else {
        offset % 8 == 0 && offset <= WORDS && stores_lr && stores_fp
    }
}

/// Two equal steps by a row, whose CFA may be an expression.
fn step_by_row(
    rt: &impl Abort,
    alloc: Global,
    is_expression: bool,
    row: Row,
    is_first: bool,
) -> Stepped {
    let section = with_row(alloc, is_expression, row).expect(rt, "memory");
    step_by::<Aarch64>(rt, alloc, section, is_first)
}

/// Wants that both forms of a row give one caller, and that only the form that a rule says is kept.
fn check(rt: &impl Abort, alloc: Global, row: Row, is_first: bool) {
    let (to, regs, is_kept) = step_by_row(rt, alloc, false, row, is_first);
    let direct = step_by_row(rt, alloc, true, row, is_first);
    let is_wanted = to.is_some() && direct == (to, regs, false) && is_kept == has_rule(row);
    assert!(rt; is_wanted, "{row:?}");
}

/// Offsets of the CFA at the edges of what fields say, and beside them.
const OFFSETS: [i64; 14] = [
    0,
    4,
    8,
    12,
    16,
    24,
    32,
    -16,
    WORDS,
    WORDS + 1,
    WORDS + 8,
    PAIRS,
    PAIRS + 8,
    PAIRS + 16,
];

/// Distances from the register that the CFA is relative to, at the edges of a signed field of words.
const DISTANCES: [i64; 9] = [
    0,
    4,
    8,
    -8,
    8 * 32_767,
    8 * 32_767 + 4,
    8 * 32_768,
    -8 * 32_768,
    -8 * 32_769,
];

/// In first frames: a register is stored where the CFA's register points to, and the other at each distance from there, or it stays; and
/// both stay.
fn check_columns(rt: &impl Abort, alloc: Global, register: u8, offset: i64) {
    let there = (STORED, offset.wrapping_neg());
    for distance in DISTANCES {
        let other = (STORED, distance.wrapping_sub(offset));
        check(rt, alloc, (register, offset, there, other), true);
        check(rt, alloc, (register, offset, other, there), true);
    }
    for column in [NONE, SAME, UNDEFINED] {
        check(rt, alloc, (register, offset, there, column), true);
        for other in [there, NONE, SAME, UNDEFINED] {
            check(rt, alloc, (register, offset, column, other), true);
        }
    }
}

/// Offsets of the CFA in later frames.
const LATER: [i64; 7] = [8, 16, 32, WORDS, WORDS + 8, PAIRS, PAIRS + 16];

#[test]
fn rows_at_the_edges(rt: HostRuntime) {
    for offset in OFFSETS {
        check_columns(&rt, rt.alloc(), SP_COLUMN, offset);
        check_columns(&rt, rt.alloc(), FP_COLUMN, offset);
    }
    let (fp, lr) = ((STORED, -16), (STORED, -8));
    for offset in LATER {
        for (register, fp) in [(SP_COLUMN, fp), (FP_COLUMN, fp), (SP_COLUMN, SAME)] {
            check(&rt, rt.alloc(), (register, offset, fp, lr), false);
        }
    }
}
