//! What is undone of a prolog, and the step by it.

ghost use Rattle.std.specs.Prelude.{◌≡◌, IfOk, IfErr, OnErr, Err, true};
ghost use Rattle.framehop_registers.specs.Callback.{OverWords};
ghost use Rattle.framehop_pe_codes.specs.CodesToUndo.{operations_from, codes_to_undo};
ghost use Rattle.framehop_pe_codes.specs.Infos.{info_at};
ghost use Rattle.framehop_pe_codes.specs.InfoViews.{operations_left, IsFirstAt, OverCodes, OverFirst, ReadsChain};
ghost use Rattle.framehop_pe_codes.specs.Refusals.{IsOfStack};
ghost use Rattle.framehop_pe_codes.specs.Sections.{info_memory};
ghost use Rattle.framehop_pe_codes.specs.StepViews.{StepsByCodes};

use crate::chain::{CodesLeft, ran_codes};
use crate::info::{UnwindInfo, read_info};
use crate::machine::FrameBase;
use crate::run::{has_set_frame, undo_codes};
use crate::sections::PeSections;
use framehop_errors::PeUnwinderError;
use framehop_registers::x86_64::UnwindRegsX86_64;

/// What is undone of a prolog. All codes can be read.
#[derive(Clone, Copy, Debug)]
pub struct PrologCodes<'a> {
    /// The codes to undo.
    pub left: CodesLeft<'a>,
    /// What offsets of saved registers are counted from.
    pub frame: FrameBase,
}

/// The first info of a chain, at an address. Fails with `MissingUnwindInfoData`, and with `UnwindInfoParseError` if the
/// bytes there are no unwind info of version 1.
#[inline(always)]
pub fn first_info<'a>(
    sections: PeSections<'a>,
    address: u32,
) -> Result<UnwindInfo<'a>, PeUnwinderError>
    ensures ok { IfOk result (λ info. IsFirstAt (info_memory sections.entry) info address) }
    ensures err { IfErr result (λ e. info_at (info_memory sections.entry) true address ≡ Err e) }
{
    let bytes = sections.unwind_info_memory_at_rva(address)?;
    match read_info(true, bytes) {
        Some(info) => Ok(info),
        None => Err(PeUnwinderError::UnwindInfoParseError),
    }
}

// The codes to undo of a chain by its first info, at an offset in the function.
fn codes_from<'a>(sections: PeSections<'a>, info: UnwindInfo<'a>, offset: u32) -> CodesLeft<'a>
    ensures { OverFirst info.entry (λ first.
        operations_left result ≡ operations_from (info_memory sections.entry) first offset) }
{
    let is_framed = info.frame_register.is_some();
    CodesLeft {
        sections,
        is_first_framed: is_framed,
        is_framed,
        codes: ran_codes(is_framed, info.codes, offset),
        chained: info.chained,
        infos: 31,
    }
}

/// Reads the whole chain of a first info, for an address at this offset in the function.
#[inline(always)]
pub fn read_chain<'a>(
    sections: PeSections<'a>,
    info: UnwindInfo<'a>,
    offset: u32,
) -> Result<PrologCodes<'a>, PeUnwinderError>
    ensures ok { IfOk result (ReadsChain (info_memory sections.entry) info.entry offset) }
    ensures err { IfErr result (λ e. OverFirst info.entry (λ first.
        codes_to_undo (info_memory sections.entry) first offset ≡ Err e)) }
{
    let left = codes_from(sections, info, offset);
    let is_set = has_set_frame(left)?;
    let frame = FrameBase {
        register: info.frame_register,
        offset: info.frame_offset,
        is_set,
    };
    Ok(PrologCodes { left, frame })
}

/// The step by the codes of a prolog, which are undone one by one on a copy of the registers: an error leaves them as
/// they were. Fails with `MissingStackData`.
pub fn unwind_by_codes<F: FnMut(u64) -> Result<u64, ()>>(
    codes: PrologCodes<'_>,
    regs: &mut UnwindRegsX86_64,
    read_stack: &mut F,
) -> Result<u64, PeUnwinderError>
    requires { F.IsAlwaysCallable read_stack.old }
    ensures callable { F.IsAlwaysCallable read_stack.new }
    ensures step { OverWords F.step read_stack.old read_stack.new
        (StepsByCodes codes.entry result regs.old regs.new) }
    ensures error_keeps { OnErr result (regs.new ≡ regs.old) }
    ensures refusal { OverCodes codes.entry (λ undo. IfErr result IsOfStack) }
{
    let mut caller = *regs;
    let to = undo_codes(codes.left, &codes.frame, &mut caller, read_stack)?;
    *regs = caller;
    Ok(to)
}
