//! Files with one function, and a worked stack.

ghost use Rattle.std.specs.Prelude.{◌≡◌, ◌↔◌, IsTrue};
ghost use Rattle.framehop_pe.specs.Rows.{IsIncreasing};

use framehop_pe::{
    CodeRules, DataAtRvaRange, PeSections, PeUnwinderError, PeUnwinding, pdata_is_increasing,
};
use framehop_rules::x86_64::{ArchX86_64, Reg, UnwindRegsX86_64, UnwindRuleX86_64};
use framehop_rules::{UnwindResult, UnwindRule};
use std::alloc::{AllocError, Global};
use std::process::Abort;

/// The row of a function from 0x1000 to 0x1010, with its unwind info at 0x2000.
pub const ROW: [u8; 12] = [0, 0x10, 0, 0, 0x10, 0x10, 0, 0, 0, 0x20, 0, 0];

/// Its unwind info: RBX is pushed, and the stack pointer goes down by 0x20.
pub const INFO: [u8; 8] = [0x01, 0x05, 0x02, 0x00, 0x05, 0x32, 0x01, 0x30];

/// Sixteen words of a stack, at addresses 0, 8, .. 0x78.
const WORDS: [u64; 16] = [
    0x1, 0x2, 0x100300, 0x4, 0x40, 0x100200, 0x5, 0x6, 0x70, 0x100100, 0x7, 0x8, 0x9, 0xa, 0x0, 0x0,
];

/// The word of that stack at an address below this one.
fn word_below(end: u64, address: u64) -> Result<u64, ()> {
    if address % 8 != 0 || end <= address {
        return Err(());
    }
    WORDS.get((address / 8) as usize).copied().ok_or(())
}

/// A frame: the address at which a step looks, whether it is the first, and its IP, SP and BP, with the end of what can be read
/// of the stack.
#[derive(Clone, Copy)]
pub struct Frame {
    pub address: u32,
    pub is_first: bool,
    pub ip: u64,
    pub sp: u64,
    pub bp: u64,
    pub end: u64,
}

/// What a step gives, before a rule is executed.
type Answer = Result<UnwindResult<UnwindRuleX86_64>, PeUnwinderError>;

/// A file with these rows, this `.xdata` and this `.text`, whose code is read by these rules.
fn sections_of<'a>(
    code_rules: CodeRules,
    pdata: &'a [u8],
    infos: &'a DataAtRvaRange<'a>,
    text: Option<&'a DataAtRvaRange<'a>>,
) -> PeSections<'a>
    ensures pdata { result.pdata.now ≡ pdata.entry.now }
    ensures increasing { IsTrue result.increasing ↔ IsIncreasing pdata.entry.now }
{
    let rdata = None;
    let xdata = Some(infos);
    PeSections {
        pdata,
        increasing: pdata_is_increasing(pdata),
        rdata,
        xdata,
        text,
        code_rules,
    }
}

/// The step from a frame over the worked stack, in a file with these rows, this `.xdata` at 0x2000 and this `.text` at 0x1000, whose
/// code is read by these rules; and the registers after it.
fn step<'x>(
    code_rules: CodeRules,
    (pdata, xdata, text): (&'x [u8], &'x [u8], Option<&'x [u8]>),
    frame: Frame,
) -> (Answer, UnwindRegsX86_64) {
    let infos = DataAtRvaRange {
        bytes: xdata,
        rva_range: 0x2000..0x3000,
    };
    let code = DataAtRvaRange {
        bytes: text.unwrap_or(&[]),
        rva_range: 0x1000..0x1010,
    };
    let text = if text.is_some() { Some(&code) } else { None };
    let sections = sections_of(code_rules, pdata, &infos, text);
    let mut regs = UnwindRegsX86_64::new(frame.ip, frame.sp, frame.bp);
    let mut read = |address: u64| word_below(frame.end, address);
    let answer = ArchX86_64::unwind_frame(
        sections,
        frame.address,
        &mut regs,
        frame.is_first,
        &mut read,
    );
    (answer, regs)
}

/// The caller to which a step leads, by a rule or without one, and IP, SP, BP and RBX there, in hexadecimal; or the refusal, which
/// has to leave the registers.
pub fn caller<'x>(
    rt: &impl Abort,
    alloc: Global,
    code_rules: CodeRules,
    sections: (&'x [u8], &'x [u8], Option<&'x [u8]>),
    frame: Frame,
) -> Result<String, AllocError> {
    let (answer, mut regs) = step(code_rules, sections, frame);
    let mut read = |address: u64| word_below(frame.end, address);
    let to = match answer {
        Ok(UnwindResult::ExecRule(rule)) => {
            assert!(rt; rule.is_valid(), "{rule:?}");
            rule.exec(frame.is_first, &mut regs, &mut read)
                .ok()
                .flatten()
        }
        Ok(UnwindResult::Uncacheable(to)) => Some(to),
        Err(refusal) => {
            let left = (regs.ip(), regs.sp(), regs.bp());
            assert!(rt; left == (frame.ip, frame.sp, frame.bp), "{regs:?}");
            return Ok(format!(in alloc; "{refusal:?}")?);
        }
    };
    let to = to.unwrap_or(0);
    let (ip, sp, bp, rbx) = (regs.ip(), regs.sp(), regs.bp(), regs.get(Reg::RBX));
    Ok(format!(in alloc; "{to:x} {ip:x} {sp:x} {bp:x} {rbx:x}")?)
}
