//! Steps in the prolog, the body and the epilog of functions, by each kind of code, and through chains of unwind infos.

use crate::pe::cases::CASES;
use crate::pe::worked::{Frame, ROW, caller};
use framehop_pe::CodeRules;
use std::alloc::{AllocError, Global};
use std::process::Abort;
use std::str::SplitWhitespace;

/// The next word as a hexadecimal number.
fn number(rt: &impl Abort, words: &mut SplitWhitespace<'_>) -> u64 {
    u64::from_str_radix(words.next().expect(rt, "a number"), 16).expect(rt, "a number")
}

/// Asserts to what a step leads, by a line of the cases.
fn assert_step<'x>(
    rt: &impl Abort,
    alloc: Global,
    code_rules: CodeRules,
    sections: (&'x [u8], &'x [u8], Option<&'x [u8]>),
    line: &str,
) {
    let (step, wanted) = line.split_once(" => ").expect(rt, "a step");
    let mut words = step.split_whitespace();
    let address = u32::try_from(number(rt, &mut words)).expect(rt, "an address");
    let frame = Frame {
        address,
        is_first: words.next() == Some("first"),
        ip: number(rt, &mut words),
        sp: number(rt, &mut words),
        bp: number(rt, &mut words),
        end: number(rt, &mut words),
    };
    let found = caller(rt, alloc, code_rules, sections, frame).expect(rt, "memory");
    assert!(rt; found.as_str() == wanted, "{line}: {found}");
}

#[test]
fn steps(rt: HostRuntime) {
    let mut pdata = Vec::new(rt.alloc());
    let mut xdata = Vec::new(rt.alloc());
    let mut text = Vec::new(rt.alloc());
    let mut code_rules = CodeRules::Published;
    let mut count = 0u32;
    for line in CASES.lines() {
        let (kind, rest) = line.split_once(' ').unwrap_or((line, ""));
        match kind {
            "rules" if rest == "known" => code_rules = CodeRules::Known,
            "rules" => code_rules = CodeRules::Published,
            "pdata" => pdata = hex::decode(rt.alloc(), rest.as_bytes()).expect(&rt, "bytes"),
            "xdata" => xdata = hex::decode(rt.alloc(), rest.as_bytes()).expect(&rt, "bytes"),
            "text" => text = hex::decode(rt.alloc(), rest.as_bytes()).expect(&rt, "bytes"),
            "step" => {
                let code = if text.is_empty() {
                    None
                } else {
                    Some(text.as_slice())
                };
                assert_step(&rt, rt.alloc(), code_rules, (&pdata, &xdata, code), rest);
                count = count.wrapping_add(1);
            }
            _ => {}
        }
    }
    assert!(rt; count == 103);
}

/// So many infos without codes, one after the other, each of which but the last leads to the next.
fn chain_of(alloc: Global, count: u8) -> Result<Vec<u8>, AllocError> {
    let mut bytes = Vec::new(alloc);
    for number in 1..count {
        let next = 0x2000 + 16 * u32::from(number);
        bytes.extend_from_slice(&[0x21, 0, 0, 0, 0, 0x10, 0, 0, 0x10, 0x10, 0, 0])?;
        bytes.extend_from_slice(&next.to_le_bytes())?;
    }
    bytes.extend_from_slice(&[0x01, 0, 0, 0])?;
    Ok(bytes)
}

#[test]
fn chains_have_at_most_32_infos(rt: HostRuntime) {
    for count in [1, 31, 32, 33] {
        let line = if count < 33 {
            "1008 later 101009 10 20 80 => 100300 100300 18 20 0"
        } else {
            "1008 later 101009 10 20 80 => UnwindInfoParseError"
        };
        let chain = chain_of(rt.alloc(), count).expect(&rt, "memory");
        let sections = (ROW.as_slice(), chain.as_slice(), None);
        assert_step(&rt, rt.alloc(), CodeRules::Published, sections, line);
    }
}
