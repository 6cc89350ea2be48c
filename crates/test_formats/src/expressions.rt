//! Evaluations that ask for a register, that are over, and that were refused.

use dwarf_constants::{Encoding, Error, Format, ReaderOffsetId, Register, Result};
use dwarf_expressions::{Evaluation, EvaluationResult, Expression, PushError, StoreOnHeap, Value};
use dwarf_readers::{EndianSlice, LittleEndian, Reader, RunTimeEndian};
use std::alloc::Global;
use std::process::Abort;
use test_readers::{Outcome, ReaderTest, over_each_reader};

fn sized(address_size: u8) -> Encoding {
    Encoding {
        address_size,
        format: Format::Dwarf32,
        version: 5,
    }
}

// An evaluation of a reader's bytes, over memory that grows.
fn evaluation_of<R: Reader>(
    alloc: Global,
    reader: R,
    address_size: u8,
) -> Result<Evaluation<R, StoreOnHeap>> {
    Evaluation::new_in(alloc, Expression(reader), sized(address_size))
}

// Wants the same outcome at each call.
fn stays<R: Reader>(
    rt: &impl Abort,
    evaluation: &mut Evaluation<R, StoreOnHeap>,
    outcome: Result<u64>,
) {
    for _ in 0..3 {
        let refused = evaluation.evaluate().err();
        assert!(rt; refused == outcome.err() && evaluation.value_result() == outcome.ok());
    }
    if let Err(error) = outcome
        && evaluation.evaluate().is_err()
    {
        let answer = evaluation.resume_with_register(Value::Generic(1));
        assert!(rt; answer == Err(error));
    }
}

// Wants an outcome of an expression that has no value before it was evaluated.
#[derive(Clone, Copy)]
struct OutcomeTest(Result<u64>);

impl<H: Abort> ReaderTest<H> for OutcomeTest {
    fn run<R: Reader>(&self, rt: &H, alloc: Global, reader: R) -> Outcome {
        let mut evaluation = evaluation_of(alloc, reader, 8)?;
        assert!(rt; evaluation.value_result() == None);
        stays(rt, &mut evaluation, self.0);
        Ok(())
    }
}

static OUTCOMES: [(&[u8], Result<u64>); 5] = [
    (b"\x31\x35", Ok(5)),
    (b"\x2f\xfd\xff", Err(Error::TooManyIterations)),
    (b"\x31\x30\x1d", Err(Error::DivisionByZero)),
    (b"\x31\x13\x13", Err(Error::NotEnoughStackItems)),
    (b"\x31\x2f\xff\x7f", Err(Error::BadBranchTarget(0x8003))),
];

#[test]
fn an_outcome_stays(rt: HostRuntime) -> Outcome {
    for (bytes, outcome) in &OUTCOMES {
        let test = OutcomeTest(*outcome);
        over_each_reader(&rt, rt.alloc(), &test, bytes, RunTimeEndian::Little)?;
    }
    Ok(())
}

static MANY_VALUES: [u8; 200] = [0x30; 200];

// Values allocate more than once. If that fails, each call returns the error.
#[test]
fn want_of_memory_stays(rt: HostRuntime) {
    let reader = EndianSlice::new(&MANY_VALUES, RunTimeEndian::Little);
    let mut evaluation = evaluation_of(rt.alloc(), reader, 8).expect(&rt, "memory");
    if evaluation.evaluate().is_ok() {
        assert!(rt; evaluation.value_result() == Some(0));
    } else {
        stays(&rt, &mut evaluation, Err(Error::OutOfMemory));
    }
}

// An expression within a section: targets count from its start, missing bytes from the section's.
#[test]
fn an_expression_within_a_section(rt: HostRuntime) {
    let cut_off = Error::UnexpectedEof(ReaderOffsetId(0x1002));
    for (bytes, error) in [
        (b"\x31\x2f\x01\x00".as_slice(), Error::BadBranchTarget(5)),
        (b"\x31\x0a\x01".as_slice(), cut_off),
    ] {
        let reader = EndianSlice::new_at(bytes, LittleEndian, 0x1000);
        let mut evaluation = evaluation_of(rt.alloc(), reader, 8).expect(&rt, "memory");
        stays(&rt, &mut evaluation, Err(error));
    }
}

// Asks for register 7, and adds 8 to its value.
#[derive(Clone, Copy)]
struct AskingTest {
    address_size: u8,
    value: u64,
    want: u64,
}

impl<H: Abort> ReaderTest<H> for AskingTest {
    fn run<R: Reader>(&self, rt: &H, alloc: Global, reader: R) -> Outcome {
        let mut evaluation = evaluation_of(alloc, reader, self.address_size)?;
        let asked = Ok(EvaluationResult::RequiresRegister {
            register: Register(7),
        });
        assert!(rt; evaluation.evaluate() == asked);
        assert!(rt; evaluation.value_result() == None);
        let again = evaluation.evaluate();
        assert!(rt; again == asked);
        if let Ok(EvaluationResult::RequiresRegister { .. }) = again {
            let answer = evaluation.resume_with_register(Value::Generic(self.value));
            assert!(rt; answer == Ok(EvaluationResult::Complete));
        }
        assert!(rt; evaluation.value_result() == Some(self.want));
        Ok(())
    }
}

// The size of an address, what register 7 has, and the sum.
static ASKED: [(u8, u64, u64); 5] = [
    (8, 0x10, 0x18),
    (8, u64::MAX, 7),
    (4, 0xffff_fffe, 6),
    (4, 0x1_0000_0000, 8),
    (1, 0xff, 7),
];

#[test]
fn a_register_is_asked_for(rt: HostRuntime) -> Outcome {
    for &(address_size, value, want) in &ASKED {
        let test = AskingTest {
            address_size,
            value,
            want,
        };
        over_each_reader(&rt, rt.alloc(), &test, &[0x77, 8], RunTimeEndian::Little)?;
        over_each_reader(&rt, rt.alloc(), &test, &[0x92, 7, 8], RunTimeEndian::Big)?;
    }
    Ok(())
}

#[test]
fn texts(rt: HostRuntime) {
    let answer = EvaluationResult::RequiresRegister {
        register: Register(16),
    };
    let (value, error) = (Value::Generic(5), PushError::CapacityFull);
    let expression = Expression(EndianSlice::new(&[0x31], LittleEndian));
    let text = format!(in rt.alloc(); "{answer:?} {value:?} {error:?} {expression:?}");
    let wanted = "RequiresRegister { register: Register(16) } Generic(5) CapacityFull Expression(";
    assert!(rt; text.expect(&rt, "memory").as_str().starts_with(wanted));
}
