//! The words for codes of signals.

ghost use Rattle.std.specs.Prelude.{◌≡◌, option_map};
ghost use Rattle.backtrace_headings.specs.Signals.{bus_codes, fault_words, float_codes, illegal_codes, memory_codes, trap_codes, words_in};

// The words for a code of SIGILL.
fn illegal_words(code: u32) -> Option<&'static str>
    ensures { option_map (λ words. words.now) result ≡ words_in illegal_codes code }
{
    match code {
        1 => Some("illegal opcode"),
        2 => Some("illegal operand"),
        3 => Some("illegal addressing mode"),
        4 => Some("illegal trap"),
        5 => Some("privileged opcode"),
        6 => Some("privileged register"),
        7 => Some("coprocessor error"),
        8 => Some("internal stack error"),
        9 => Some("unimplemented instruction address"),
        _ => None,
    }
}

// The words for a code of SIGTRAP.
fn trap_words(code: u32) -> Option<&'static str>
    ensures { option_map (λ words. words.now) result ≡ words_in trap_codes code }
{
    match code {
        1 => Some("process breakpoint"),
        2 => Some("process trace trap"),
        3 => Some("process taken branch trap"),
        4 => Some("hardware breakpoint/watchpoint"),
        5 => Some("undiagnosed trap"),
        6 => Some("perf event with sigtrap=1"),
        _ => None,
    }
}

// The words for a code of SIGBUS.
fn bus_words(code: u32) -> Option<&'static str>
    ensures { option_map (λ words. words.now) result ≡ words_in bus_codes code }
{
    match code {
        1 => Some("invalid address alignment"),
        2 => Some("non-existent physical address"),
        3 => Some("object specific hardware error"),
        4 => Some("hardware memory error consumed on a machine check: action required"),
        5 => Some("hardware memory error detected in process but not consumed: action optional"),
        _ => None,
    }
}

// The words for a code of SIGFPE.
fn float_words(code: u32) -> Option<&'static str>
    ensures { option_map (λ words. words.now) result ≡ words_in float_codes code }
{
    match code {
        1 => Some("integer divide by zero"),
        2 => Some("integer overflow"),
        3 => Some("floating point divide by zero"),
        4 => Some("floating point overflow"),
        5 => Some("floating point underflow"),
        6 => Some("floating point inexact result"),
        7 => Some("floating point invalid operation"),
        8 => Some("subscript out of range"),
        14 => Some("undiagnosed floating-point exception"),
        15 => Some("trap on condition"),
        _ => None,
    }
}

// The words for a code of SIGSEGV.
fn memory_words(code: u32) -> Option<&'static str>
    ensures { option_map (λ words. words.now) result ≡ words_in memory_codes code }
{
    match code {
        1 => Some("address not mapped"),
        2 => Some("invalid permissions"),
        3 => Some("failed address bound checks"),
        4 => Some("failed protection key checks"),
        8 => Some("asynchronous ARM MTE error"),
        9 => Some("synchronous ARM MTE exception"),
        10 => Some("control protection fault"),
        _ => None,
    }
}

/// The words for a code of a signal's own, if it has some.
#[tactic(auto, unfolding(crate::specs::Signals::fault_words))]
pub(crate) fn fault_words(signal: u16, code: u32) -> Option<&'static str>
    ensures { option_map (λ words. words.now) result ≡ fault_words signal code }
{
    match signal {
        4 => illegal_words(code),
        5 => trap_words(code),
        7 => bus_words(code),
        8 => float_words(code),
        11 => memory_words(code),
        _ => None,
    }
}
