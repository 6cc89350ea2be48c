//! Why a process ended and what it ran, by descriptors that are written by hand as the kernel's headers lay them out.

use core_files::{
    CoreFile, ProcessInfo, SignalInfo, SignalOrigin, read_process_info, read_signal_info,
};
use std::alloc::{AllocError, Global};

// What is at 16 of an NT_SIGINFO: an address, or process 4242 of user 1000.
const FIELDS: u64 = 0x0000_03e8_0000_1092;

const SENT: SignalOrigin = SignalOrigin::Process {
    id: 4242,
    user: 1000,
};

// An NT_SIGINFO.
fn push_signal(bytes: &mut Vec<u8>, signal: u32, code: u32) -> Result<(), AllocError> {
    bytes.extend_from_slice(&signal.to_le_bytes())?;
    bytes.extend_from_slice(&[1; 4])?;
    bytes.extend_from_slice(&code.to_le_bytes())?;
    bytes.extend_from_slice(&[2; 4])?;
    bytes.extend_from_slice(&FIELDS.to_le_bytes())?;
    bytes.extend_from_slice(&[3; 104])
}

// Signals, codes, and where they came from.
static ORIGINS: [(u32, u32, SignalOrigin); 18] = [
    // SEGV_MAPERR, SEGV_ACCERR, BUS_ADRALN, FPE_INTDIV, ILL_ILLOPC, TRAP_BRKPT, and the last code of a fault
    (
        11,
        1,
        SignalOrigin::Fault {
            code: 1,
            address: FIELDS,
        },
    ),
    (
        11,
        2,
        SignalOrigin::Fault {
            code: 2,
            address: FIELDS,
        },
    ),
    (
        7,
        1,
        SignalOrigin::Fault {
            code: 1,
            address: FIELDS,
        },
    ),
    (
        8,
        1,
        SignalOrigin::Fault {
            code: 1,
            address: FIELDS,
        },
    ),
    (
        4,
        1,
        SignalOrigin::Fault {
            code: 1,
            address: FIELDS,
        },
    ),
    (
        5,
        1,
        SignalOrigin::Fault {
            code: 1,
            address: FIELDS,
        },
    ),
    (
        11,
        0x7f,
        SignalOrigin::Fault {
            code: 0x7f,
            address: FIELDS,
        },
    ),
    // SI_KERNEL, SI_USER, SI_QUEUE, SI_TKILL
    (11, 0x80, SignalOrigin::Kernel),
    (6, 0x80, SignalOrigin::Kernel),
    (11, 0, SENT),
    (10, 0xffff_ffff, SENT),
    (6, 0xffff_fffa, SENT),
    // SI_TIMER, SI_SIGIO, CLD_EXITED, SYS_SECCOMP, codes of SIGABRT and beyond SI_KERNEL
    (14, 0xffff_fffe, SignalOrigin::Other(0xffff_fffe)),
    (29, 0xffff_fffb, SignalOrigin::Other(0xffff_fffb)),
    (17, 1, SignalOrigin::Other(1)),
    (31, 1, SignalOrigin::Other(1)),
    (6, 1, SignalOrigin::Other(1)),
    (11, 0x81, SignalOrigin::Other(0x81)),
];

#[test]
fn origins(rt: HostRuntime) {
    for (signal, code, origin) in &ORIGINS {
        let mut bytes = Vec::new(rt.alloc());
        push_signal(&mut bytes, *signal, *code).expect(&rt, "memory");
        let expected = SignalInfo {
            signal: *signal,
            origin: *origin,
        };
        assert!(rt;
            read_signal_info(&bytes) == Some(expected),
            "{signal} {code:#x}"
        );
        bytes.push(0).expect(&rt, "memory");
        assert!(rt; read_signal_info(&bytes).is_none());
    }
    assert!(rt; read_signal_info(&[0; 127]).is_none());
}

// A text, and the zeros after it.
fn push_padded(bytes: &mut Vec<u8>, text: &[u8], size: usize) -> Result<(), AllocError> {
    bytes.extend_from_slice(text)?;
    for _ in text.len()..size {
        bytes.push(0)?;
    }
    Ok(())
}

// An NT_PRPSINFO of process 4242.
fn push_process(bytes: &mut Vec<u8>, name: &[u8], arguments: &[u8]) -> Result<(), AllocError> {
    bytes.extend_from_slice(&[1; 24])?;
    bytes.extend_from_slice(&FIELDS.to_le_bytes())?;
    bytes.extend_from_slice(&[2; 8])?;
    push_padded(bytes, name, 16)?;
    push_padded(bytes, arguments, 80)
}

const EIGHTY: &[u8] =
    b"/srv/shop 0123456789 0123456789 0123456789 0123456789 0123456789 0123456789 0123";

// What is written of a name and of arguments, and what is read.
static PROCESSES: [(&[u8], &[u8], &[u8], &[u8]); 6] = [
    (b"shop", b"./shop --port 80 ", b"shop", b"./shop --port 80"),
    (b"0123456789abcdef", EIGHTY, b"0123456789abcdef", EIGHTY),
    (b"", b"", b"", b""),
    (b"a b", b" ", b"a b", b""),
    (b"a\0b", b"a  \0b ", b"a", b"a "),
    (b"\xff", b"./shop", b"\xff", b"./shop"),
];

#[test]
fn processes(rt: HostRuntime) {
    for (name, arguments, name_read, arguments_read) in &PROCESSES {
        let mut bytes = Vec::new(rt.alloc());
        push_process(&mut bytes, name, arguments).expect(&rt, "memory");
        let expected = ProcessInfo {
            id: 4242,
            name: *name_read,
            arguments: *arguments_read,
        };
        assert!(rt; read_process_info(&bytes) == Some(expected));
        bytes.push(0).expect(&rt, "memory");
        assert!(rt; read_process_info(&bytes).is_none());
    }
    assert!(rt; read_process_info(&[0; 135]).is_none());
}

// The header, and the program header of a segment of notes with 1276 bytes.
const HEADERS: [u8; 120] = [
    0x7f, b'E', b'L', b'F', 2, 1, 1, 0, 0, 0, 0, 0, 0, 0, 0, 0, 4, 0, 0xb7, 0, 1, 0, 0, 0, 0, 0, 0,
    0, 0, 0, 0, 0, 64, 0, 0, 0, 0, 0, 0, 0, 0, 0, 0, 0, 0, 0, 0, 0, 0, 0, 0, 0, 64, 0, 56, 0, 1, 0,
    0, 0, 0, 0, 0, 0, 4, 0, 0, 0, 4, 0, 0, 0, 120, 0, 0, 0, 0, 0, 0, 0, 0, 0, 0, 0, 0, 0, 0, 0, 0,
    0, 0, 0, 0, 0, 0, 0, 0xfc, 4, 0, 0, 0, 0, 0, 0, 0, 0, 0, 0, 0, 0, 0, 0, 4, 0, 0, 0, 0, 0, 0, 0,
];

// What a note of the kernel's begins with.
fn push_note(core: &mut Vec<u8>, size: u32, kind: u32) -> Result<(), AllocError> {
    core.extend_from_slice(&5u32.to_le_bytes())?;
    core.extend_from_slice(&size.to_le_bytes())?;
    core.extend_from_slice(&kind.to_le_bytes())?;
    core.extend_from_slice(b"CORE\0\0\0\0")
}

// The NT_PRSTATUS of a thread with its signal.
fn push_prstatus(core: &mut Vec<u8>, id: u8, signal: u16) -> Result<(), AllocError> {
    push_note(core, 392, 1)?;
    core.extend_from_slice(&[0xee; 12])?;
    core.extend_from_slice(&signal.to_le_bytes())?;
    core.extend_from_slice(&[0xee; 18])?;
    core.extend_from_slice(&[id, 0, 0, 0])?;
    core.extend_from_slice(&[0; 356])
}

// The NT_SIGINFO of a signal that has no address.
fn push_siginfo(core: &mut Vec<u8>, signal: u32) -> Result<(), AllocError> {
    push_note(core, 128, 0x5349_4749)?;
    push_signal(core, signal, 0)
}

// Two threads with a signal each.
fn core_of_two(alloc: Global) -> Result<Vec<u8>, AllocError> {
    let mut core = Vec::new(alloc);
    core.extend_from_slice(&HEADERS)?;
    push_prstatus(&mut core, 7, 11)?;
    push_siginfo(&mut core, 11)?;
    push_note(&mut core, 136, 3)?;
    push_process(&mut core, b"shop", b"./shop ")?;
    push_prstatus(&mut core, 8, 0x1234)?;
    push_siginfo(&mut core, 6)?;
    Ok(core)
}

#[test]
fn of_the_first_thread(rt: HostRuntime) {
    let bytes = core_of_two(rt.alloc()).expect(&rt, "memory");
    let core = CoreFile::parse(rt.alloc(), &bytes).expect(&rt, "a core");
    let [first, second] = core.threads() else {
        panic!(rt; "two threads");
    };
    assert!(rt; (first.id, first.signal) == (7, 11) && (second.id, second.signal) == (8, 0x1234));
    let signal = SignalInfo {
        signal: 11,
        origin: SENT,
    };
    assert!(rt; core.signal_info() == Some(signal));
    let process = ProcessInfo {
        id: 4242,
        name: b"shop",
        arguments: b"./shop",
    };
    assert!(rt; core.process_info() == Some(process));
}
