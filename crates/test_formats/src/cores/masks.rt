//! A core of aarch64 that is written by hand, with masks of pointer authentication for the first of two threads.

use core_files::{CoreFile, PointerAuthenticationMasks};
use std::alloc::{AllocError, Global};

// The header, and the program header of a segment of notes with 860 bytes.
const HEADERS: [u8; 120] = [
    0x7f, b'E', b'L', b'F', 2, 1, 1, 0, 0, 0, 0, 0, 0, 0, 0, 0, 4, 0, 0xb7, 0, 1, 0, 0, 0, 0, 0, 0,
    0, 0, 0, 0, 0, 64, 0, 0, 0, 0, 0, 0, 0, 0, 0, 0, 0, 0, 0, 0, 0, 0, 0, 0, 0, 64, 0, 56, 0, 1, 0,
    0, 0, 0, 0, 0, 0, 4, 0, 0, 0, 4, 0, 0, 0, 120, 0, 0, 0, 0, 0, 0, 0, 0, 0, 0, 0, 0, 0, 0, 0, 0,
    0, 0, 0, 0, 0, 0, 0, 0x5c, 3, 0, 0, 0, 0, 0, 0, 0, 0, 0, 0, 0, 0, 0, 0, 4, 0, 0, 0, 0, 0, 0, 0,
];

// The NT_PRSTATUS of a thread.
fn push_prstatus(core: &mut Vec<u8>, id: u8) -> Result<(), AllocError> {
    core.extend_from_slice(&[
        5, 0, 0, 0, 0x88, 1, 0, 0, 1, 0, 0, 0, b'C', b'O', b'R', b'E', 0, 0, 0, 0,
    ])?;
    let mut descriptor = [0; 392];
    descriptor[32] = id;
    core.extend_from_slice(&descriptor)
}

// An NT_ARM_PAC_MASK.
const PAC_MASK: [u8; 36] = [
    6, 0, 0, 0, 16, 0, 0, 0, 6, 4, 0, 0, b'L', b'I', b'N', b'U', b'X', 0, 0, 0, 0, 0, 0, 0, 0, 0,
    0x7f, 0, 0, 0, 0, 0, 0, 0, 0xff, 0,
];

const MASKS: PointerAuthenticationMasks = PointerAuthenticationMasks {
    data_mask: 0x007f_0000_0000_0000,
    instruction_mask: 0x00ff_0000_0000_0000,
};

// A core of two threads.
fn core_of_two(alloc: Global) -> Result<Vec<u8>, AllocError> {
    let mut bytes = Vec::new(alloc);
    bytes.extend_from_slice(&HEADERS)?;
    push_prstatus(&mut bytes, 7)?;
    bytes.extend_from_slice(&PAC_MASK)?;
    push_prstatus(&mut bytes, 8)?;
    Ok(bytes)
}

#[test]
fn of_the_first_thread(rt: HostRuntime) {
    let bytes = core_of_two(rt.alloc()).expect(&rt, "memory");
    let core = CoreFile::parse(rt.alloc(), &bytes).expect(&rt, "a core");
    let [first, second] = core.threads() else {
        panic!(rt; "two threads");
    };
    assert!(rt; first.id == 7 && first.pointer_authentication_masks == Some(MASKS));
    assert!(rt; second.id == 8 && second.pointer_authentication_masks.is_none());
    assert!(rt; core.mapped_files().is_empty() && core.segments().is_empty());
    assert!(rt; core.auxiliary(6).is_none());
}
