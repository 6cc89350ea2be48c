//! Notes and their padding.

use elf_files::{ElfError, Note, Notes};
use std::process::Abort;

// Two notes: "GNU" with 2 bytes, and one without a name and with 1 byte.
const PADDED_TO_4: [u8; 36] = [
    0x04, 0x00, 0x00, 0x00, 0x02, 0x00, 0x00, 0x00, 0x07, 0x00, 0x00, 0x00, b'G', b'N', b'U', 0x00,
    0xaa, 0xbb, 0x00, 0x00, 0x00, 0x00, 0x00, 0x00, 0x01, 0x00, 0x00, 0x00, 0x08, 0x00, 0x00, 0x00,
    0xcc, 0x00, 0x00, 0x00,
];

// The same aligned to 8 bytes.
const PADDED_TO_8: [u8; 48] = [
    0x04, 0x00, 0x00, 0x00, 0x02, 0x00, 0x00, 0x00, 0x07, 0x00, 0x00, 0x00, b'G', b'N', b'U', 0x00,
    0xaa, 0xbb, 0x00, 0x00, 0x00, 0x00, 0x00, 0x00, 0x00, 0x00, 0x00, 0x00, 0x01, 0x00, 0x00, 0x00,
    0x08, 0x00, 0x00, 0x00, 0x00, 0x00, 0x00, 0x00, 0xcc, 0x00, 0x00, 0x00, 0x00, 0x00, 0x00, 0x00,
];

// The first of them, whose name has no end.
const UNENDED: [u8; 20] = [
    0x04, 0x00, 0x00, 0x00, 0x02, 0x00, 0x00, 0x00, 0x07, 0x00, 0x00, 0x00, b'G', b'N', b'U', b'S',
    0xaa, 0xbb, 0x00, 0x00,
];

const FIRST: Note<'static> = Note {
    name: b"GNU",
    kind: 7,
    descriptor: b"\xaa\xbb",
};

const SECOND: Note<'static> = Note {
    name: b"",
    kind: 8,
    descriptor: b"\xcc",
};

const WITHOUT_END: Note<'static> = Note {
    name: b"GNUS",
    kind: 7,
    descriptor: b"\xaa\xbb",
};

// Bytes, how many of them are read, an alignment, and the notes in them. The padding of the last note may be missing.
static LISTS: [(&[u8], usize, u64, &[Note<'static>]); 4] = [
    (&PADDED_TO_4, 36, 1, &[FIRST, SECOND]),
    (&PADDED_TO_8, 48, 8, &[FIRST, SECOND]),
    (&PADDED_TO_4, 33, 4, &[FIRST, SECOND]),
    (&UNENDED, 20, 4, &[WITHOUT_END]),
];

// The notes are these, and then there is none, or an error and none.
fn expect_notes(
    rt: &impl Abort,
    mut notes: Notes<'_>,
    expected: &[Note<'static>],
    error: Option<ElfError>,
) {
    for note in expected {
        assert!(rt; notes.next() == Ok(Some(*note)));
    }
    if let Some(error) = error {
        assert!(rt; notes.next() == Err(error));
    }
    assert!(rt; notes.next() == Ok(None));
}

#[test]
fn notes_in_bytes(rt: HostRuntime) {
    for (bytes, size, alignment, expected) in &LISTS {
        assert!(rt; *size <= bytes.len());
        expect_notes(&rt, Notes::new(&bytes[..*size], *alignment), expected, None);
    }
    let cut_off = Some(ElfError::Truncated { offset: 0x114 });
    for size in 21..33 {
        let notes = Notes::new_at(&PADDED_TO_4[..size], 4, 0x100);
        expect_notes(&rt, notes, &[FIRST], cut_off);
    }
}
