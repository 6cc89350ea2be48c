//! Numbers, texts and parts of readers of one kind. `cases_dwarf` asks readers of every kind.

mod equality;
mod steps;

use dwarf_constants::{DwarfFileType, Encoding, Error, Format, ReaderOffsetId};
use dwarf_readers::leb128::{Leb128, sleb128_size, uleb128_size};
use dwarf_readers::{
    BigEndian, DebugStrOffsetsBase, EndianSlice, Endianity, LittleEndian, NativeEndian, Reader,
    ReaderOffset, TwoPieces,
};
use std::borrow::{CowSlice, CowStr};

#[test]
fn parts_orders_and_offsets(rt: HostRuntime) {
    let bytes = [1, 2, 3, 4, 5];
    let whole = EndianSlice::new_at(&bytes, LittleEndian, 100);
    let (part, rest) = whole.split_at(2);
    assert!(rt; part == EndianSlice::new(&[1, 2], LittleEndian));
    assert!(rt; rest.offset_id() == ReaderOffsetId(102));
    assert!(rt; rest.lookup_offset_id(ReaderOffsetId(105)) == Some(3));
    let text = EndianSlice::new(&[0x61, 0xff], LittleEndian);
    assert!(rt; text.to_string().err() == Some(Error::BadUtf8));
    let mut out = [0; 2];
    BigEndian.write_u16(&mut out, 0x1234);
    assert!(rt; out == [0x12, 0x34]);
    assert!(rt; NativeEndian::default().is_little_endian());
    assert!(rt; NativeEndian.is_little_endian());
    assert!(rt; u32::from_u64(1 << 32) == Err(Error::UnsupportedOffset));
    assert!(rt; u32::from_i16(-1) == 0xffff_ffff);
}

static BASES: [(Format, u16, DwarfFileType, u64); 4] = [
    (Format::Dwarf32, 5, DwarfFileType::Dwo, 8),
    (Format::Dwarf64, 5, DwarfFileType::Dwo, 16),
    (Format::Dwarf64, 4, DwarfFileType::Dwo, 0),
    (Format::Dwarf32, 5, DwarfFileType::Main, 0),
];

#[test]
fn string_offsets_begin_behind_a_header_in_new_split_files(rt: HostRuntime) {
    for (format, version, file_type, base) in &BASES {
        let encoding = Encoding {
            address_size: 8,
            format: *format,
            version: *version,
        };
        let found = DebugStrOffsetsBase::<u64>::default_for_encoding_and_file(encoding, *file_type);
        assert!(rt; found == DebugStrOffsetsBase(*base));
    }
}

// Numbers of variable length as they are written: the standard's examples (DWARF 5, 7.6), and those at the edges.
static UNSIGNED: [(u64, &[u8]); 8] = [
    (0, b"\x00"),
    (2, b"\x02"),
    (127, b"\x7f"),
    (128, b"\x80\x01"),
    (129, b"\x81\x01"),
    (12_857, b"\xb9\x64"),
    (624_485, b"\xe5\x8e\x26"),
    (u64::MAX, b"\xff\xff\xff\xff\xff\xff\xff\xff\xff\x01"),
];

static SIGNED: [(i64, &[u8]); 16] = [
    (0, b"\x00"),
    (-1, b"\x7f"),
    (2, b"\x02"),
    (-2, b"\x7e"),
    (63, b"\x3f"),
    (64, b"\xc0\x00"),
    (-64, b"\x40"),
    (-65, b"\xbf\x7f"),
    (127, b"\xff\x00"),
    (-127, b"\x81\x7f"),
    (128, b"\x80\x01"),
    (-128, b"\x80\x7f"),
    (129, b"\x81\x01"),
    (-129, b"\xff\x7e"),
    (i64::MIN, b"\x80\x80\x80\x80\x80\x80\x80\x80\x80\x7f"),
    (i64::MAX, b"\xff\xff\xff\xff\xff\xff\xff\xff\xff\x00"),
];

#[test]
fn numbers_of_variable_length_are_spelled(rt: HostRuntime) {
    for (value, bytes) in &UNSIGNED {
        let spelling = Leb128::unsigned(*value);
        assert!(rt; spelling.bytes() == *bytes);
        assert!(rt; spelling.len() == bytes.len() && uleb128_size(*value) == bytes.len());
    }
    for (value, bytes) in &SIGNED {
        assert!(rt; Leb128::signed(*value).bytes() == *bytes);
        assert!(rt; sleb128_size(*value) == bytes.len());
    }
}

static TEXTS: [(&[u8], &[u8], &str); 4] = [
    (b"a", b"b", "ab"),
    // A character whose bytes lie on both sides.
    (b"\xc3", b"\xa9", "\u{e9}"),
    (b"ab", b"", "ab"),
    (b"", b"ab", "ab"),
];

// Bytes are lent if they lie on one side of the joint, and else copied.
#[test]
fn texts_across_a_joint(rt: HostRuntime) {
    for (first, second, wanted) in &TEXTS {
        let pieces = TwoPieces::new(first, second, LittleEndian);
        let is_lent = first.is_empty() || second.is_empty();
        let bytes = pieces.to_slice(rt.alloc()).expect(&rt, "memory");
        assert!(rt; bytes.as_slice() == wanted.as_bytes());
        assert!(rt; matches!(&bytes, CowSlice::Borrowed(_)) == is_lent);
        let text = pieces.to_string(rt.alloc()).expect(&rt, "memory");
        assert!(rt; text.as_str() == *wanted);
        assert!(rt; matches!(&text, CowStr::Borrowed(_)) == is_lent);
        let text = pieces.to_string_lossy(rt.alloc()).expect(&rt, "memory");
        assert!(rt; text.as_str() == *wanted);
    }
    let mut rest = TwoPieces::new(&[0xc3], &[0xa9], LittleEndian);
    rest.skip(1).expect(&rt, "a byte");
    assert!(rt; rest.to_string(rt.alloc()).err() == Some(Error::BadUtf8));
}
