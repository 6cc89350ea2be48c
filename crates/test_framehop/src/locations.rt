//! Functions and files at addresses.

use crate::object::object;
use backtrace_files::{LoadedFile, location_of};
use backtrace_text::{CodeLocation, NamedOffset};
use core_files::MappedFile;
use std::process::Abort;
use std::test::Fail;

/// An offset in what has a name.
type Place = (&'static [u8], u64);

/// An address, the one by which it is looked up, and the places in a function and in a file.
type Location = (u64, u64, Option<Place>, Option<Place>);

macro_rules! run {
    ($offset:expr) => {
        Some((b"run", $offset))
    };
}

macro_rules! file {
    ($offset:expr) => {
        Some((b"/a", $offset))
    };
}

/// The first bytes of the object are mapped at 0x70000000, and those from 0x300 on behind them.
static LOCATIONS: [Location; 9] = [
    (0x7000_0308, 0x7000_0308, run!(0), file!(0x308)),
    (0x7000_0310, 0x7000_030f, run!(8), file!(0x310)),
    // a call that is the last instruction of its function
    (0x7000_0328, 0x7000_0327, run!(0x20), file!(0x328)),
    (0x7000_0328, 0x7000_0328, Some((b"go", 0)), file!(0x328)),
    // without a function
    (0x7000_0338, 0x7000_0338, None, file!(0x338)),
    (0x7000_0010, 0x7000_0010, None, file!(0x10)),
    (0x7000_0348, 0x7000_0348, None, None),
    (0x7000_0348, 0x7000_0347, None, file!(0x348)),
    (0x6fff_ffff, 0x6fff_ffff, None, None),
];

/// The bytes of the second mapping aren't known.
static WITHOUT_BYTES: [Location; 1] = [(0x7000_0310, 0x7000_030f, None, file!(0x310))];

/// The code is mapped at 0x300, below its stated address. What is mapped before its segment has no function.
static BELOW: [Location; 2] = [
    (0x310, 0x30f, run!(8), file!(0x310)),
    (0x307, 0x307, None, file!(0x307)),
];

// A mapping of the file.
fn mapped<'a>(start: u64, end: u64, offset: u64, bytes: Option<&'a [u8]>) -> LoadedFile<'a> {
    let mapping = MappedFile {
        start,
        end,
        offset,
        name: b"/a",
    };
    LoadedFile {
        mapping,
        bytes,
        debug: None,
    }
}

// Whether a place has this name and offset, or there is none.
fn is_at(place: Option<NamedOffset<'_>>, expected: Option<Place>) -> bool {
    match (place, expected) {
        (Some(place), Some((name, offset))) => place.name == name && place.offset == offset,
        (None, None) => true,
        _ => false,
    }
}

// Whether an address is code, in this function and this file.
fn is_located(files: &[LoadedFile<'_>], (address, lookup, function, file): Location) -> bool {
    match location_of(files, address, lookup) {
        CodeLocation::Code {
            address: found,
            function: in_function,
            file: in_file,
        } => found == address && is_at(in_function, function) && is_at(in_file, file),
        CodeLocation::SignalTrampoline => false,
    }
}

// The addresses have these locations.
fn expect_locations(rt: &impl Abort, files: &[LoadedFile<'_>], locations: &[Location]) {
    for location in locations {
        assert!(rt; is_located(files, *location), "{location:?}");
    }
}

/// The debug file has another name for `run`.
static BY_DEBUG_FILE: [Location; 1] = [(0x7000_0310, 0x7000_030f, Some((b"ran", 8)), file!(0x310))];

// Where the names of the object have the second byte of `run`.
const NAME: usize = 0x14a;

#[test]
fn functions_by_a_debug_file(rt: HostRuntime) -> Result<(), Fail> {
    let object = object(rt.alloc())?;
    let mut debug = object.to_vec(rt.alloc())?;
    if let Some(byte) = debug.get_mut(NAME) {
        *byte = b'a';
    }
    let file = LoadedFile {
        debug: Some(debug.as_slice()),
        ..mapped(0x7000_0300, 0x7000_0348, 0x300, Some(object.as_slice()))
    };
    expect_locations(&rt, &[file], &BY_DEBUG_FILE);
    Ok(())
}

#[test]
fn functions_and_files(rt: HostRuntime) -> Result<(), Fail> {
    let object = object(rt.alloc())?;
    let bytes = Some(object.as_slice());
    let first = mapped(0x7000_0000, 0x7000_0300, 0, bytes);
    let second = mapped(0x7000_0300, 0x7000_0348, 0x300, bytes);
    expect_locations(&rt, &[first, second], &LOCATIONS);
    let unknown = mapped(0x7000_0300, 0x7000_0348, 0x300, None);
    expect_locations(&rt, &[first, unknown], &WITHOUT_BYTES);
    let below = mapped(0x300, 0x348, 0x300, bytes);
    expect_locations(&rt, &[below], &BELOW);
    Ok(())
}
