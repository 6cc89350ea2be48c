//! Caches of tables.

use dwarf_constants::{Error, Result};
use dwarf_offsets::DebugAbbrevOffset;
use dwarf_read_core::{Abbreviations, AbbreviationsCache, AbbreviationsCacheStrategy, DebugAbbrev};
use dwarf_readers::{EndianSlice, LittleEndian, Reader, ReaderOffset, RunTimeEndian};
use std::alloc::Global;
use std::process::Abort;
use std::rc::Rc;
use test_readers::{Outcome, ReaderTest, over_each_reader};

// What a table has for code 1: the tag, how many attributes, and the first attribute's value if it has one.
type Found = Option<(u16, usize, Option<i64>)>;

// What is asked of a cache.
#[derive(Clone, Copy)]
enum Turn {
    // Tables at these offsets are kept, up to the first error of the list, which has to come out.
    Populate(AbbreviationsCacheStrategy, &'static [Result<u8>], Result<()>),
    // A table that is in no section is kept for an offset.
    Set(u8, &'static [u8]),
    // What the table at an offset has.
    Get(u8, Result<Found>),
    // The same over a section without bytes, so that it was kept.
    Kept(u8, Result<Found>),
    // That it wasn't kept.
    Missing(u8),
}

use AbbreviationsCacheStrategy::{All, Duplicates};

fn offset_of<O: ReaderOffset>(offset: u8) -> DebugAbbrevOffset<O> {
    DebugAbbrevOffset(ReaderOffset::from_u8(offset))
}

// What the table at an offset of a section has for code 1.
fn found<R: Reader>(
    cache: &AbbreviationsCache,
    section: &DebugAbbrev<R>,
    offset: u8,
) -> Result<Found> {
    let table = cache.get(section, offset_of(offset))?;
    let Some(declaration) = table.get(1) else {
        return Ok(None);
    };
    let attributes = declaration.attributes();
    let value = match attributes.first() {
        Some(attribute) => attribute.implicit_const_value(),
        None => None,
    };
    Ok(Some((declaration.tag(), attributes.len(), value)))
}

fn populate<R: Reader>(
    alloc: Global,
    cache: &mut AbbreviationsCache,
    strategy: AbbreviationsCacheStrategy,
    section: &DebugAbbrev<R>,
    offsets: &[Result<u8>],
) -> Result<()> {
    let mut list = Vec::new(alloc);
    for offset in offsets {
        list.push(match offset {
            Ok(offset) => Ok(offset_of(*offset)),
            Err(error) => Err(*error),
        })?;
    }
    cache.populate(strategy, section, list.into_iter())
}

// A table of these bytes.
fn table(alloc: Global, bytes: &[u8]) -> Result<Rc<Abbreviations>> {
    let section = DebugAbbrev::from(EndianSlice::new(bytes, LittleEndian));
    let table = section.abbreviations(alloc, DebugAbbrevOffset(0))?;
    match Rc::new(alloc, table) {
        Ok(table) => Ok(table),
        Err(_) => Err(Error::OutOfMemory),
    }
}

// Whether a turn is answered as it has to be, over a section and one without bytes.
fn is_answered<R: Reader>(
    alloc: Global,
    cache: &mut AbbreviationsCache,
    (section, none): (&DebugAbbrev<R>, &DebugAbbrev<R>),
    turn: Turn,
) -> Result<bool> {
    match turn {
        Turn::Populate(strategy, offsets, wanted) => {
            Ok(populate(alloc, cache, strategy, section, offsets) == wanted)
        }
        Turn::Set(offset, bytes) => {
            cache.set(offset_of::<u32>(offset), table(alloc, bytes)?)?;
            Ok(true)
        }
        Turn::Get(offset, wanted) => Ok(found(cache, section, offset) == wanted),
        Turn::Kept(offset, wanted) => Ok(found(cache, none, offset) == wanted),
        Turn::Missing(offset) => Ok(found(cache, none, offset).is_err()),
    }
}

// Turns of a new cache.
#[derive(Drop)]
struct Turns(&'static [Turn]);

impl<H: Abort> ReaderTest<H> for Turns {
    fn run<R: Reader>(&self, rt: &H, alloc: Global, reader: R) -> Outcome {
        let mut none = reader;
        none.empty();
        let sections = (&DebugAbbrev::from(reader), &DebugAbbrev::from(none));
        let mut cache = AbbreviationsCache::new(alloc);
        for (number, turn) in self.0.iter().enumerate() {
            assert!(rt;
                is_answered(alloc, &mut cache, sections, *turn)?,
                "turn {number}"
            );
        }
        Ok(())
    }
}

// Code 1 has the tag 0x11 at 0 and 0x2e at 6, and a fault at 12.
const SECTION: [u8; 14] = [0x01, 0x11, 0, 0, 0, 0, 0x01, 0x2e, 0, 0, 0, 0, 0x01, 0];

const AT_0: Result<Found> = Ok(Some((0x11, 0, None)));

const AT_6: Result<Found> = Ok(Some((0x2e, 0, None)));

const AT_12: Result<Found> = Err(Error::AbbreviationTagZero);

static EMPTY: [Turn; 3] = [Turn::Get(0, AT_0), Turn::Get(6, AT_6), Turn::Get(12, AT_12)];

static SET: [Turn; 3] = [
    Turn::Set(6, &[0x01, 0x34, 0, 0, 0, 0]),
    Turn::Get(0, AT_0),
    Turn::Get(6, Ok(Some((0x34, 0, None)))),
];

static ALL_OFFSETS: [Turn; 10] = [
    Turn::Populate(All, &[Ok(6), Ok(12), Ok(0), Ok(6)], Ok(())),
    Turn::Get(0, AT_0),
    Turn::Get(6, AT_6),
    Turn::Get(12, AT_12),
    Turn::Kept(0, AT_0),
    Turn::Kept(6, AT_6),
    Turn::Kept(12, AT_12),
    Turn::Populate(All, &[Ok(0)], Ok(())),
    Turn::Kept(0, AT_0),
    Turn::Missing(6),
];

static OFFSETS_THAT_COME_TWICE: [Turn; 5] = [
    Turn::Populate(
        Duplicates,
        &[Ok(12), Ok(6), Ok(0), Ok(12), Ok(0), Ok(0)],
        Ok(()),
    ),
    Turn::Kept(0, AT_0),
    Turn::Missing(6),
    Turn::Kept(12, AT_12),
    Turn::Get(6, AT_6),
];

// An error of the list comes out, and what was kept stays.
static ERROR_OF_THE_LIST: [Turn; 5] = [
    Turn::Populate(All, &[Ok(6)], Ok(())),
    Turn::Populate(
        All,
        &[Ok(0), Err(Error::BadUtf8), Ok(12), Err(Error::OutOfMemory)],
        Err(Error::BadUtf8),
    ),
    Turn::Get(0, AT_0),
    Turn::Kept(0, Ok(None)),
    Turn::Kept(6, AT_6),
];

// Two units share the table at 0, and a third has an empty one at 9.
const SHARED: [u8; 10] = [0x01, 0x11, 0x01, 0x25, 0x0e, 0x13, 0x05, 0, 0, 0];

static SHARED_TABLE: [Turn; 5] = [
    Turn::Populate(Duplicates, &[Ok(0), Ok(0), Ok(9)], Ok(())),
    Turn::Get(0, Ok(Some((0x11, 2, None)))),
    Turn::Get(9, Ok(None)),
    Turn::Set(9, &[0x01, 0x11, 0x00, 0x25, 0x21, 0x7f, 0, 0]),
    Turn::Get(9, Ok(Some((0x11, 1, Some(-1))))),
];

#[test]
fn caches(rt: HostRuntime) -> Outcome {
    let lists: [&[Turn]; 5] = [
        &EMPTY,
        &SET,
        &ALL_OFFSETS,
        &OFFSETS_THAT_COME_TWICE,
        &ERROR_OF_THE_LIST,
    ];
    for turns in lists {
        over_each_reader(
            &rt,
            rt.alloc(),
            &Turns(turns),
            &SECTION,
            RunTimeEndian::Little,
        )?;
    }
    let shared = Turns(&SHARED_TABLE);
    over_each_reader(&rt, rt.alloc(), &shared, &SHARED, RunTimeEndian::Little)
}
