//! Look-ups of an index, compared with a pass over the entries that a section was made of.
use dwarf_frame_entries::BaseAddresses;
use dwarf_read_core::Error;
use framehop::{DwarfCfiIndex, DwarfCfiIndexError};
use std::alloc::{AllocError, Global};

const BASE: u64 = 0x40_0000;

/// A CIE without instructions.
const CIE: [u8; 20] = [
    0x10, 0, 0, 0, 0, 0, 0, 0, 1, 0, 1, 0x78, 0x10, 0, 0, 0, 0, 0, 0, 0,
];

/// A section of this CIE, an entry with these bytes, if there are any, and an FDE of sixteen bytes of code for each of the starts, in their
/// order. An FDE has 24 bytes.
fn section_of(alloc: Global, entry: &[u8], starts: &[u64]) -> Result<Vec<u8>, AllocError> {
    let mut bytes = CIE.to_vec(alloc)?;
    bytes.extend_from_slice(entry)?;
    for start in starts {
        let id = u32::try_from(bytes.len()).unwrap_or(0).wrapping_add(4);
        bytes.extend_from_slice(&20u32.to_le_bytes())?;
        bytes.extend_from_slice(&id.to_le_bytes())?;
        bytes.extend_from_slice(&start.to_le_bytes())?;
        bytes.extend_from_slice(&16u64.to_le_bytes())?;
    }
    Ok(bytes)
}

/// The index of such a section, whose addresses are relative to the base.
fn index_of(
    alloc: Global,
    entry: &[u8],
    starts: &[u64],
    base: u64,
) -> Result<DwarfCfiIndex, DwarfCfiIndexError> {
    let bytes = section_of(alloc, entry, starts)?;
    DwarfCfiIndex::try_new_eh_frame(alloc, &bytes, &BaseAddresses::default(), base)
}

/// Starts in no order, of which about half stand twice.
fn scrambled(alloc: Global, count: u64) -> Result<Vec<u64>, AllocError> {
    let mut starts = Vec::new(alloc);
    for i in 0..count {
        let place = i.wrapping_mul(7919) % (count / 2 + 1);
        starts.push(BASE.wrapping_add(place.wrapping_mul(16)))?;
    }
    Ok(starts)
}

/// The offset of the FDE for an address: of those that start at or below it, the first with the greatest start.
fn plain_pass(starts: &[u64], address: u64) -> Option<u32> {
    let mut nearest = None;
    let mut greatest = 0;
    let mut offset = 20u32;
    for start in starts {
        if *start <= address && (nearest.is_none() || *start > greatest) {
            nearest = Some(offset);
            greatest = *start;
        }
        offset = offset.wrapping_add(24);
    }
    nearest
}

/// How many look-ups differ from the plain pass, at and beside each start.
fn differing(index: &DwarfCfiIndex, starts: &[u64]) -> u64 {
    let mut differing: u64 = 0;
    for start in starts {
        let first = u32::try_from(start.wrapping_sub(BASE))
            .unwrap_or(0)
            .saturating_sub(1);
        for relative in first..first.saturating_add(3) {
            let found = index.fde_offset_for_relative_address(relative);
            if found != plain_pass(starts, BASE.wrapping_add(u64::from(relative))) {
                differing = differing.wrapping_add(1);
            }
        }
    }
    differing
}

/// The most starts that a look-up reads among this number of them, at an address below them all and at each.
fn most_reads(index: &DwarfCfiIndex, count: u32) -> u32 {
    let mut most = 0;
    for place in 0..count {
        most = index.look_up(place.wrapping_mul(16)).starts_read.max(most);
    }
    most
}

/// Numbers of starts, and the most that a look-up reads of them: the logarithm of the number by 2, rounded up, and one more.
static READS: [(u32, u32); 7] = [
    (1, 1),
    (2, 2),
    (3, 3),
    (4, 3),
    (5, 4),
    (1_000, 11),
    (4_096, 13),
];

#[test]
fn look_ups_are_those_of_a_plain_pass_and_read_few_starts(rt: HostRuntime) {
    for &(count, most) in &READS {
        let starts = scrambled(rt.alloc(), u64::from(count)).expect(&rt, "memory");
        let index = index_of(rt.alloc(), &[], &starts, BASE).expect(&rt, "an index");
        assert!(rt; differing(&index, &starts) == 0, "of {count} starts");
        let index = index_of(rt.alloc(), &[], &starts, BASE - 16).expect(&rt, "an index");
        assert!(rt; most_reads(&index, count) == most, "of {count} starts");
    }
}

/// The entry after a section's CIE, with its length, and the starts of its FDEs; how many FDEs the index leaves out, or its error; and
/// relative addresses with the offsets that are found for them.
type Case = (
    &'static [u8],
    &'static [u64],
    Result<usize, DwarfCfiIndexError>,
    &'static [(u32, Option<u32>)],
);

static CASES: [Case; 8] = [
    // the first of equal starts is found
    (
        &[],
        &[BASE + 32, BASE + 16, BASE + 16],
        Ok(0),
        &[(15, None), (16, Some(44)), (32, Some(20))],
    ),
    // starts below the base, or 2^32 bytes or more above it
    (
        &[],
        &[0, 1, BASE - 1, BASE, BASE + (1 << 32), BASE + (1 << 32) - 1],
        Ok(4),
        &[
            (0, Some(20 + 3 * 24)),
            (u32::MAX - 1, Some(20 + 3 * 24)),
            (u32::MAX, Some(20 + 5 * 24)),
        ],
    ),
    // FDEs that can't be read: without a range, with itself as CIE, and with a CIE at an offset that has no entry
    (
        &[12, 0, 0, 0, 0x18, 0, 0, 0, 0, 0, 0x40, 0, 0, 0, 0, 0],
        &[BASE],
        Ok(1),
        &[(0, Some(36))],
    ),
    (
        &[
            20, 0, 0, 0, 4, 0, 0, 0, 0, 0, 0x40, 0, 0, 0, 0, 0, 16, 0, 0, 0, 0, 0, 0, 0,
        ],
        &[BASE],
        Ok(1),
        &[(0, Some(44))],
    ),
    (
        &[
            20, 0, 0, 0, 0x14, 0, 0, 0, 0, 0, 0x40, 0, 0, 0, 0, 0, 16, 0, 0, 0, 0, 0, 0, 0,
        ],
        &[BASE],
        Ok(1),
        &[(0, Some(44))],
    ),
    // a CIE of a version that isn't known, one of an augmentation that isn't, and an FDE whose CIE would be before the section
    (
        &[9, 0, 0, 0, 0, 0, 0, 0, 2, 0, 1, 0x78, 0x10],
        &[BASE],
        Err(DwarfCfiIndexError::Gimli(Error::UnknownVersion(2))),
        &[],
    ),
    (
        &[
            13, 0, 0, 0, 0, 0, 0, 0, 1, 0x7a, 0x58, 0, 1, 0x78, 0x10, 1, 0,
        ],
        &[BASE],
        Err(DwarfCfiIndexError::Gimli(Error::UnknownAugmentation)),
        &[],
    ),
    (
        &[4, 0, 0, 0, 0x19, 0, 0, 0],
        &[BASE],
        Err(DwarfCfiIndexError::Gimli(Error::OffsetOutOfBounds)),
        &[],
    ),
];

static NAMES: [(DwarfCfiIndexError, &str); 3] = [
    (
        DwarfCfiIndexError::Gimli(Error::NoUnwindInfoForAddress),
        "Gimli",
    ),
    (
        DwarfCfiIndexError::CouldNotSubtractBaseAddress,
        "CouldNotSubtractBaseAddress",
    ),
    (DwarfCfiIndexError::OutOfMemory, "OutOfMemory"),
];

/// FDEs that can't be read or are out of range are left out, and a fault of the list is returned. An error is printed by its name.
#[test]
fn entries_are_left_out_or_end_the_list(rt: HostRuntime) {
    for &(entry, starts, wanted, found) in &CASES {
        match index_of(rt.alloc(), entry, starts, BASE) {
            Ok(index) => {
                assert!(rt; wanted == Ok(index.left_out()));
                for &(relative, offset) in found {
                    let is = index.fde_offset_for_relative_address(relative);
                    assert!(rt; is == offset, "{relative}");
                }
            }
            Err(error) => assert!(rt; wanted == Err(error), "{error:?}"),
        }
    }
    for &(error, name) in &NAMES {
        assert!(rt; error.to_string(rt.alloc()).expect(&rt, "memory").as_str() == name);
    }
}
