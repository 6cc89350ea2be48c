//! Which slices are equal, and that these hash alike.

ghost use Rattle.std.specs.Prelude.{IsTrue};
ghost use Rattle.dwarf_readers.specs.EndianSlice.{stretch_of};
ghost use Rattle.dwarf_readers.specs.Stretch.{AreAlike};

use dwarf_readers::equality::equal_slices_are_alike;
use dwarf_readers::{EndianSlice, Endianity, RunTimeEndian};
use std::hash::{DefaultHasher, Hash, Hasher};

type Slice<'a> = EndianSlice<'a, RunTimeEndian>;

// Whether both slices have the same bytes and the same byte order, by their equality.
fn are_alike(one: &Slice<'_>, other: &Slice<'_>) -> bool
    ensures alike { IsTrue result → AreAlike
        (stretch_of ⟦<RunTimeEndian as Endianity>⟧.is_big one.now)
        (stretch_of ⟦<RunTimeEndian as Endianity>⟧.is_big other.now) }
    ensures equal { AreAlike
        (stretch_of ⟦<RunTimeEndian as Endianity>⟧.is_big one.now)
        (stretch_of ⟦<RunTimeEndian as Endianity>⟧.is_big other.now) → IsTrue result }
{
    equal_slices_are_alike::<RunTimeEndian>();
    one == other
}

fn hash_of(slice: &Slice<'_>) -> u64 {
    let mut hasher = DefaultHasher::new();
    slice.hash(&mut hasher);
    hasher.finish()
}

#[test]
fn slices_are_equal_by_bytes_and_order(rt: HostRuntime) {
    let (little, big) = (RunTimeEndian::Little, RunTimeEndian::Big);
    let bytes = [1, 2, 1, 2, 1, 3];
    let slice = EndianSlice::new_at(&bytes[..2], little, 100);
    let others = [
        (EndianSlice::new_at(&bytes[..2], little, 100), true),
        (EndianSlice::new_at(&bytes[2..4], little, 102), true),
        (EndianSlice::new_at(&bytes[2..4], big, 102), false),
        (EndianSlice::new_at(&bytes[4..], little, 104), false),
        (EndianSlice::new_at(&bytes[..1], little, 100), false),
        (EndianSlice::new_at(&bytes[..3], little, 100), false),
        (EndianSlice::new_at(&[], little, 100), false),
    ];
    for (other, equal) in others {
        assert!(rt; are_alike(&slice, &other) == equal);
        assert!(rt; !equal || hash_of(&slice) == hash_of(&other));
    }
}
