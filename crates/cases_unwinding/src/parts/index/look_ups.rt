//! Look-ups of addresses in steps of one size.

ghost use Rattle.std.specs.Prelude.{◌≡◌, ◌≤◌, ◌^◌, ℕ, suc, length};
ghost use Rattle.dwarf_frame_rows.specs.FrameSection.{FrameSection};
ghost use Rattle.framehop_index.specs.CfiIndexView.{IsIndexOf};
ghost use Rattle.framehop_index.specs.EntryFor.{indexed_fdes};
ghost use Rattle.cases_unwinding.specs.LookUps.{found_among};

use framehop_index::DwarfCfiIndex;

/// What look-ups came to.
#[derive(Debug, Clone, Copy, PartialEq, Eq)]
pub struct Tally {
    /// How many of the addresses have an FDE.
    pub found: u32,
    /// How many starts of the index were read by the look-up that read most.
    pub most_starts_read: u32,
}

/// Looks up `count` addresses: from 0 on, `apart` bytes from one to the next, modulo 2^32.
pub fn look_up_each(index: &DwarfCfiIndex, count: u32, apart: u32) -> Tally
    ensures found { (base_svma : ℕ) (section : FrameSection) → IsIndexOf index.now base_svma section
        → result.found ≡ found_among count apart base_svma section }
    ensures few { (base_svma : ℕ) (section : FrameSection) → IsIndexOf index.now base_svma section
        → (k : ℕ) → length (indexed_fdes base_svma section) ≤ 2 ^ k → result.most_starts_read ≤ suc k }
    ensures counted { (base_svma : ℕ) (section : FrameSection)
        → IsIndexOf index.now base_svma section
        → 1 ≤ count → (k : ℕ) → 2 ^ k ≤ suc (length (indexed_fdes base_svma section))
        → k ≤ result.most_starts_read }
{
    let mut tally = Tally {
        found: 0,
        most_starts_read: 0,
    };
    for i in 0..count {
        let found = index.look_up(i.wrapping_mul(apart));
        if found.fde_offset.is_some() {
            tally.found += 1;
        }
        tally.most_starts_read = tally.most_starts_read.max(found.starts_read);
    }
    tally
}
