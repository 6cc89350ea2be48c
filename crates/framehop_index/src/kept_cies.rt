//! The CIEs that an index keeps of its section.

ghost use Rattle.std.specs.Prelude.{◌≡◌, [], OnOk, option_copied};
ghost use Rattle.dwarf_frame_rows.specs.FrameSection.{FrameSection};
ghost use Rattle.dwarf_frame_entries.specs.EntryViews.{cie_view};
ghost use Rattle.framehop_index.specs.KeptCies.{AreFirstKept, CountsKept, KeepsMore, kept_at};

use dwarf_frame_entries::{CommonInformationEntry, KeptCie, UnwindSection};
use dwarf_read_core::Reader;
use std::alloc::{AllocError, Global};

// How many CIEs are kept at most. Few sections have ten.
const MOST: usize = 255;

/// The first CIEs of a section, at most 255.
#[derive(Drop)]
pub(crate) struct KeptCies {
    cies: Vec<KeptCie>,
}

impl KeptCies {
    /// Before any CIE.
    pub(crate) fn new(alloc: Global) -> Self
        ensures { (section : FrameSection) → AreFirstKept section [] result }
    {
        KeptCies {
            cies: Vec::new(alloc),
        }
    }

    /// Keeps a CIE of a section, if it is among the first. An FDE that names another one has its CIE read. Fails without memory for it.
    pub(crate) fn keep<R: Reader, Section: UnwindSection<R>>(
        &mut self,
        section: &Section,
        cie: &CommonInformationEntry<R>,
    ) -> Result<(), AllocError>
        ensures { OnOk result (KeepsMore (Section.frame section.now)
            (cie_view R.stretch R.Offset.value cie.now) self.old self.new) }
    {
        if self.cies.len() >= MOST {
            return Ok(());
        }
        let Some(kept) = KeptCie::of(section, cie) else {
            return Ok(());
        };
        self.cies.push(kept)?;
        Ok(())
    }

    /// What is kept of the CIE at an offset, if it is.
    #[inline(always)]
    pub(crate) fn at(&self, offset: u64) -> Option<&KeptCie>
        ensures { option_copied result ≡ kept_at offset self.now.cies.items }
    {
        self.cies.iter().find(|kept| kept.offset() == offset)
    }

    /// How many are kept.
    pub(crate) fn count(&self) -> usize
        ensures { CountsKept self.now result }
    {
        self.cies.len()
    }
}
