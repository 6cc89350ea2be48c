//! Sections of debugging information.

ghost use Rattle.std.specs.Prelude.{◌≡◌, ◌≤◌, List, ℕ, IfErr, IfOk, IfSome, option_map};
ghost use Rattle.dwarf_constants.specs.Section.{dwo_section_name, section_name};
ghost use Rattle.dwarf_constants.specs.declared.common.SectionId.{SectionId};
ghost use Rattle.dwarf_endianity.specs.Answers.{Gives};
ghost use Rattle.dwarf_readers.specs.Stretch.{relative_offset};

use dwarf_constants::{ReaderOffsetId, Result, SectionId};
use dwarf_readers::{Reader, ReaderOffset};

/// A section of debugging information over a reader of its bytes.
pub trait Section<R: Reader>: From<R> {
    ghost use Rattle.dwarf_read_core.specs.Sections.{range_in};

    /// Which section it is.
    ghost which: { SectionId };

    /// The reader of the section's bytes.
    ghost section: { Self → R };

    /// Which section it is.
    fn id() -> SectionId
        ensures { result ≡ which };

    /// The reader of the section's bytes.
    fn reader(&self) -> &R
        ensures { result.now ≡ section self.now };

    /// The section of a reader.
    ghost of: { (r : R) (s : Self) → Self.from_gives r s → section s ≡ r };

    /// The section's name in an ELF file.
    final fn section_name() -> &'static str
    where
        Self: Sized,
        ensures { result.now ≡ section_name which }
    {
        Self::id().name()
    }

    /// The section's name in a `.dwo` file, if such a file can have it.
    final fn dwo_section_name() -> Option<&'static str>
    where
        Self: Sized,
        ensures { option_map (λ s. s.now) result ≡ dwo_section_name which }
    {
        Self::id().dwo_name()
    }

    /// The section over what `f` loads.
    final fn load<F: FnOnce(SectionId) -> std::result::Result<R, E>, E>(
        f: F,
    ) -> std::result::Result<Self, E>
    where
        Self: Sized,
        requires { F.pre f which }
        ensures loaded { IfOk result (λ s. F.post f which (Ok (section s))) }
        ensures refused { IfErr result (λ e. F.post f which (Err e)) }
    {
        match f(Self::id()) {
            Ok(reader) => Ok(Self::from(reader)),
            Err(e) => Err(e),
        }
    }

    /// The part of this section that belongs to a unit of a `.dwp` file.
    final fn dwp_range(&self, offset: u32, size: u32) -> Result<Self>
    where
        Self: Sized,
        ensures { Gives (λ s. R.stretch (section s)) result
            (range_in offset size (R.stretch (section self.now))) }
    {
        let mut reader = *self.reader();
        reader.skip(R::Offset::from_u32(offset))?;
        reader.truncate(R::Offset::from_u32(size))?;
        Ok(Self::from(reader))
    }

    /// The offset in this section that an error names, if it is in it.
    final fn lookup_offset_id(&self, id: ReaderOffsetId) -> Option<(SectionId, R::Offset)>
    where
        Self: Sized,
        ensures which { IfSome result (λ found. found.0 ≡ which) }
        ensures offset { option_map (λ found. R.Offset.value found.1) result
            ≡ relative_offset (R.stretch (section self.now)) id.0 }
    {
        match self.reader().lookup_offset_id(id) {
            Some(offset) => Some((Self::id(), offset)),
            None => None,
        }
    }
}
