//! The CIE that was read last, which scans and tables keep for the FDEs after it: most name the same CIE as the one before.

ghost use Rattle.std.specs.Prelude.{◌≡◌, Ok};
ghost use Rattle.dwarf_endianity.specs.Answers.{Gives};
ghost use Rattle.dwarf_frame_entries.specs.Entries.{cie_of, fde_of};
ghost use Rattle.dwarf_frame_entries.specs.EntryViews.{cie_view};
ghost use Rattle.framehop_index.specs.LastCie.{GivesCieFrom, IsLastCie};

use dwarf_frame_entries::{
    BaseAddresses, CommonInformationEntry, FrameDescriptionEntry, PartialFrameDescriptionEntry,
    UnwindOffset, UnwindSection,
};
use dwarf_read_core::{Reader, ReaderOffset};

/// The CIE of a section that was read last, and its offset there.
#[derive(Drop)]
pub struct LastCie<R: Reader> {
    offset: u64,
    cie: CommonInformationEntry<R>,
}

// An FDE with this CIE, which is the one that it names.
#[inline(always)]
fn fde_with<R: Reader, Section: UnwindSection<R>>(
    partial: &PartialFrameDescriptionEntry<'_, Section, R>,
    cie: &CommonInformationEntry<R>,
) -> dwarf_read_core::Result<FrameDescriptionEntry<R>>
    requires { cie_of R.Offset.limit Section.kind partial.now ≡ Ok (cie_view R.stretch R.Offset.value cie.now) }
    ensures { Gives (λ fde. fde) result (fde_of R.Offset.limit Section.kind partial.now) }
{
    let get_cie =
        move |_section: &Section, _bases: &BaseAddresses, _offset: Section::Offset| -> dwarf_read_core::Result<
            CommonInformationEntry<R>,
        >
            ensures { result ≡ Ok cie.entry.now }
        { Ok(cie.clone()?) };
    partial.parse(get_cie)
}

// Reads the CIE at an offset of a section and keeps it. It isn't inlined, since few FDEs need it.
#[inline(never)]
fn read_cie<R: Reader, Section: UnwindSection<R>>(
    section: &Section,
    bases: &BaseAddresses,
    offset: Section::Offset,
    last: &mut Option<LastCie<R>>,
) -> dwarf_read_core::Result<CommonInformationEntry<R>>
    requires { IsLastCie R.stretch R.Offset.value (Section.frame section.now bases.now) last.old }
    ensures cie { GivesCieFrom R.stretch R.Offset.value result (Section.frame section.now bases.now)
        (Section.Offset.number offset) }
    ensures last { IsLastCie R.stretch R.Offset.value (Section.frame section.now bases.now) last.new }
{
    let cie = section.cie_from_offset(bases, offset)?;
    *last = Some(LastCie {
        offset: UnwindOffset::into(offset).into_u64(),
        cie: cie.clone()?,
    });
    Ok(cie)
}

// An FDE of a section with its CIE, which is read only if it isn't the one that was read last.
#[inline(always)]
pub(crate) fn fde_by_last<R: Reader, Section: UnwindSection<R>>(
    section: &Section,
    bases: &BaseAddresses,
    partial: &PartialFrameDescriptionEntry<'_, Section, R>,
    last: &mut Option<LastCie<R>>,
) -> dwarf_read_core::Result<FrameDescriptionEntry<R>>
    requires within { partial.now.within ≡ (Section.frame section.now bases.now).within }
    requires last { IsLastCie R.stretch R.Offset.value (Section.frame section.now bases.now) last.old }
    ensures fde { Gives (λ fde. fde) result (fde_of R.Offset.limit Section.kind partial.now) }
    ensures last { IsLastCie R.stretch R.Offset.value (Section.frame section.now bases.now) last.new }
{
    let offset = partial.cie_offset();
    if let Some(last) = last
        && last.offset == UnwindOffset::into(offset).into_u64()
    {
        return fde_with(partial, &last.cie);
    }
    let cie = read_cie(section, bases, offset, last)?;
    fde_with(partial, &cie)
}
