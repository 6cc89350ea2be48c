//! What a listing has of common information entries.

ghost use Rattle.std.specs.Prelude.{◌≡◌, ◌++◌, OnOk, []};
ghost use Rattle.dwarf_endianity.specs.Answers.{Gives};
ghost use Rattle.dwarf_frame_entries.specs.EntryViews.{cie_view};
ghost use Rattle.dwarf_frame_instructions.specs.ProgramRows.{program_of};
ghost use Rattle.frame_table.specs.Entries.{cie_factors, cie_prefix, cie_register, whole_cie_part};
ghost use Rattle.frame_table.specs.EntryWrites.{ListsCie, WritesPart, own_program, setting_by};
ghost use Rattle.frame_table.specs.EntryPrefixViews.{cie_line_of, cie_prefix_view, prefix_view};
ghost use Rattle.line_parts.specs.Parts.{Pushes};

use crate::entry_prefix::{CiePrefix, augmentation_of, entry_prefix_at};
use crate::listed::Listed;
use crate::parts::{PartEnd, end_part, push_fault, push_prefix, table_of};
use dwarf_frame_entries::{
    BaseAddresses, CallFrameInstructionIter, CommonInformationEntry, UnwindContext,
    UnwindContextStorage, UnwindSection,
};
use dwarf_frame_instructions::FrameProgram;
use dwarf_frame_rows::{_UnwindSectionPrivate, PointerEncodingParameters};
use dwarf_readers::{Reader, ReaderOffset};
use line_parts::{push_bytes, push_decimal, push_signed};
use std::alloc::{AllocError, Global};
use std::collections::BTreeSet;

// No instructions.
fn no_instructions<'a, R: Reader, Section: UnwindSection<R>>(
    section: &'a Section,
    bases: &'a BaseAddresses,
) -> CallFrameInstructionIter<'a, R>
where
    R: 'a,
    ensures { result ≡ [] }
{
    let mut none = *section.section();
    none.empty();
    let parameters = PointerEncodingParameters {
        bases: &bases.eh_frame,
        func_base: None,
        address_size: section.address_size(),
        section: section.section(),
    };
    CallFrameInstructionIter::new(none, None, parameters, section.vendor())
}

// A program of a CIE's instructions alone, from 0 on.
fn cie_program<'a, R: Reader, Section: UnwindSection<R>>(
    section: &'a Section,
    bases: &'a BaseAddresses,
    cie: &CommonInformationEntry<R>,
) -> FrameProgram<'a, R>
where
    R: 'a,
    ensures { program_of result ≡ own_program Section.frame Section.extensions
        section.now bases.now R.stretch R.Offset.value cie.now }
{
    FrameProgram {
        factors: cie.factors(),
        initial_address: 0,
        end_address: 0,
        initial_instructions: cie.instructions(section, bases),
        instructions: no_instructions(section, bases),
    }
}

// Appends the factors of a CIE.
fn push_factors<R: Reader>(
    alloc: Global,
    cie: &CommonInformationEntry<R>,
    text: &mut Vec<u8>,
) -> Result<(), AllocError>
    ensures { OnOk result (text.new.items
        ≡ text.old.items ++ cie_factors (cie_view R.stretch R.Offset.value cie.now)) }
{
    push_bytes(text, b"\" cf=")?;
    push_decimal(alloc, text, cie.code_alignment_factor())?;
    push_bytes(text, b" df=")?;
    push_signed(alloc, text, cie.data_alignment_factor())
}

// Appends the column of the return address.
fn push_register<R: Reader>(
    alloc: Global,
    cie: &CommonInformationEntry<R>,
    text: &mut Vec<u8>,
) -> Result<(), AllocError>
    ensures { OnOk result (text.new.items
        ≡ text.old.items ++ cie_register (cie_view R.stretch R.Offset.value cie.now)) }
{
    let register = cie.return_address_register();
    push_bytes(text, b" ra=")?;
    push_decimal(alloc, text, u64::from(register.0))?;
    push_bytes(text, b"\n")
}

// Appends the line of a CIE.
fn push_cie_line<R: Reader>(
    alloc: Global,
    cie: &CommonInformationEntry<R>,
    prefix: &CiePrefix<R>,
    text: &mut Vec<u8>,
) -> Result<(), AllocError>
    ensures { Pushes result text.old text.new
        (cie_line_of R.stretch R.Offset.value cie.now prefix.now) }
{
    let offset = cie.offset().into_u64();
    let length = cie.entry_len().into_u64();
    let size = cie.address_size();
    push_prefix(alloc, size, offset, length, &prefix.entry, text)?;
    push_bytes(text, b" CIE \"")?;
    push_reader(alloc, &prefix.augmentation, text)?;
    push_factors(alloc, cie, text)?;
    push_register(alloc, cie, text)
}

// Appends the bytes of a reader.
fn push_reader<R: Reader>(alloc: Global, reader: &R, text: &mut Vec<u8>) -> Result<(), AllocError>
    ensures { OnOk result (text.new.items ≡ text.old.items ++ (R.stretch reader.now).bytes) }
{
    match reader.to_slice(alloc) {
        Ok(bytes) => push_bytes(text, &bytes),
        Err(_) => Err(AllocError),
    }
}

// The prefix of a CIE, and the text of its augmentation.
fn cie_prefix<R: Reader, Section: UnwindSection<R>>(
    section: &Section,
    bases: &BaseAddresses,
    offset: R::Offset,
) -> dwarf_constants::Result<CiePrefix<R>>
    ensures { Gives (cie_prefix_view R.stretch) result
        (cie_prefix (Section.frame section.now bases.now) (R.Offset.value offset)) }
{
    let entry = entry_prefix_at(section, bases, offset)?;
    let augmentation = augmentation_of(&entry)?;
    Ok(CiePrefix {
        entry,
        augmentation,
    })
}

// Appends the text of a CIE whose prefix is read.
fn push_whole_cie<R: Reader, Section: UnwindSection<R>, S: UnwindContextStorage<R::Offset>>(
    alloc: Global,
    listed: &Listed<'_, Section>,
    context: &mut UnwindContext<R::Offset, S>,
    cie: &CommonInformationEntry<R>,
    prefix: &CiePrefix<R>,
    text: &mut Vec<u8>,
) -> Result<PartEnd, AllocError>
    ensures { let s = setting_by Section.frame Section.extensions S.limits listed.now in
        let view = cie_view R.stretch R.Offset.value cie.now in
        WritesPart (whole_cie_part s view (cie_prefix_view R.stretch prefix.now))
        text.old.items text.new.items result }
{
    let (section, bases) = (listed.section, listed.bases);
    push_cie_line(alloc, cie, prefix, text)?;
    let none = BTreeSet::new(alloc);
    let own = cie.instructions(section, bases);
    let table = table_of(alloc, listed.machine, cie, none, own)?;
    let refusal = table.push(alloc, context, cie_program(section, bases, cie), text)?;
    end_part(
        alloc,
        refusal,
        cie.offset().into_u64(),
        prefix.entry.end,
        text,
    )
}

/// Appends the text of a CIE.
pub(crate) fn push_cie<R: Reader, Section: UnwindSection<R>, S: UnwindContextStorage<R::Offset>>(
    alloc: Global,
    listed: &Listed<'_, Section>,
    context: &mut UnwindContext<R::Offset, S>,
    cie: &CommonInformationEntry<R>,
    text: &mut Vec<u8>,
) -> Result<PartEnd, AllocError>
    ensures { ListsCie Section.frame Section.extensions S.limits listed.now
        R.stretch R.Offset.value cie.now text.old text.new result }
{
    match cie_prefix(listed.section, listed.bases, cie.offset()) {
        Ok(prefix) => push_whole_cie(alloc, listed, context, cie, &prefix, text),
        Err(error) => {
            let offset = cie.offset().into_u64();
            push_fault(alloc, error, offset, offset, text)
        }
    }
}
