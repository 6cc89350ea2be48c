//! Sections that are listed, of documents and of files.

ghost use Rattle.std.specs.Prelude.{◌≡◌, false, IsTrue};
ghost use Rattle.dwarf_readers.specs.InitialLength.{is_size};
ghost use Rattle.frame_table.specs.DocumentViews.{stated_view};
ghost use Rattle.frame_table.specs.EntryWrites.{WritesListing};
ghost use Rattle.frame_table.specs.FileText.{located_of_file, machine_of};
ghost use Rattle.frame_table.specs.Located.{bases_from, located_in, vendor_of};
ghost use Rattle.frame_table.specs.LocatedViews.{listing_by, located_view};
ghost use Rattle.frame_table_files.specs.SectionViews.{section_seen};
ghost use Rattle.json_program.specs.Errors.{ReportsFailures};

use crate::document::Stated;
use crate::listed::Listed;
use crate::listing::write_listing;
use crate::names::Machine;
use dwarf_constants::Vendor;
use dwarf_frame_entries::{BaseAddresses, DebugFrame, EhFrame, UnwindContext};
use dwarf_frame_rows::{SectionBaseAddresses, StoreOnHeap};
use dwarf_readers::{EndianSlice, LittleEndian};
use frame_table_files::{FileSection, SectionName};
use json_program::{RunError, Sink};
use std::alloc::Global;

/// A section that is listed.
#[derive(Clone, Copy)]
pub(crate) struct Located<'a> {
    pub(crate) name: SectionName,
    /// Its machine, if that is known.
    pub(crate) machine: Option<Machine>,
    /// What its pointers are relative to.
    pub(crate) bases: BaseAddresses,
    /// The size of an address in bytes, if no CIE states it.
    pub(crate) address_size: u8,
    pub(crate) bytes: &'a [u8],
}

// Pointers are relative to the address at which the section starts, and to nothing else.
fn bases_from(start: u64) -> BaseAddresses
    ensures { result ≡ bases_from start }
{
    let none = SectionBaseAddresses {
        section: None,
        text: None,
        data_base: None,
    };
    BaseAddresses {
        eh_frame_hdr: none,
        eh_frame: none,
    }
    .set_eh_frame(start)
}

/// The section that a document states.
pub(crate) fn located_in(stated: &Stated) -> Located<'_>
    ensures { located_view result ≡ located_in (stated_view stated.now) }
{
    Located {
        name: stated.name,
        machine: stated.machine,
        bases: bases_from(stated.start),
        address_size: stated.address_size,
        bytes: stated.bytes.as_slice(),
    }
}

// The machine of a file.
fn machine_of(machine: frame_table_files::Machine) -> Machine
    ensures { result ≡ machine_of machine }
{
    match machine {
        frame_table_files::Machine::X86_64 => Machine::X86_64,
        frame_table_files::Machine::Aarch64 => Machine::AArch64,
    }
}

/// The section of a file.
pub(crate) fn located_of_file<'a>(section: &FileSection<'a>) -> Located<'a>
    ensures { located_view result ≡ located_of_file (section_seen section.now) }
{
    Located {
        name: section.name,
        machine: Some(machine_of(section.machine)),
        bases: section.bases,
        address_size: 8,
        bytes: section.bytes,
    }
}

// Whose instructions are read.
fn vendor_of(machine: Option<Machine>) -> Vendor
    ensures { result ≡ vendor_of machine }
{
    match machine {
        Some(Machine::AArch64) => Vendor::AArch64,
        Some(Machine::X86_64) | None => Vendor::Default,
    }
}

/// Writes the listing of a section, and returns whether it has no fault.
pub(crate) fn list<W: Sink>(
    alloc: Global,
    located: &Located<'_>,
    writer: &mut W,
) -> Result<bool, RunError>
    requires writer { W.has_failed writer.old ≡ false }
    requires size { IsTrue (is_size located.now.address_size) }
    ensures listing { WritesListing (listing_by located.now)
        (W.contents writer.old) (W.contents writer.new) result }
    ensures errors { ReportsFailures result false (W.has_failed writer.new) }
{
    let machine = located.machine;
    let mut context: UnwindContext<usize, StoreOnHeap> = UnwindContext::new(alloc)?;
    match located.name {
        SectionName::EhFrame => {
            let mut section = EhFrame::new(located.bytes, LittleEndian);
            section.set_address_size(located.address_size);
            section.set_vendor(vendor_of(machine));
            let listed = Listed {
                section: &section,
                bases: &located.bases,
                machine,
            };
            write_listing(alloc, &listed, &mut context, writer)
        }
        SectionName::DebugFrame => {
            let mut section = DebugFrame::new(located.bytes, LittleEndian);
            section.set_address_size(located.address_size);
            section.set_vendor(vendor_of(machine));
            let listed = Listed {
                section: &section,
                bases: &located.bases,
                machine,
            };
            write_listing(alloc, &listed, &mut context, writer)
        }
    }
}
