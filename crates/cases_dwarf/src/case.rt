//! Bytes, and what is shown of them by readers of each kind.

use crate::entries::show_entries;
use crate::lookups::{show_lookups, show_offsets};
use crate::rows::show_program;
use crate::storages::{Growing, One, Small};
use crate::words::{bytes, numbers, word};
use crate::{expressions, instructions, pointers, tables};
use anyhow::Result;
use dwarf_constants::Vendor;
use dwarf_frame_entries::{
    BaseAddresses, DebugFrame, EhFrame, UnwindContext, UnwindContextStorage, UnwindSection,
};
use dwarf_frame_rows::StoreOnHeap;
use dwarf_readers::{EndianSlice, Reader, RunTimeEndian, TwoPieces};
use shown_text::Shown;
use std::alloc::Global;
use std::str::SplitWhitespace;
use test_readers::Backward;

/// Bytes, how they are read, and what is asked of them.
#[derive(Drop)]
pub struct Case<'a> {
    what: &'a str,
    is_eh_frame: bool,
    pub vendor: Vendor,
    endian: RunTimeEndian,
    pub address_size: u8,
    /// The address of the first byte, if it is known.
    pub start: Option<u64>,
    bytes: Vec<u8>,
    pub numbers: Vec<u64>,
    /// The numbers after the word `behind`.
    pub behind: Vec<u64>,
}

// The values to which each byte is set.
const VALUES: [u8; 5] = [0x00, 0x01, 0x7f, 0x80, 0xff];

fn vendor_named(name: &str) -> Vendor {
    match name {
        "AArch64" => Vendor::AArch64,
        _ => Vendor::Default,
    }
}

fn endian_named(name: &str) -> RunTimeEndian {
    match name {
        "big" => RunTimeEndian::Big,
        _ => RunTimeEndian::Little,
    }
}

// The bytes with another one at a place.
fn with_byte(alloc: Global, bytes: &[u8], place: usize, value: u8) -> Result<Vec<u8>> {
    let mut changed = Vec::from_slice(alloc, bytes)?;
    if let Some(at) = changed.get_mut(place) {
        *at = value;
    }
    Ok(changed)
}

/// The digest of a text by FNV-1a, of 64 bits.
pub fn digest(text: &[u8]) -> u64 {
    let mut sum = 0xcbf2_9ce4_8422_2325u64;
    for byte in text {
        sum = (sum ^ u64::from(*byte)).wrapping_mul(0x0100_0000_01b3);
    }
    sum
}

// How bytes are read.
#[derive(Clone, Copy)]
struct Reading {
    is_eh_frame: bool,
    vendor: Vendor,
    endian: RunTimeEndian,
    address_size: u8,
    start: Option<u64>,
}

impl Reading {
    // Reads the words before the bytes.
    fn parse(words: &mut SplitWhitespace<'_>) -> Result<Self> {
        Ok(Reading {
            is_eh_frame: word(words)? == "eh_frame",
            vendor: vendor_named(word(words)?),
            endian: endian_named(word(words)?),
            address_size: word(words)?.parse::<u8>()?,
            start: word(words)?.parse::<u64>().ok(),
        })
    }
}

impl<'a> Case<'a> {
    /// Reads words: what is shown; whether the bytes are `eh_frame` or `debug_frame`, if they are a section of call frames; whose
    /// extensions are read, the byte order and the size of an address; the address of the first byte, or `-`; the bytes in hexadecimal;
    /// and numbers, whose meaning depends on what is shown.
    pub fn parse(alloc: Global, line: &'a str) -> Result<Self> {
        let mut words = line.split_whitespace();
        let what = word(&mut words)?;
        let reading = Reading::parse(&mut words)?;
        Ok(Case {
            what,
            is_eh_frame: reading.is_eh_frame,
            vendor: reading.vendor,
            endian: reading.endian,
            address_size: reading.address_size,
            start: reading.start,
            bytes: bytes(alloc, &mut words)?,
            numbers: numbers(alloc, &mut words)?,
            behind: numbers(alloc, &mut words)?,
        })
    }

    /// What is shown of the bytes: by contexts on the heap, or of a `program` by contexts of each storage, the last two of which few rules
    /// and rows fill.
    pub fn show(&self, shown: &mut Shown) -> Result<()> {
        if self.what == "program" {
            return self.show_by_each(shown);
        }
        self.show_on_heap(&self.bytes, shown)
    }

    // What is shown of the bytes by contexts of each storage.
    fn show_by_each(&self, shown: &mut Shown) -> Result<()> {
        shown.text("growing\n");
        self.over_readers::<Growing, Growing>(&self.bytes, shown)?;
        shown.text("on the heap\n");
        self.show_on_heap(&self.bytes, shown)?;
        shown.text("small\n");
        self.over_readers::<Small, Small>(&self.bytes, shown)?;
        shown.text("one\n");
        self.over_readers::<One, One>(&self.bytes, shown)
    }

    // What is shown of bytes by contexts on the heap.
    fn show_on_heap(&self, bytes: &[u8], shown: &mut Shown) -> Result<()> {
        self.over_readers::<StoreOnHeap, StoreOnHeap>(bytes, shown)
    }

    // The text of the same.
    fn text_of(&self, alloc: Global, bytes: &[u8]) -> Result<Vec<u8>> {
        let mut shown = Shown::new(alloc);
        self.show_on_heap(bytes, &mut shown)?;
        Ok(shown.finish()?)
    }

    /// What is shown of each front of the bytes, without what is the same as that of the front before.
    pub fn show_fronts(&self, shown: &mut Shown) -> Result<()> {
        let mut last = Vec::new(shown.alloc());
        for size in 0..self.bytes.len() + 1 {
            let text = self.text_of(shown.alloc(), &self.bytes[..size])?;
            if text != last {
                shown.number("", size as u64);
                shown.text(" bytes\n");
                shown.bytes(&text);
                last = text;
            }
        }
        Ok(())
    }

    // The digest of what is shown with the byte at a place set to a value.
    fn digest_with(&self, alloc: Global, place: usize, value: u8) -> Result<u64> {
        let bytes = with_byte(alloc, &self.bytes, place, value)?;
        let text = self.text_of(alloc, &bytes)?;
        Ok(digest(&text))
    }

    /// For each byte, the digests of what is shown with it set to each value.
    pub fn show_turned(&self, shown: &mut Shown) -> Result<()> {
        for place in 0..self.bytes.len() {
            shown.number("", place as u64);
            shown.text(":");
            for value in VALUES {
                shown.hex(" ", self.digest_with(shown.alloc(), place, value)?);
            }
            shown.end();
        }
        Ok(())
    }

    // What is shown of bytes in one piece. It has to be the same if they are in two pieces, cut at any offset, or stored back to
    // front by a reader whose offsets have 32 bits: what that gives otherwise is shown too. Of a `section`, which may be large, it is
    // shown in one piece alone.
    fn over_readers<S: UnwindContextStorage<usize>, Short: UnwindContextStorage<u32>>(
        &self,
        bytes: &[u8],
        shown: &mut Shown,
    ) -> Result<()> {
        let text = self.over_pieces::<S>(shown.alloc(), bytes)?;
        shown.bytes(&text);
        if self.what == "section" {
            return Ok(());
        }
        let short = self.over_backward::<Short>(shown.alloc(), bytes)?;
        if short != text {
            shown.text("with offsets of 32 bits\n");
            shown.bytes(&short);
        }
        Ok(())
    }

    // What is shown of bytes in one piece and in two.
    fn over_pieces<S: UnwindContextStorage<usize>>(
        &self,
        alloc: Global,
        bytes: &[u8],
    ) -> Result<Vec<u8>> {
        let mut shown = Shown::new(alloc);
        self.show_pieces::<S>(bytes, &mut shown)?;
        Ok(shown.finish()?)
    }

    // Shows the same by a new context.
    fn show_pieces<S: UnwindContextStorage<usize>>(
        &self,
        bytes: &[u8],
        shown: &mut Shown,
    ) -> Result<()> {
        let mut context: UnwindContext<usize, S> = UnwindContext::new_in(shown.alloc())?;
        let reader = EndianSlice::new(bytes, self.endian);
        self.show_reader(reader, &mut context, shown)?;
        if self.what == "section" {
            return Ok(());
        }
        self.show_odd_cut(bytes, &mut context, shown)
    }

    // Shows the first offset at which bytes in two pieces that are cut there show something else, if there is one.
    fn show_odd_cut<S: UnwindContextStorage<usize>>(
        &self,
        bytes: &[u8],
        context: &mut UnwindContext<usize, S>,
        shown: &mut Shown,
    ) -> Result<()> {
        for cut in 0..bytes.len() + 1 {
            let pieces = TwoPieces::new(&bytes[..cut], &bytes[cut..], self.endian);
            let other = self.over_reader(shown.alloc(), pieces, context)?;
            if other.as_slice() != shown.as_bytes() {
                shown.number("otherwise where it is cut at ", cut as u64);
                shown.end();
                return Ok(());
            }
        }
        Ok(())
    }

    // What is shown of bytes that are stored back to front.
    fn over_backward<S: UnwindContextStorage<u32>>(
        &self,
        alloc: Global,
        bytes: &[u8],
    ) -> Result<Vec<u8>> {
        let mut stored = Vec::from_slice(alloc, bytes)?;
        stored.reverse();
        self.over_stored::<S>(alloc, &stored)
    }

    // The same of bytes as they are stored.
    fn over_stored<S: UnwindContextStorage<u32>>(
        &self,
        alloc: Global,
        stored: &[u8],
    ) -> Result<Vec<u8>> {
        u32::try_from(stored.len())?;
        let mut context: UnwindContext<u32, S> = UnwindContext::new_in(alloc)?;
        let reader = Backward::new_at(stored, self.endian, 0);
        self.over_reader(alloc, reader, &mut context)
    }

    // The text of what is shown by a reader.
    fn over_reader<R: Reader, S: UnwindContextStorage<R::Offset>>(
        &self,
        alloc: Global,
        reader: R,
        context: &mut UnwindContext<R::Offset, S>,
    ) -> Result<Vec<u8>> {
        let mut shown = Shown::new(alloc);
        self.show_reader(reader, context, &mut shown)?;
        Ok(shown.finish()?)
    }

    // Shows what a reader reads, by a context that may have been used before.
    fn show_reader<R: Reader, S: UnwindContextStorage<R::Offset>>(
        &self,
        reader: R,
        context: &mut UnwindContext<R::Offset, S>,
        shown: &mut Shown,
    ) -> Result<()> {
        match self.what {
            "table" => tables::show(self, reader, shown),
            "pointer" => pointers::show_one(self, reader, shown)?,
            "pointers" => pointers::show(self, reader, shown)?,
            "expressions" => expressions::show(&self.numbers, reader, shown)?,
            "instructions" => instructions::show(self, reader, shown)?,
            _ => self.show_frames(reader, context, shown)?,
        }
        Ok(())
    }

    // What is shown of call frames by a reader.
    fn show_frames<R: Reader, S: UnwindContextStorage<R::Offset>>(
        &self,
        reader: R,
        context: &mut UnwindContext<R::Offset, S>,
        shown: &mut Shown,
    ) -> Result<()> {
        if !self.is_eh_frame {
            let mut section = DebugFrame::from(reader);
            section.set_vendor(self.vendor);
            return self.show_section(&section, context, shown);
        }
        let mut section = EhFrame::from(reader);
        section.set_vendor(self.vendor);
        match self.address_size {
            1 => section.set_address_size(1),
            2 => section.set_address_size(2),
            4 => section.set_address_size(4),
            _ => {}
        }
        self.show_section(&section, context, shown)
    }

    // What is shown of a section.
    fn show_section<R: Reader, S: UnwindContextStorage<R::Offset>, Section: UnwindSection<R>>(
        &self,
        section: &Section,
        context: &mut UnwindContext<R::Offset, S>,
        shown: &mut Shown,
    ) -> Result<()> {
        let bases = self.bases();
        match self.what {
            "program" => show_program(section, &bases, &self.numbers, context, shown)?,
            "lookups" => show_lookups(section, &bases, &self.numbers, context, shown),
            "offsets" => show_offsets(section, &bases, &self.numbers, shown)?,
            _ => show_entries(section, &bases, context, shown),
        }
        Ok(())
    }

    // The addresses that pointers of a section are relative to.
    fn bases(&self) -> BaseAddresses {
        BaseAddresses::default()
            .set_eh_frame(self.start.unwrap_or(0))
            .set_text(0x20000)
            .set_got(0x30000)
    }
}
