//! PE files: their unwind data, as steps take it.

ghost use Rattle.std.specs.Prelude.{◌≡◌, IsTrue, is_some, option_and_then, option_map};
ghost use Rattle.framehop_code.specs.Places as places;
ghost use Rattle.framehop_pe_codes.specs.Sections.{section_of};
ghost use Rattle.framehop_pe.specs.Rows.{IsIncreasing, first_row};
ghost use Rattle.framehop_loads.specs.UnwindData.{bytes_of_section, pe_section};
ghost use Rattle.framehop_loads.specs.UnwindDataViews.{pe_file_taken, taken_bytes};

use crate::relative::relative_range;
use framehop_code::Code;
use framehop_code_rules::CodeRules;
use framehop_modules::{SectionBytes, SectionData};
use framehop_pe::{DataAtRvaRange, pdata_is_increasing, pdata_row};
use std::marker::Model;
use std::ops::Range;

// The data of a section, and its addresses relative to the module's base (RVA).
#[derive(Drop)]
struct SectionAtRva<D: SectionBytes> {
    bytes: D,
    rva_range: Range<u32>,
}

impl<D: SectionBytes> Model for SectionAtRva<D> {
    ghost use Rattle.framehop_pe_codes.specs.Sections.{PeSection};

    ghost Value = { PeSection };

    ghost view = { λ given. record { bytes = D.content given.bytes; rva_range = given.rva_range } };
}

/// A PE file: its function table, and the sections that the table leads to.
#[derive(Drop)]
pub struct PeModule<D: SectionBytes> {
    pdata: D,
    // Whether the rows of the table are known to increase.
    increasing: bool,
    rdata: Option<SectionAtRva<D>>,
    xdata: Option<SectionAtRva<D>>,
    text: Option<SectionAtRva<D>>,
    // By which rules the code is read.
    code_rules: CodeRules,
}

impl<D: SectionBytes> Model for PeModule<D> {
    ghost use Rattle.std.specs.Prelude.{IsTrue};
    ghost use Rattle.framehop_pe.specs.Rows.{IsIncreasing};
    ghost use Rattle.framehop_pe_codes.specs.Sections.{PeFile};

    ghost Value = { PeFile };

    ghost view = { λ given. record {
      pdata = D.content given.pdata;
      rdata = given.rdata;
      xdata = given.xdata;
      text = given.text;
      code_rules = given.code_rules;
    } };

    // rows that are said to increase do
    ghost invariant = { λ given. IsTrue given.increasing → IsIncreasing (D.content given.pdata) };
}

// A section with its addresses relative to a base, if they fit.
fn section_at<D: SectionBytes + Drop>(
    base_svma: u64,
    section: Option<SectionData<D>>,
) -> Option<SectionAtRva<D>>
    ensures { result ≡ option_and_then (pe_section base_svma) (taken_bytes D.content section) }
{
    let section = section?;
    let rva_range = relative_range(base_svma, &section.svma_range)?;
    Some(SectionAtRva {
        bytes: section.bytes,
        rva_range,
    })
}

// A section that is lent, if there is one.
fn lent<D: SectionBytes>(section: &Option<SectionAtRva<D>>) -> Option<DataAtRvaRange<'_>>
    ensures { option_map section_of result ≡ section.now }
{
    match section {
        Some(section) => Some(DataAtRvaRange {
            bytes: section.bytes.bytes(),
            rva_range: section.rva_range.start..section.rva_range.end,
        }),
        None => None,
    }
}

impl<D: SectionBytes + Drop> PeModule<D> {
    // The PE file of a module with these sections, whose code is read by these rules. Tests whether the rows of its table increase.
    pub(crate) fn new(
        code_rules: CodeRules,
        base_svma: u64,
        pdata: D,
        rdata: Option<SectionData<D>>,
        xdata: Option<SectionData<D>>,
        text: Option<SectionData<D>>,
    ) -> Self
        ensures { result ≡ pe_file_taken D.content code_rules base_svma pdata rdata xdata text }
    {
        let increasing = pdata_is_increasing(pdata.bytes());
        PeModule {
            pdata,
            increasing,
            rdata: section_at(base_svma, rdata),
            xdata: section_at(base_svma, xdata),
            text: section_at(base_svma, text),
            code_rules,
        }
    }
}

impl<D: SectionBytes> PeModule<D> {
    /// The function table.
    pub fn pdata(&self) -> &[u8]
        ensures { result.now ≡ self.now.pdata }
    {
        self.pdata.bytes()
    }

    /// Whether the rows of the function table are known to increase.
    pub fn is_increasing(&self) -> bool
        ensures { IsTrue result → IsIncreasing self.now.pdata }
    {
        self.increasing
    }

    /// `.rdata`, if the file has it.
    pub fn rdata(&self) -> Option<DataAtRvaRange<'_>>
        ensures { option_map section_of result ≡ self.now.rdata }
    {
        lent(&self.rdata)
    }

    /// `.xdata`, if the file has it.
    pub fn xdata(&self) -> Option<DataAtRvaRange<'_>>
        ensures { option_map section_of result ≡ self.now.xdata }
    {
        lent(&self.xdata)
    }

    /// `.text`, if the file has it.
    pub fn text(&self) -> Option<DataAtRvaRange<'_>>
        ensures { option_map section_of result ≡ self.now.text }
    {
        lent(&self.text)
    }

    /// By which rules the code is read.
    pub fn code_rules(&self) -> CodeRules
        ensures { result ≡ self.now.code_rules }
    {
        self.code_rules
    }

    /// The code of the file, at addresses relative to its base.
    pub(crate) fn code(&self) -> Option<Code<'_>>
        ensures { option_map places.code_of result ≡ option_map bytes_of_section self.now.text }
    {
        match &self.text {
            Some(text) => Some(Code {
                begin: text.rva_range.start.into(),
                bytes: text.bytes.bytes(),
            }),
            None => None,
        }
    }

    /// Whether a row of the function table has a relative address.
    pub(crate) fn has_row(&self, relative_address: u32) -> bool
        ensures { result ≡ is_some (first_row self.now.pdata relative_address) }
    {
        pdata_row(self.pdata.bytes(), self.increasing, relative_address).is_some()
    }
}
