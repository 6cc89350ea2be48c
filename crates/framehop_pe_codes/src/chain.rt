//! The codes of a chain of infos, one after the other, without a list of them.
ghost use Rattle.std.specs.Prelude.{◌≡◌, ◌<◌, ◌≤◌, [], IfOk, IfErr, if◌then◌else◌, true, OnSome, length};
ghost use Rattle.std.specs.Option.{option_map};
ghost use Rattle.framehop_pe_codes.specs.Codes.{codes_of};
ghost use Rattle.framehop_pe_codes.specs.Infos.{ran_codes};
ghost use Rattle.framehop_pe_codes.specs.InfoViews.{operations_left, next_and_left, bytes_left};

use crate::code::{bytes_after, read_code};
use crate::info::{is_framed, read_info};
use crate::operation::UnwindOperation;
use crate::sections::PeSections;
use framehop_errors::PeUnwinderError;

/// The codes of a chain that are left: those of an info's bytes, and those of the infos after it.
#[derive(Clone, Copy, Debug)]
pub struct CodesLeft<'a> {
    pub(crate) sections: PeSections<'a>,
    // Whether the first info names a frame register, and whether that of the bytes does too.
    pub(crate) is_first_framed: bool,
    pub(crate) is_framed: bool,
    pub(crate) codes: &'a [u8],
    pub(crate) chained: Option<u32>,
    // How many infos may come yet.
    pub(crate) infos: u32,
}

impl CodesLeft<'_> {
    // Goes to the next info of the chain; false where there is none.
    fn next_info(&mut self) -> Result<bool, PeUnwinderError>
        requires empty { length self.old.codes.now ≡ 0 }
        ensures ok { IfOk result (λ more. operations_left self.old
            ≡ (if more then operations_left self.new else Ok [])) }
        ensures err { IfErr result (λ e. operations_left self.old ≡ Err e) }
        ensures less { IfOk result (λ more. more ≡ true → bytes_left self.new < bytes_left self.old) }
    {
        let Some(address) = self.chained else {
            return Ok(false);
        };
        if self.infos == 0 {
            return Err(PeUnwinderError::UnwindInfoParseError);
        }
        let bytes = self.sections.unwind_info_memory_at_rva(address)?;
        let Some(info) = read_info(self.is_first_framed, bytes) else {
            return Err(PeUnwinderError::UnwindInfoParseError);
        };
        self.infos -= 1;
        self.is_framed = is_framed(self.is_first_framed, &info);
        self.codes = info.codes;
        self.chained = info.chained;
        Ok(true)
    }

    /// The next operation, or `None` after the last one. After an error nothing is said of what is left. Fails with
    /// `MissingUnwindInfoData` and `UnwindInfoParseError` if the next info of the chain isn't there or can't be read, and with
    /// the latter if it would be the 33rd.
    #[inline(always)]
    pub fn next(&mut self) -> Result<Option<UnwindOperation>, PeUnwinderError>
        ensures ok { IfOk result (λ next. operations_left self.old
            ≡ next_and_left next (operations_left self.new)) }
        ensures err { IfErr result (λ e. operations_left self.old ≡ Err e) }
        ensures less { IfOk result (λ next. OnSome next (bytes_left self.new < bytes_left self.old)) }
    {
        'infos: while self.codes.is_empty() {
            if !self.next_info()? {
                return Ok(None);
            }
        }
        let Some((code, size)) = read_code(self.is_framed, self.codes) else {
            return Err(PeUnwinderError::UnwindInfoParseError);
        };
        self.codes = bytes_after(self.codes, size);
        Ok(Some(code.operation))
    }
}

// The bytes of codes without those of the leading ones of which the offset exceeds this one.
pub(crate) fn ran_codes(is_framed: bool, codes: &[u8], offset: u32) -> &[u8]
    ensures codes { codes_of is_framed result.now
        ≡ option_map (ran_codes offset) (codes_of is_framed codes.now) }
    ensures few { length result.now ≤ length codes.now }
{
    let mut rest = codes;
    'codes: while !rest.is_empty() {
        let Some((code, size)) = read_code(is_framed, rest) else {
            return rest;
        };
        if u32::from(code.prolog_offset) <= offset {
            return rest;
        }
        rest = bytes_after(rest, size);
    }
    rest
}
