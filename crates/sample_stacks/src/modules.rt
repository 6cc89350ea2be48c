//! The modules of a process.

ghost use Rattle.std.specs.Prelude.{◌≡◌, ◌<◌, false, IfOk, IfSome, OnErr, OnOk};
ghost use Rattle.std.specs.Bool.{OnFalse, OnTrue};
ghost use Rattle.sample_stacks.specs.Known.{is_untouched};
ghost use Rattle.sample_stacks.specs.Modules.{IsPlace, IsRanges, module_ranges, no_modules, ranges_left};

use crate::arch::{SampleArch, SampleModules};
use crate::code::ProcessCode;
use crate::known::{
    FoundRange, KnownRange, RangeCode, code_at, find_range, set_code, with_known_code,
};
use crate::ranges::{CodeRange, code_ranges};
use backtrace_files::{FileSections, LoadedFile, loaded_code};
use framehop::{CodeRules, FdeLookup, LoadOptions, Module, Rows, Session, UnwinderId, load_module};
use perf_processes::MappedFile;
use std::alloc::{AllocError, Global};
use std::marker::Model;

/// Where an address is in a file.
#[derive(Clone, Copy, Debug, PartialEq, Eq)]
pub struct CodePlace {
    /// The file, by its number.
    pub file: u32,
    /// The address, as the file states it.
    pub address: u64,
}

/// The bytes of files, which are read when they are asked for.
pub trait FileBytes {
    /// All bytes of the file with a number, if they are there. Fails if memory is refused.
    fn bytes_of(&mut self, file: u32) -> Result<Option<&'static [u8]>, AllocError>;
}

/// The modules of a process, and the unwinder of the session in which they are loaded.
#[derive(Debug, Drop)]
pub struct ProcessModules {
    unwinder: UnwinderId,
    ranges: Vec<KnownRange>,
}

/// They are the unwinder, the addresses that are mapped from files, and the code that is known of these.
impl Model for ProcessModules {
    ghost use Rattle.sample_stacks.specs.Modules.{ModuleRanges};

    ghost Value = { ModuleRanges };

    ghost view = { λ modules. record { unwinder = modules.unwinder; known = modules.ranges.items } };
}

impl ProcessCode for ProcessModules {
    ghost use Rattle.sample_stacks.specs.Modules.{module_code};

    ghost code = { module_code };

    fn code_at(&self, address: u64) -> &[u8] {
        code_at(self.ranges.as_slice(), address)
    }
}

// Whether a range is among others.
fn is_among(ranges: &[CodeRange], range: &CodeRange) -> bool {
    let index = ranges.partition_point(|other| other.start < range.start);
    match ranges.get(index) {
        Some(other) => other == range,
        None => false,
    }
}

// The address as the file states it of an address in memory.
fn stated(base_svma: u64, base_avma: u64, address: u64) -> Option<u64> {
    let relative = address.checked_sub(base_avma)?;
    base_svma.checked_add(relative)
}

// Where an address of a range is in the range's file, if it was loaded.
fn place_in(range: &CodeRange, code: RangeCode, address: u64) -> Option<CodePlace>
    ensures { IfSome result (λ place. place.file ≡ range.now.mapping.file) }
{
    let RangeCode::Loaded {
        base_svma,
        base_avma,
        ..
    } = code
    else {
        return None;
    };
    match stated(base_svma, base_avma, address) {
        Some(address) => Some(CodePlace {
            file: range.mapping.file,
            address,
        }),
        None => None,
    }
}

// A module of a range of a file, and where its code is: none if the file has no code there.
fn module_of(
    alloc: Global,
    range: &CodeRange,
    bytes: &'static [u8],
) -> Result<Option<(Module<&'static [u8]>, RangeCode)>, AllocError>
    ensures { IfOk result (λ made. IfSome made (λ pair. is_untouched pair.1 ≡ false)) }
{
    let mapping = core_files::MappedFile {
        start: range.mapping.address,
        end: range.mapping.address.saturating_add(range.mapping.size),
        offset: range.mapping.offset,
        name: &[],
    };
    let file = LoadedFile {
        mapping,
        bytes: Some(bytes),
        debug: None,
    };
    let Some(code) = loaded_code(&file) else {
        return Ok(None);
    };
    let sections = FileSections::new(code.file, code.base_svma);
    let options = LoadOptions {
        lookup: FdeLookup::Auto,
        tables: None,
        debug_frame_beside: true,
        code_rules: CodeRules::Published,
        rows: Rows::Published,
    };
    let addresses = range.start..range.end;
    let name = String::new(alloc);
    let module = load_module(alloc, name, addresses, code.base_avma, sections, options)?;
    let code = RangeCode::Loaded {
        base_svma: code.base_svma,
        base_avma: code.base_avma,
        bytes,
    };
    Ok(Some((module, code)))
}

impl ProcessModules {
    /// No modules, in an unwinder of the session.
    pub fn new(alloc: Global, unwinder: UnwinderId) -> Self
        ensures { result ≡ no_modules unwinder }
    {
        ProcessModules {
            unwinder,
            ranges: Vec::new(alloc),
        }
    }

    /// The unwinder of the session in which they are loaded.
    pub fn unwinder(&self) -> UnwinderId
        ensures { result ≡ self.now.unwinder }
    {
        self.unwinder
    }

    // Unloads the modules of the ranges that aren't there any more.
    fn unload_others<A: SampleArch>(
        &self,
        session: &mut Session<SampleModules<'static, A>>,
        ranges: &[CodeRange],
    ) -> Result<(), AllocError> {
        for known in &self.ranges {
            let RangeCode::Loaded { .. } = known.code else {
                continue;
            };
            if is_among(ranges, &known.range) {
                continue;
            }
            if let Ok(Err(_)) = session.unload(self.unwinder, known.range.start) {
                return Err(AllocError);
            }
        }
        Ok(())
    }

    /// Takes what the process has mapped now. Modules of ranges that stay are kept, and the others are unloaded.
    pub fn remap<A: SampleArch>(
        &mut self,
        alloc: Global,
        session: &mut Session<SampleModules<'static, A>>,
        mappings: &[MappedFile],
    ) -> Result<(), AllocError>
        ensures ranges { OnOk result (IsRanges (module_ranges self.new) mappings.now) }
        ensures unwinder { self.new.unwinder ≡ self.old.unwinder }
        ensures err { OnErr result (self.new ≡ self.old) }
    {
        let ranges = code_ranges(alloc, mappings)?;
        self.unload_others::<A>(session, ranges.as_slice())?;
        self.ranges = with_known_code(alloc, ranges.as_slice(), self.ranges.as_slice())?;
        Ok(())
    }

    // Loads the module of a range, if its file is there and has code.
    fn load<A: SampleArch, F: FileBytes>(
        &self,
        alloc: Global,
        session: &mut Session<SampleModules<'static, A>>,
        files: &mut F,
        range: &CodeRange,
    ) -> Result<RangeCode, AllocError>
        ensures { IfOk result (λ code. is_untouched code ≡ false) }
    {
        let Some(bytes) = files.bytes_of(range.mapping.file)? else {
            return Ok(RangeCode::Missing);
        };
        let Some((module, code)) = module_of(alloc, range, bytes)? else {
            return Ok(RangeCode::Missing);
        };
        match session.load(self.unwinder, module) {
            Ok(Ok(())) => Ok(code),
            Ok(Err(_)) => Err(AllocError),
            Err(_) => Ok(RangeCode::Missing),
        }
    }

    /// Loads the module of the file at an address, if no frame was in its range yet, and returns whether that is so. Then fewer ranges are
    /// left, and else nothing is changed.
    pub fn load_at<A: SampleArch, F: FileBytes>(
        &mut self,
        alloc: Global,
        session: &mut Session<SampleModules<'static, A>>,
        files: &mut F,
        address: u64,
    ) -> Result<bool, AllocError>
        ensures unwinder { self.new.unwinder ≡ self.old.unwinder }
        ensures ranges { module_ranges self.new ≡ module_ranges self.old }
        ensures fewer { IfOk result (λ is_new. OnTrue is_new (ranges_left self.new < ranges_left self.old)) }
        ensures same { IfOk result (λ is_new. OnFalse is_new ((self.new ≡ self.old) × (session.new ≡ session.old))) }
    {
        let Some(found) = find_range(self.ranges.as_slice(), address) else {
            return Ok(false);
        };
        let RangeCode::Untouched = found.known.code else {
            return Ok(false);
        };
        let code = self.load::<A, F>(alloc, session, files, &found.known.range)?;
        set_code(&mut self.ranges, found.index, code);
        Ok(true)
    }

    /// Where an address is in a file, if the module of the file is loaded.
    pub fn place_of(&self, address: u64) -> Option<CodePlace>
        ensures { IsPlace address (module_ranges self.now) result }
    {
        let Some(found) = find_range(self.ranges.as_slice(), address) else {
            return None;
        };
        place_in(&found.known.range, found.known.code, address)
    }
}
