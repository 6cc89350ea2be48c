//! The commands of a document.

ghost use Rattle.std.specs.Prelude.{◌≡◌, codes};
ghost use Rattle.serde_json.specs.View.{view};
ghost use Rattle.unwind_run_document.specs.Commands.{command_in, slots_in, slots_of_count, task_in, verb_in};
ghost use Rattle.serde_json.specs.Find.{get};
ghost use Rattle.unwind_run_document.specs.Made.{one_number};
ghost use Rattle.json_program.specs.Json.{field};
ghost use Rattle.json_program.specs.Decoded.{Decodes};
ghost use Rattle.unwind_run_document.specs.CommandViews.{made_view, task_of};

use crate::document::Architecture;
use crate::load::{load_in, unload_in};
use crate::made::{Made, made_number};
use crate::registers::StatedRegisters;
use crate::roads::roads_in;
use crate::step::step_in;
use crate::walk::walk_in;
use framehop_code_rules::CodeRules;
use framehop_rules::SlotCount;
use json_program::check::Checked;
use json_program::field::{has_only, number_field, text_field};
use json_program::float::has_float;
use json_program::{DecodeError, FaultName};
use serde_json::Value;
use std::alloc::Global;

/// A command of a document.
#[derive(Debug, Drop)]
pub enum Command {
    /// Makes the next unwinder.
    Unwinder,
    /// Makes the next cache, of so many slots.
    Cache(SlotCount),
    /// Makes the next unwinder, with the modules of the one of this number.
    Clone(usize),
    /// Lets the unwinder of this number go.
    RemoveUnwinder(usize),
    /// Lets the cache of this number go.
    RemoveCache(usize),
    /// Loads a module in an unwinder.
    Load(LoadCommand),
    /// Unloads a module.
    Unload(UnloadCommand),
    /// Makes one step.
    Step(StepCommand),
    /// Walks over frames.
    Walk(WalkCommand),
    /// Shows the counts of the cache of this number.
    Stats(usize),
    /// Shows how many slots the cache of this number has, and how many rules it keeps.
    Occupancy(usize),
    /// Makes one step by each lookup, over a module of its own.
    Roads(RoadsCommand),
}

/// A module for an unwinder.
#[derive(Debug, Drop)]
pub struct LoadCommand {
    /// The unwinder's number, from 0 on.
    pub unwinder: usize,
    pub name: String,
    /// Where the module starts in memory.
    pub start: u64,
    /// Where it ends, which may lie below the start.
    pub end: u64,
    /// The address to which relative addresses are added.
    pub base: u64,
    /// The base's address as the file states it.
    pub base_svma: u64,
    /// The sections, of which no two have one name.
    pub sections: Vec<StatedSection>,
    /// The segments, of which no two have one name.
    pub segments: Vec<StatedSection>,
    pub options: StatedOptions,
}

/// How the FDEs of a module's section of call frames are found.
#[derive(Clone, Copy, Debug, PartialEq, Eq)]
pub enum StatedLookup {
    /// By a header, if there is one and no table is asked for, and else by an index.
    Auto,
    /// By an index.
    Index,
    /// By reading the section at each step.
    Scan,
}

/// What the rows of a module's call frames are taken to say.
#[derive(Clone, Copy, Debug, PartialEq, Eq)]
pub enum StatedRows {
    /// What the original takes of them.
    Published,
    /// What DWARF says.
    Whole,
}

/// What a load asks for beside its sections.
#[derive(Clone, Copy, Debug, PartialEq, Eq)]
pub struct StatedOptions {
    pub lookup: StatedLookup,
    /// Whether there is to be a table of the rules that the call frames say.
    pub tables: bool,
    /// Whether `.debug_frame` is used beside `.eh_frame`.
    pub debug_frame_beside: bool,
    /// By which rules machine code is read.
    pub code_rules: CodeRules,
    /// What rows are taken to say.
    pub rows: StatedRows,
}

/// A module of an unwinder, by its start.
#[derive(Clone, Copy, Debug, PartialEq, Eq)]
pub struct UnloadCommand {
    /// The unwinder's number, from 0 on.
    pub unwinder: usize,
    /// Where the module starts in memory.
    pub start: u64,
}

/// A section or a segment of a module.
#[derive(Debug, Drop)]
pub struct StatedSection {
    pub name: String,
    /// Where it lies as the file states it.
    pub range: Option<AddressRange>,
    pub bytes: Option<Vec<u8>>,
}

/// Addresses from the start up to the end, which may lie below it.
#[derive(Clone, Copy, Debug, PartialEq, Eq)]
pub struct AddressRange {
    pub start: u64,
    pub end: u64,
}

/// How the address of a frame is meant.
#[derive(Clone, Copy, Debug, PartialEq, Eq)]
pub enum FrameKind {
    /// The instruction pointer.
    Ip,
    /// A return address, which is not 0.
    Ra,
}

/// One step of an unwinder with a cache.
#[derive(Debug, Drop)]
pub struct StepCommand {
    /// The unwinder's number, from 0 on.
    pub unwinder: usize,
    /// The cache's number, from 0 on.
    pub cache: usize,
    pub kind: FrameKind,
    pub address: u64,
    pub registers: StatedRegisters,
    pub stack: Stack,
}

/// A walk over the frames of an unwinder with a cache.
#[derive(Debug, Drop)]
pub struct WalkCommand {
    /// The unwinder's number, from 0 on.
    pub unwinder: usize,
    /// The cache's number, from 0 on.
    pub cache: usize,
    /// The instruction pointer.
    pub pc: u64,
    /// The most frames, from 1 to 65,536.
    pub limit: u64,
    pub registers: StatedRegisters,
    pub stack: Stack,
}

/// A section of call frames, and a header of it.
#[derive(Debug, Drop)]
pub struct StatedTables {
    pub section: Vec<u8>,
    /// Where the section starts as the file states it.
    pub section_start: u64,
    pub header: Vec<u8>,
    /// Where the header starts as the file states it.
    pub header_start: u64,
    /// The address that stated addresses are relative to, at which the module starts.
    pub base_svma: u64,
}

/// One step by each lookup of the entry for an address: by the header, by an index of the section, and
/// by reading the section.
#[derive(Debug, Drop)]
pub struct RoadsCommand {
    pub tables: StatedTables,
    pub kind: FrameKind,
    pub address: u64,
    pub registers: StatedRegisters,
    pub stack: Stack,
}

/// The readable words, eight bytes each, the first of them at the start.
#[derive(Debug, Drop)]
pub struct Stack {
    pub start: u64,
    pub words: Vec<u64>,
}

/// What a command does.
#[derive(Clone, Copy, Debug, PartialEq, Eq)]
pub(crate) enum Verb {
    Unwinder,
    Cache,
    Clone,
    RemoveUnwinder,
    RemoveCache,
    Load,
    Unload,
    Step,
    Walk,
    Stats,
    Occupancy,
    Roads,
}

// What a command does.
fn verb_field(object: &Value) -> Checked<Verb>
    ensures { result ≡ field verb_in (codes "do") (view object.now) }
{
    match text_field(object, "do")? {
        "unwinder" => Ok(Verb::Unwinder),
        "cache" => Ok(Verb::Cache),
        "clone" => Ok(Verb::Clone),
        "remove_unwinder" => Ok(Verb::RemoveUnwinder),
        "remove_cache" => Ok(Verb::RemoveCache),
        "load" => Ok(Verb::Load),
        "unload" => Ok(Verb::Unload),
        "step" => Ok(Verb::Step),
        "walk" => Ok(Verb::Walk),
        "stats" => Ok(Verb::Stats),
        "occupancy" => Ok(Verb::Occupancy),
        "roads" => Ok(Verb::Roads),
        _ => Err(FaultName::BadCommand),
    }
}

// The number in the one field beside `do`, of something that earlier commands made.
fn one_number(object: &Value, name: &str, count: usize) -> Checked<usize>
    ensures { result ≡ one_number count name.now (view object.now) }
{
    if !has_only(object, &["do", name]) {
        return Err(FaultName::BadCommand);
    }
    made_number(object, name, count)
}

// So many slots, if a cache can have so many.
fn slots_of_count(count: u64) -> Checked<SlotCount>
    ensures { result ≡ slots_of_count count }
{
    match SlotCount::new(count as usize) {
        Some(slots) => Ok(slots),
        None => Err(FaultName::BadNumber),
    }
}

// How many slots a new cache has: 509, if that is left out.
fn slots_in(object: &Value) -> Checked<SlotCount>
    ensures { result ≡ slots_in (get (codes "slots") (view object.now)) }
{
    match object.get("slots") {
        None => Ok(SlotCount::original()),
        Some(_) => slots_of_count(number_field(object, "slots")?),
    }
}

// The command that does it.
fn task_in(
    alloc: Global,
    arch: Architecture,
    object: &Value,
    verb: Verb,
    made: &Made,
) -> Result<Command, DecodeError<FaultName>>
    ensures { Decodes task_of result (task_in arch (made_view made.now) (view object.now) verb) }
{
    match verb {
        Verb::Unwinder if has_only(object, &["do"]) => Ok(Command::Unwinder),
        Verb::Cache if has_only(object, &["do", "slots"]) => {
            Ok(Command::Cache(slots_in(object)?))
        }
        Verb::Unwinder | Verb::Cache => Err(DecodeError::Fault(FaultName::BadCommand)),
        Verb::Clone => Ok(Command::Clone(one_number(object, "unwinder", made.unwinders)?)),
        Verb::RemoveUnwinder => {
            let unwinder = one_number(object, "unwinder", made.unwinders)?;
            Ok(Command::RemoveUnwinder(unwinder))
        }
        Verb::RemoveCache => { Ok(Command::RemoveCache(one_number(object, "cache", made.caches)?)) }
        Verb::Load => Ok(Command::Load(load_in(alloc, object, made)?)),
        Verb::Unload => Ok(Command::Unload(unload_in(object, made)?)),
        Verb::Step => Ok(Command::Step(step_in(alloc, arch, object, made)?)),
        Verb::Walk => Ok(Command::Walk(walk_in(alloc, arch, object, made)?)),
        Verb::Stats => Ok(Command::Stats(one_number(object, "cache", made.caches)?)),
        Verb::Occupancy => Ok(Command::Occupancy(one_number(object, "cache", made.caches)?)),
        Verb::Roads => Ok(Command::Roads(roads_in(alloc, arch, object)?)),
    }
}

/// One command, after what earlier ones made.
pub(crate) fn command_in(
    alloc: Global,
    arch: Architecture,
    value: &Value,
    made: &Made,
) -> Result<Command, DecodeError<FaultName>>
    ensures { Decodes task_of result (command_in arch (made_view made.now) (view value.now)) }
{
    if has_float(value) {
        return Err(DecodeError::Fault(FaultName::FloatNumber));
    }
    task_in(alloc, arch, value, verb_field(value)?, made)
}
