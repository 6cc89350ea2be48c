//! What records say that changes processes.

ghost use Rattle.std.specs.Prelude.{◌≡◌, IfOk, None};
ghost use Rattle.perf_files.specs.MappingViews.{mapping_seen};
ghost use Rattle.perf_files.specs.RecordViews.{record_seen};
ghost use Rattle.perf_files.specs.TaskViews.{command_seen};
ghost use Rattle.perf_files.specs.declared.record.RecordKind.TheVariants as kind;
ghost use Rattle.fold_stacks.specs.Foldings.{IsChange};
ghost use Rattle.fold_stacks.specs.KeptNumbers.{IsNamed, name_number};
ghost use Rattle.fold_stacks.specs.RecordChanges.{command_change, mapped_file};

use crate::error::FoldError;
use crate::files::SampledFiles;
use folded_stacks::FrameNames;
use perf_files::{Attributes, Command, Mapping, Record, RecordKind, Task};
use perf_processes::{Change, MappedFile, ThreadName};

// A mapping of the file with this number.
fn mapped_file(mapping: &Mapping<'_>, file: u32) -> MappedFile
    ensures { result ≡ mapped_file (mapping_seen mapping.now) file }
{
    MappedFile {
        pid: mapping.thread.pid,
        address: mapping.address,
        size: mapping.size,
        offset: mapping.offset,
        file,
    }
}

// The change that a name with this number says.
fn named_change(command: &Command<'_>, name: u32) -> Change
    ensures { result ≡ command_change name (command_seen command.now) }
{
    let named = ThreadName {
        thread: command.thread,
        name: Some(name),
    };
    if command.exec {
        Change::Executed(named)
    } else {
        Change::Named(named)
    }
}

// What a mapping changes: nothing if it has no code.
fn mapping_change<F: SampledFiles>(
    files: &mut F,
    record: &Record<'_>,
    attributes: &Attributes,
) -> Result<Option<Change>, FoldError>
    ensures change { IfOk result (λ change. IsChange kind.Mapping attributes.now (record_seen record.now) change) }
    ensures unnamed { IfOk result (λ change. name_number change ≡ None) }
{
    let mapping = Mapping::parse(record, attributes)?;
    if !mapping.executable {
        return Ok(None);
    }
    let file = files.number_of(mapping.name, mapping.build_id)?;
    Ok(Some(Change::Mapped(mapped_file(&mapping, file))))
}

// What a name changes.
#[tactic(auto, using(crate::proofs::Kept::kept_numbers))]
fn command_change(
    names: &mut FrameNames,
    record: &Record<'_>,
    attributes: &Attributes,
) -> Result<Option<Change>, FoldError>
    ensures change { IfOk result (λ change. IsChange kind.Command attributes.now (record_seen record.now) change) }
    ensures names { IfOk result (λ change. IsNamed attributes.now (record_seen record.now) names.old names.new change) }
{
    let command = Command::parse(record, attributes)?;
    let name = names.number_of(command.name)?;
    Ok(Some(named_change(&command, name)))
}

/// What a record changes, by the attributes of its event: names of threads and files get numbers. Fails if a field of the record goes
/// past its end, or if memory is refused.
pub fn change_of<F: SampledFiles>(
    names: &mut FrameNames,
    files: &mut F,
    record: &Record<'_>,
    attributes: &Attributes,
) -> Result<Option<Change>, FoldError>
    ensures change { IfOk result (λ change. IsChange record.now.kind attributes.now (record_seen record.now) change) }
    ensures names { IfOk result (λ change. IsNamed attributes.now (record_seen record.now) names.old names.new change) }
{
    match record.kind {
        RecordKind::Mapping | RecordKind::Mapping2 => {
            mapping_change::<F>(files, record, attributes)
        }
        RecordKind::Command => command_change(names, record, attributes),
        RecordKind::Fork => Ok(Some(Change::Started(Task::parse(record, attributes)?))),
        RecordKind::Exit => Ok(Some(Change::Ended(Task::parse(record, attributes)?))),
        _ => Ok(None),
    }
}
