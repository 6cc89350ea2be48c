//! Names of processes, their starts and ends, and what was lost.

ghost use Rattle.std.specs.Prelude.{◌≡◌};
ghost use Rattle.perf_files.specs.Fields.{seen, taken};
ghost use Rattle.perf_files.specs.Tasks.{command_fields, command_of, lost_of, task_fields, task_of};
ghost use Rattle.perf_files.specs.RecordViews.{record_seen};

use crate::attributes::Attributes;
use crate::error::FieldError;
use crate::field::Field;
use crate::fields::{Fields, ThreadId};
use crate::record::{Record, RecordKind};
use crate::trailer::body_of;

/// The name of a thread (`PERF_RECORD_COMM`).
#[derive(Debug, Clone, Copy, PartialEq, Eq)]
pub struct Command<'a> {
    /// The thread.
    pub thread: ThreadId,
    /// Whether it runs another program from now on (`execve`).
    pub exec: bool,
    /// The name.
    pub name: &'a [u8],
}

/// The start or the end of a thread (`PERF_RECORD_FORK`, `PERF_RECORD_EXIT`).
#[derive(Debug, Clone, Copy, PartialEq, Eq)]
pub struct Task {
    /// The thread's process.
    pub pid: u32,
    /// The process of the thread that started it.
    pub parent_pid: u32,
    /// The thread.
    pub tid: u32,
    /// The thread that started it.
    pub parent_tid: u32,
    /// When, in nanoseconds.
    pub time: u64,
}

// The bit of `misc` for a new program.
const EXEC: u16 = 0x2000;

impl<'a> Fields<'a> {
    ghost use Rattle.perf_files.specs.TaskViews.{command_seen};

    // The fields of a name.
    #[tactic(auto, unfolding(crate::specs::Tasks::command_fields))]
    fn command(&mut self, misc: u16) -> Result<Command<'a>, FieldError>
        ensures { taken command_seen result self.new.left.now ≡ command_fields misc self.old.left.now }
    {
        let thread = self.thread(Field::Process)?;
        let name = self.name();
        Ok(Command {
            thread,
            exec: misc / EXEC % 2 == 1,
            name,
        })
    }

    // The fields of a start or an end.
    #[tactic(auto, unfolding(crate::specs::Tasks::task_fields))]
    fn task(&mut self) -> Result<Task, FieldError>
        ensures { taken (λ task. task) result self.new.left.now ≡ task_fields self.old.left.now }
    {
        let pid = self.half(Field::Process)?;
        let parent_pid = self.half(Field::Process)?;
        let tid = self.half(Field::Process)?;
        let parent_tid = self.half(Field::Process)?;
        let time = self.word(Field::TaskTime)?;
        Ok(Task {
            pid,
            parent_pid,
            tid,
            parent_tid,
            time,
        })
    }
}

impl<'a> Command<'a> {
    ghost use Rattle.perf_files.specs.TaskViews.{command_seen};

    /// The name that a record says, by the attributes of its event. Fails with the first field that goes past the end.
    #[tactic(auto, unfolding(crate::specs::Tasks::command_of))]
    pub fn parse(found: &Record<'a>, attributes: &Attributes) -> Result<Self, FieldError>
        ensures { seen command_seen result ≡ command_of attributes.now (record_seen found.now) }
    {
        let body = body_of(found.payload, attributes)?;
        let mut fields = Fields { left: body };
        fields.command(found.misc)
    }
}

impl Task {
    /// The start or the end that a record says, by the attributes of its event. Fails with the first field that goes past the end.
    #[tactic(auto, unfolding(crate::specs::Tasks::task_of))]
    pub fn parse(found: &Record<'_>, attributes: &Attributes) -> Result<Self, FieldError>
        ensures { result ≡ task_of attributes.now (record_seen found.now) }
    {
        let body = body_of(found.payload, attributes)?;
        let mut fields = Fields { left: body };
        fields.task()
    }
}

/// How many records (`PERF_RECORD_LOST`) or samples (`PERF_RECORD_LOST_SAMPLES`) a record says that were lost. Fails if it goes past the
/// end.
#[tactic(auto, unfolding(crate::specs::Tasks::lost_of))]
pub fn lost_of(found: &Record<'_>) -> Result<u64, FieldError>
    ensures { result ≡ lost_of (record_seen found.now) }
{
    let mut fields = Fields {
        left: found.payload,
    };
    if let RecordKind::Lost = found.kind {
        let _id = fields.word(Field::LostCount)?;
    }
    fields.word(Field::LostCount)
}
