//! The modules of each process.

ghost use Rattle.std.specs.Prelude.{◌≡◌};
ghost use Rattle.fold_stacks.specs.Concerns.{concerned};

use crate::walks::Walker;
use perf_processes::{Change, Processes};
use sample_stacks::{ProcessModules, SampleArch};
use std::alloc::{AllocError, Global};
use std::collections::HashMap;

// The modules of a process, and whether what it has mapped changed since they were taken.
#[derive(Drop)]
pub(crate) struct KnownModules {
    pub(crate) modules: ProcessModules,
    pub(crate) is_stale: bool,
}

/// The modules of each process that a sample was taken in.
#[derive(Drop)]
pub(crate) struct ModuleTable {
    known: HashMap<u32, KnownModules>,
}

// The process whose mappings a change concerns, and whether all that it had goes.
fn concerned(change: Change) -> Option<(u32, bool)>
    ensures { result ≡ concerned change }
{
    match change {
        Change::Mapped(mapped) => Some((mapped.pid, false)),
        Change::Named(_) => None,
        Change::Executed(named) => Some((named.thread.pid, true)),
        Change::Started(task) => {
            if task.pid == task.parent_pid {
                None
            } else {
                Some((task.pid, true))
            }
        }
        Change::Ended(task) => {
            if task.pid == task.tid {
                Some((task.pid, true))
            } else {
                None
            }
        }
    }
}

impl ModuleTable {
    /// No processes.
    pub(crate) fn new(alloc: Global) -> Self {
        ModuleTable {
            known: HashMap::new(alloc),
        }
    }

    /// Takes that a change was made: the modules of the process that it concerns are taken again before its next sample.
    pub(crate) fn note<A: SampleArch>(&mut self, walker: &mut Walker<A>, change: Change) {
        let Some((pid, all)) = concerned(change) else {
            return;
        };
        if all {
            if let Some(known) = self.known.remove(&pid) {
                let _ = walker.session.remove_unwinder(known.modules.unwinder());
            }
            return;
        }
        if let Some(known) = self.known.get_mut(&pid) {
            known.is_stale = true;
        }
    }

    // An unwinder for a process, with no module.
    fn start<A: SampleArch>(
        &mut self,
        alloc: Global,
        walker: &mut Walker<A>,
        pid: u32,
    ) -> Result<(), AllocError> {
        let Ok(unwinder) = walker.session.add_unwinder(alloc) else {
            return Err(AllocError);
        };
        let known = KnownModules {
            modules: ProcessModules::new(alloc, unwinder),
            is_stale: true,
        };
        self.known.insert(pid, known)?;
        Ok(())
    }

    /// The modules of a process by what it has mapped now.
    pub(crate) fn modules_of<A: SampleArch>(
        &mut self,
        alloc: Global,
        walker: &mut Walker<A>,
        processes: &Processes,
        pid: u32,
    ) -> Result<&mut ProcessModules, AllocError> {
        if !self.known.contains_key(&pid) {
            self.start::<A>(alloc, walker, pid)?;
        }
        let Some(known) = self.known.get_mut(&pid) else {
            return Err(AllocError);
        };
        if known.is_stale {
            let mappings = processes.mappings_of(alloc, pid)?;
            known
                .modules
                .remap::<A>(alloc, &mut walker.session, mappings.as_slice())?;
            known.is_stale = false;
        }
        Ok(&mut known.modules)
    }
}
