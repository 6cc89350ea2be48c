//! What threads are called.

ghost use Rattle.std.specs.Prelude.{◌≡◌, IfOk, OnOk};
ghost use Rattle.std.specs.Option.{option_copied};
ghost use Rattle.fold_stacks.specs.Comms.{EndsThread, KeepsEnded, comm_known, comm_number, comm_of, no_comms};

use crate::names::push_comm;
use folded_stacks::FrameNames;
use perf_files::ThreadId;
use perf_processes::{Change, Processes};
use std::alloc::{AllocError, Global};
use std::collections::HashMap;
use std::marker::Model;

// A thread, as a key.
#[derive(Clone, Copy, Debug, PartialEq, Eq, Hash)]
struct ThreadKey {
    pid: u32,
    tid: u32,
}

/// The names of threads, of those that ended too: samples are still taken in the kernel after that.
#[derive(Drop)]
pub(crate) struct Comms {
    /// The names.
    pub(crate) names: FrameNames,
    // What threads that ended were called.
    ended: HashMap<ThreadKey, u32>,
}

/// A clause sees the names, and the number of what each thread was called that ended.
impl Model for Comms {
    ghost use Rattle.std.specs.Prelude.{Some, map};
    ghost use Rattle.fold_stacks.specs.Comms.{CommState};

    ghost Value = { CommState };

    ghost view = { λ comms. record {
      names = comms.names;
      ended = map (λ entry. record { thread = record { pid = entry.0.pid; tid = entry.0.tid }; name = Some entry.1 }) comms.ended.entries;
    } };
}

// The key of a thread.
fn key_of(thread: ThreadId) -> ThreadKey
    ensures { result ≡ record { pid = thread.pid; tid = thread.tid } }
{
    ThreadKey {
        pid: thread.pid,
        tid: thread.tid,
    }
}

impl Comms {
    /// No names.
    pub(crate) fn new(alloc: Global) -> Self
        ensures { result ≡ no_comms }
    {
        Comms {
            names: FrameNames::new(alloc),
            ended: HashMap::new(alloc),
        }
    }

    // Keeps what a thread that ends is called.
    fn keep(&mut self, thread: ThreadId, name: Option<u32>) -> Result<(), AllocError>
        ensures names { OnOk result (self.new.names ≡ self.old.names) }
        ensures ended { OnOk result (EndsThread thread name self.old.ended self.new.ended) }
    {
        if let Some(name) = name {
            self.ended.insert(key_of(thread), name)?;
        }
        Ok(())
    }

    /// Takes that a change is about to be made: what a thread is called that ends.
    pub(crate) fn note(&mut self, processes: &Processes, change: Change) -> Result<(), AllocError>
        ensures names { OnOk result (self.new.names ≡ self.old.names) }
        ensures ended { OnOk result (KeepsEnded change processes.now self.old.ended self.new.ended) }
    {
        let Change::Ended(task) = change else {
            return Ok(());
        };
        let thread = ThreadId {
            pid: task.pid,
            tid: task.tid,
        };
        self.keep(thread, processes.name_of(thread))
    }

    // The number of what a thread is called, or was before it ended.
    fn number_of(&self, processes: &Processes, thread: ThreadId) -> Option<u32>
        ensures { result ≡ comm_number self.now processes.now thread }
    {
        match processes.name_of(thread) {
            Some(number) => Some(number),
            None => self.ended.get(&key_of(thread)).copied(),
        }
    }

    // What a thread is called, or was before it ended, if that is known.
    fn known(&self, processes: &Processes, thread: ThreadId) -> Option<&[u8]>
        ensures { option_copied result ≡ comm_known self.now processes.now thread }
    {
        match self.number_of(processes, thread) {
            Some(number) => Some(self.names.text_of(number)),
            None => None,
        }
    }

    /// What a thread is called, or was before it ended.
    pub(crate) fn comm_of(
        &self,
        alloc: Global,
        processes: &Processes,
        thread: ThreadId,
    ) -> Result<Vec<u8>, AllocError>
        ensures { IfOk result (λ comm. comm.items ≡ comm_of self.now processes.now thread) }
    {
        let mut comm = Vec::new(alloc);
        push_comm(alloc, &mut comm, self.known(processes, thread), thread.pid)?;
        Ok(comm)
    }
}
