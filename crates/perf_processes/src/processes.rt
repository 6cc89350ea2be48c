//! Processes over time.

ghost use Rattle.std.specs.Prelude.{◌≡◌, IfOk, OnOk};
ghost use Rattle.std.specs.List.{filter};
ghost use Rattle.perf_processes.specs.Processes.{after_change, end_thread, is_mapped_by, mapping_at, name_of, no_processes, parent_thread, start_process, start_thread, task_thread, with_name};

use crate::change::{Change, MappedFile, ThreadName};
use crate::lists::{
    copies_of, drop_covered, drop_mapped, drop_thread, drop_threads, has_process, mapping_at,
    mappings_of, name_of,
};
use perf_files::{Task, ThreadId};
use std::alloc::{AllocError, Global};
use std::marker::Model;

/// Processes, by the changes so far: what they have mapped, and what their threads are called.
#[derive(Debug, Drop)]
pub struct Processes {
    mappings: Vec<MappedFile>,
    threads: Vec<ThreadName>,
}

/// They are two lists.
impl Model for Processes {
    ghost use Rattle.perf_processes.specs.Processes.{ProcessState};

    ghost Value = { ProcessState };

    ghost view = { λ processes. record { mappings = processes.mappings.items; threads = processes.threads.items } };
}

// The thread that a task is.
fn task_thread(task: Task) -> ThreadId
    ensures { result ≡ task_thread task }
{
    ThreadId {
        pid: task.pid,
        tid: task.tid,
    }
}

// The thread that started it.
fn parent_thread(task: Task) -> ThreadId
    ensures { result ≡ parent_thread task }
{
    ThreadId {
        pid: task.parent_pid,
        tid: task.parent_tid,
    }
}

// Calls a thread so.
fn set_name(threads: &mut Vec<ThreadName>, named: ThreadName) -> Result<(), AllocError>
    ensures { OnOk result (threads.new.items ≡ with_name named threads.old.items) }
{
    drop_thread(threads, named.thread);
    threads.push(named)?;
    Ok(())
}

impl Processes {
    /// No processes.
    pub fn new(alloc: Global) -> Self
        ensures { result ≡ no_processes }
    {
        Processes {
            mappings: Vec::new(alloc),
            threads: Vec::new(alloc),
        }
    }

    // A new thread of a process that was there.
    fn start_thread(&mut self, task: Task) -> Result<(), AllocError>
        ensures { OnOk result (self.new ≡ start_thread task self.old) }
    {
        let name = name_of(self.threads.as_slice(), parent_thread(task));
        let thread = task_thread(task);
        set_name(&mut self.threads, ThreadName { thread, name })
    }

    // A new process.
    fn start_process(&mut self, task: Task) -> Result<(), AllocError>
        ensures { OnOk result (self.new ≡ start_process task self.old) }
    {
        let name = name_of(self.threads.as_slice(), parent_thread(task));
        let thread = task_thread(task);
        drop_mapped(&mut self.mappings, task.pid);
        let alloc = *self.mappings.allocator();
        let copies = copies_of(alloc, self.mappings.as_slice(), task.parent_pid, task.pid)?;
        self.mappings.extend_from_slice(copies.as_slice())?;
        drop_threads(&mut self.threads, task.pid);
        self.threads.push(ThreadName { thread, name })?;
        Ok(())
    }

    // The end of a thread.
    fn end_thread(&mut self, task: Task)
        ensures { self.new ≡ end_thread task self.old }
    {
        drop_thread(&mut self.threads, task_thread(task));
        if !has_process(self.threads.as_slice(), task.pid) {
            drop_mapped(&mut self.mappings, task.pid);
        }
    }

    /// Makes a change. Fails if memory is refused; then nothing is said of what is left.
    #[tactic(auto, unfolding(crate::specs::Processes::after_change))]
    pub fn apply(&mut self, change: Change) -> Result<(), AllocError>
        ensures { OnOk result (self.new ≡ after_change change self.old) }
    {
        match change {
            Change::Mapped(mapped) => {
                drop_covered(&mut self.mappings, mapped);
                self.mappings.push(mapped)?;
                Ok(())
            }
            Change::Named(named) => set_name(&mut self.threads, named),
            Change::Executed(named) => {
                drop_mapped(&mut self.mappings, named.thread.pid);
                set_name(&mut self.threads, named)
            }
            Change::Started(task) => {
                if task.pid == task.parent_pid {
                    self.start_thread(task)
                } else {
                    self.start_process(task)
                }
            }
            Change::Ended(task) => {
                self.end_thread(task);
                Ok(())
            }
        }
    }

    /// What a process has mapped at an address.
    pub fn mapping_at(&self, pid: u32, address: u64) -> Option<MappedFile>
        ensures { result ≡ mapping_at pid address self.now.mappings }
    {
        mapping_at(self.mappings.as_slice(), pid, address)
    }

    /// All that a process has mapped, the latest last.
    pub fn mappings_of(&self, alloc: Global, pid: u32) -> Result<Vec<MappedFile>, AllocError>
        ensures { IfOk result (λ found. found.items ≡ filter (is_mapped_by pid) self.now.mappings) }
    {
        mappings_of(alloc, self.mappings.as_slice(), pid)
    }

    /// What a thread is called.
    pub fn name_of(&self, thread: ThreadId) -> Option<u32>
        ensures { result ≡ name_of thread self.now.threads }
    {
        name_of(self.threads.as_slice(), thread)
    }
}
