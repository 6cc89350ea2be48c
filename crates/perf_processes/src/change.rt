//! What changes processes.

ghost use Rattle.std.specs.Prelude.{◌≡◌};
ghost use Rattle.perf_processes.specs.Changes.{contains, is_of, is_of_thread};

use perf_files::{Task, ThreadId};

/// A file, or a part of one, that a process has mapped.
#[derive(Debug, Clone, Copy, PartialEq, Eq)]
pub struct MappedFile {
    /// The process.
    pub pid: u32,
    /// The first address.
    pub address: u64,
    /// How many addresses there are.
    pub size: u64,
    /// Where in the file the byte at the first address is, in bytes.
    pub offset: u64,
    /// The file, by a number that the caller gives it.
    pub file: u32,
}

/// A thread, and what it is called.
#[derive(Debug, Clone, Copy, PartialEq, Eq)]
pub struct ThreadName {
    /// The thread.
    pub thread: ThreadId,
    /// Its name, by a number that the caller gives it; none if it isn't known.
    pub name: Option<u32>,
}

/// What a record says that changes.
#[derive(Debug, Clone, Copy, PartialEq, Eq)]
pub enum Change {
    /// A process mapped a file (`PERF_RECORD_MMAP`, `PERF_RECORD_MMAP2`).
    Mapped(MappedFile),
    /// A thread is called so (`PERF_RECORD_COMM`).
    Named(ThreadName),
    /// A thread's process runs another program from now on, and is called so (`PERF_RECORD_COMM`, of an `execve`).
    Executed(ThreadName),
    /// A thread started, of the process of the one that started it or of a new one (`PERF_RECORD_FORK`).
    Started(Task),
    /// A thread ended (`PERF_RECORD_EXIT`).
    Ended(Task),
}

impl MappedFile {
    /// Whether it is a process's and has an address.
    pub fn contains(&self, pid: u32, address: u64) -> bool
        ensures { result ≡ contains pid address self.now }
    {
        self.pid == pid && address >= self.address && address - self.address < self.size
    }
}

impl MappedFile {
    ghost use Rattle.perf_processes.specs.Processes.{copied_to};

    // The same mapping of another process.
    pub(crate) fn copied_to(&self, pid: u32) -> Self
        ensures { result ≡ copied_to pid self.now }
    {
        MappedFile {
            pid,
            address: self.address,
            size: self.size,
            offset: self.offset,
            file: self.file,
        }
    }
}

impl ThreadName {
    // Whether it is of a process.
    pub(crate) fn is_of(&self, pid: u32) -> bool
        ensures { result ≡ is_of pid self.now }
    {
        self.thread.pid == pid
    }

    // Whether it is of a thread.
    pub(crate) fn is_of_thread(&self, thread: ThreadId) -> bool
        ensures { result ≡ is_of_thread thread self.now }
    {
        self.thread.pid == thread.pid && self.thread.tid == thread.tid
    }
}
