//! Mapped files and names that are kept, taken away and copied.

ghost use Rattle.std.specs.Prelude.{◌≡◌, IfOk, map};
ghost use Rattle.std.specs.List.{filter, find};
ghost use Rattle.std.specs.Option.{option_copied};
ghost use Rattle.perf_processes.specs.Changes.{is_of_thread};
ghost use Rattle.perf_processes.specs.Processes.{copied_to, covers, has_process, is_kept_by, is_mapped_by, is_not_of, is_not_of_thread, maps_other, mapping_at, name_of};

use crate::change::{MappedFile, ThreadName};
use perf_files::ThreadId;
use std::alloc::{AllocError, Global};

// Whether one mapping takes away all of another.
fn covers(mapped: &MappedFile, other: &MappedFile) -> bool
    ensures { result ≡ covers mapped.now other.now }
{
    if other.pid != mapped.pid || other.address < mapped.address {
        return false;
    }
    let before = other.address - mapped.address;
    before <= mapped.size && other.size <= mapped.size - before
}

// Takes away what a mapping covers.
pub(crate) fn drop_covered(all: &mut Vec<MappedFile>, mapped: MappedFile)
    ensures { all.new.items ≡ filter (is_kept_by mapped) all.old.items }
{
    all.retain(|other| !covers(&mapped, other));
}

// Takes away what a process has mapped.
pub(crate) fn drop_mapped(all: &mut Vec<MappedFile>, pid: u32)
    ensures { all.new.items ≡ filter (maps_other pid) all.old.items }
{
    all.retain(|mapped| mapped.pid != pid);
}

// Takes away a process's threads.
pub(crate) fn drop_threads(all: &mut Vec<ThreadName>, pid: u32)
    ensures { all.new.items ≡ filter (is_not_of pid) all.old.items }
{
    all.retain(|named| !named.is_of(pid));
}

// Takes away a thread.
pub(crate) fn drop_thread(all: &mut Vec<ThreadName>, thread: ThreadId)
    ensures { all.new.items ≡ filter (is_not_of_thread thread) all.old.items }
{
    all.retain(|named| !named.is_of_thread(thread));
}

// Whether there is a thread of a process.
pub(crate) fn has_process(all: &[ThreadName], pid: u32) -> bool
    ensures { result ≡ has_process pid all.now }
{
    all.iter().any(|named| named.is_of(pid))
}

// The name of a thread.
fn find_thread(all: &[ThreadName], thread: ThreadId) -> Option<&ThreadName>
    ensures { option_copied result ≡ find (is_of_thread thread) all.now }
{
    all.iter().find(|named| named.is_of_thread(thread))
}

// What a thread is called.
pub(crate) fn name_of(all: &[ThreadName], thread: ThreadId) -> Option<u32>
    ensures { result ≡ name_of thread all.now }
{
    match find_thread(all, thread) {
        Some(named) => named.name,
        None => None,
    }
}

// What a process has mapped, for another one.
pub(crate) fn copies_of(
    alloc: Global,
    all: &[MappedFile],
    parent: u32,
    pid: u32,
) -> Result<Vec<MappedFile>, AllocError>
    ensures { IfOk result (λ copies. copies.items
        ≡ map (copied_to pid) (filter (is_mapped_by parent) all.now)) }
{
    let mut copies = Vec::new(alloc);
    for mapped in all {
        if mapped.pid == parent {
            copies.push(mapped.copied_to(pid))?;
        }
    }
    Ok(copies)
}

// What a process has mapped.
pub(crate) fn mappings_of(
    alloc: Global,
    all: &[MappedFile],
    pid: u32,
) -> Result<Vec<MappedFile>, AllocError>
    ensures { IfOk result (λ found. found.items ≡ filter (is_mapped_by pid) all.now) }
{
    let mut found = Vec::new(alloc);
    for mapped in all {
        if mapped.pid == pid {
            found.push(*mapped)?;
        }
    }
    Ok(found)
}

// The last mapping of a process that has an address.
pub(crate) fn mapping_at(all: &[MappedFile], pid: u32, address: u64) -> Option<MappedFile>
    ensures { result ≡ mapping_at pid address all.now }
{
    let mut left = all.len();
    'mappings: while left > 0 {
        left -= 1;
        if all[left].contains(pid, address) {
            return Some(all[left]);
        }
    }
    None
}
