//! What the notes of a core say.

ghost use Rattle.std.specs.Prelude.{◌≡◌, ◌≤◌, ◌<◌, ◌+◌, codes, length, drop, Ok, Err, IfOk, IfErr, OnSome, Some};
ghost use Rattle.elf_files.specs.NoteViews.{note_seen};
ghost use Rattle.core_files.specs.FileViews.{count_left, files_left, next_and_left};
ghost use Rattle.core_files.specs.MappedFiles.{mapped_files};
ghost use Rattle.core_files.specs.Notes.{is_prstatus, is_file_table, is_pac_mask, prstatus_on, masks_of, thread_of, thread_at, threads_of, files_of, descriptor_of, is_note};
ghost use Rattle.core_files.specs.NoteViews.{notes_seen, mappings_of};
ghost use Rattle.core_files.specs.PacMask.{pac_masks};
ghost use Rattle.core_files.specs.Refusals.{Appends, Gives, by_note, result_and_then};

use crate::error::CoreError;
use crate::lists::push;
use crate::mapped_files::{MappedFile, MappedFiles};
use crate::pac_mask::{PointerAuthenticationMasks, read_pac_mask};
use crate::prstatus::{Prstatus, read_prstatus_aarch64, read_prstatus_x86_64};
use crate::thread::Thread;
use elf_files::{Machine, Note};
use std::alloc::Global;

// The names of notes: of the kernel's own, and of the registers of an architecture.
const CORE: &[u8] = b"CORE";

const LINUX: &[u8] = b"LINUX";

// Their types (`include/uapi/linux/elf.h`).
const NT_PRSTATUS: u32 = 1;

pub(crate) const NT_PRPSINFO: u32 = 3;

pub(crate) const NT_AUXV: u32 = 6;

pub(crate) const NT_SIGINFO: u32 = 0x5349_4749;

const NT_FILE: u32 = 0x4649_4c45;

const NT_ARM_PAC_MASK: u32 = 0x406;

// Whether a note is the status of a thread.
fn is_prstatus(note: &Note<'_>) -> bool
    ensures { result ≡ is_prstatus (note_seen note.now) }
{
    note.name == CORE && note.kind == NT_PRSTATUS
}

// Whether it is the kernel's own, of a type.
fn is_kind(note: &Note<'_>, kind: u32) -> bool
    ensures { result ≡ is_note (codes "CORE") kind (note_seen note.now) }
{
    note.name == CORE && note.kind == kind
}

// Whether it has the mapped files.
fn is_file_table(note: &Note<'_>) -> bool
    ensures { result ≡ is_file_table (note_seen note.now) }
{
    note.name == CORE && note.kind == NT_FILE
}

// Whether it has masks of pointer authentication.
fn is_pac_mask(note: &Note<'_>) -> bool
    ensures { result ≡ is_pac_mask (note_seen note.now) }
{
    note.name == LINUX && note.kind == NT_ARM_PAC_MASK
}

// The status of a thread, by the note with a number.
fn status_of(machine: Machine, number: usize, note: &Note<'_>) -> Result<Prstatus, CoreError>
    ensures { result ≡ by_note number (prstatus_on machine note.now.descriptor.now) }
{
    let status = match machine {
        Machine::X86_64 => read_prstatus_x86_64(note.descriptor),
        Machine::Aarch64 => read_prstatus_aarch64(note.descriptor),
    };
    match status {
        Ok(status) => Ok(status),
        Err(error) => Err(CoreError::Descriptor(number as u64, error)),
    }
}

// The masks of a note.
fn masks_at(number: usize, note: &Note<'_>) -> Result<Option<PointerAuthenticationMasks>, CoreError>
    ensures { result ≡ result_and_then (by_note number (pac_masks note.now.descriptor.now)) (λ masks. Ok (Some masks)) }
{
    match read_pac_mask(note.descriptor) {
        Ok(masks) => Ok(Some(masks)),
        Err(error) => Err(CoreError::Descriptor(number as u64, error)),
    }
}

// The masks of the thread whose other notes begin with this number.
fn masks_of(
    notes: &[Note<'_>],
    first: usize,
) -> Result<Option<PointerAuthenticationMasks>, CoreError>
    ensures { result ≡ masks_of first (drop first (notes_seen notes.now)) }
{
    for number in first..notes.len() {
        let note = notes[number];
        if is_prstatus(&note) {
            return Ok(None);
        }
        if is_pac_mask(&note) {
            return masks_at(number, &note);
        }
    }
    Ok(None)
}

// The thread of an `NT_PRSTATUS`, which has a number among the notes.
fn thread_of(
    machine: Machine,
    number: usize,
    note: &Note<'_>,
    notes: &[Note<'_>],
) -> Result<Thread, CoreError>
    requires { number < length notes.now }
    ensures { result ≡ thread_of machine number (note_seen note.now) (drop (number + 1) (notes_seen notes.now)) }
{
    let status = status_of(machine, number, note)?;
    let masks = masks_of(notes, number + 1)?;
    Ok(Thread {
        id: status.pid,
        signal: status.signal,
        registers: status.registers,
        pointer_authentication_masks: masks,
    })
}

// Adds the thread of the note with a number, if it is one.
fn push_thread(
    threads: &mut Vec<Thread>,
    machine: Machine,
    number: usize,
    note: &Note<'_>,
    notes: &[Note<'_>],
) -> Result<(), CoreError>
    requires { number < length notes.now }
    ensures { Appends threads.old.items threads.new.items result
        (thread_at machine number (note_seen note.now) (drop (number + 1) (notes_seen notes.now))) }
{
    if !is_prstatus(note) {
        return Ok(());
    }
    let thread = thread_of(machine, number, note, notes)?;
    push(threads, thread)?;
    Ok(())
}

// The threads.
pub(crate) fn threads_of(
    alloc: Global,
    machine: Machine,
    notes: &[Note<'_>],
) -> Result<Vec<Thread>, CoreError>
    ensures { Gives (λ threads. threads.items) result (threads_of machine 0 (notes_seen notes.now)) }
{
    let mut threads = Vec::new(alloc);
    for number in 0..notes.len() {
        let note = notes[number];
        push_thread(&mut threads, machine, number, &note, notes)?;
    }
    Ok(threads)
}

// The next file of the note with a number.
fn next_file<'a>(
    number: usize,
    files: &mut MappedFiles<'a>,
) -> Result<Option<MappedFile<'a>>, CoreError>
    ensures ok { IfOk result (λ next. files_left files.old ≡ next_and_left next (files_left files.new)) }
    ensures err { IfErr result (λ e. by_note number (files_left files.old) ≡ Err e) }
    ensures less { IfOk result (λ next. OnSome next (count_left files.new < count_left files.old)) }
{
    match files.next() {
        Ok(next) => Ok(next),
        Err(error) => Err(CoreError::Descriptor(number as u64, error)),
    }
}

// The files of the `NT_FILE` with a number.
fn read_files<'a>(
    alloc: Global,
    number: usize,
    descriptor: &'a [u8],
) -> Result<Vec<MappedFile<'a>>, CoreError>
    ensures { Gives (λ files. mappings_of files.items) result (by_note number (mapped_files descriptor.now)) }
{
    let mut left = match MappedFiles::new(descriptor) {
        Ok(left) => left,
        Err(error) => return Err(CoreError::Descriptor(number as u64, error)),
    };
    let mut files = Vec::new(alloc);
    'files: while let Some(file) = next_file(number, &mut left)? {
        push(&mut files, file)?;
    }
    Ok(files)
}

// The mapped files.
pub(crate) fn files_of<'a>(
    alloc: Global,
    notes: &[Note<'a>],
) -> Result<Vec<MappedFile<'a>>, CoreError>
    ensures { Gives (λ files. mappings_of files.items) result (files_of 0 (notes_seen notes.now)) }
{
    for number in 0..notes.len() {
        let note = notes[number];
        if is_file_table(&note) {
            return read_files(alloc, number, note.descriptor);
        }
    }
    Ok(Vec::new(alloc))
}

// The descriptor of the first of the kernel's own notes of a type, without a byte if there is none.
pub(crate) fn descriptor_of<'a>(notes: &[Note<'a>], kind: u32) -> &'a [u8]
    ensures { result.now ≡ descriptor_of kind (notes_seen notes.now) }
{
    for number in 0..notes.len() {
        let note = notes[number];
        if is_kind(&note, kind) {
            return note.descriptor;
        }
    }
    &[]
}
