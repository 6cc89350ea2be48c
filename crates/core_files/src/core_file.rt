//! A core file.

ghost use Rattle.std.specs.Prelude.{◌≡◌, IfOk};
ghost use Rattle.core_files.specs.Auxv.{auxiliary_value};
ghost use Rattle.std.specs.Option.{option_copied, option_map};
ghost use Rattle.core_files.specs.CoreFiles.{core_in_parts, core_of, is_cut_off};
ghost use Rattle.core_files.specs.HeaderViews.{IsCore};
ghost use Rattle.core_files.specs.NoteViews.{mappings_of};
ghost use Rattle.core_files.specs.ProcessInfo.{process_info};
ghost use Rattle.core_files.specs.ProcessViews.{process_seen};
ghost use Rattle.core_files.specs.RangeViews.{ranges_seen};
ghost use Rattle.core_files.specs.Refusals.{Gives};
ghost use Rattle.core_files.specs.SegmentViews.{core_read, parts_seen};
ghost use Rattle.core_files.specs.SignalInfo.{signal_info};

use crate::auxv::read_auxiliary;
use crate::error::CoreError;
use crate::mapped_files::MappedFile;
use crate::memory::Memory;
use crate::memory_range::MemoryRange;
use crate::notes::{NT_AUXV, NT_PRPSINFO, NT_SIGINFO, descriptor_of, files_of, threads_of};
use crate::process_info::{ProcessInfo, read_process_info};
use crate::ranges::any_loses;
use crate::segment_bytes::SegmentBytes;
use crate::segments::{core_notes, loaded_ranges};
use crate::signal_info::{SignalInfo, read_signal_info};
use crate::thread::Thread;
use elf_files::{ElfFile, FileKind, Machine};
use std::alloc::Global;

/// A core file of Linux.
#[derive(Debug, Drop)]
pub struct CoreFile<'a> {
    pub(crate) machine: Machine,
    pub(crate) segments: Vec<MemoryRange<'a>>,
    pub(crate) threads: Vec<Thread>,
    pub(crate) mapped_files: Vec<MappedFile<'a>>,
    pub(crate) auxv: &'a [u8],
    pub(crate) siginfo: &'a [u8],
    pub(crate) prpsinfo: &'a [u8],
}

// The file, if it is a core.
fn core_header<'a>(bytes: &'a [u8]) -> Result<ElfFile<'a>, CoreError>
    ensures { IsCore result bytes.now }
{
    let elf = ElfFile::parse(bytes)?;
    let FileKind::Core = elf.kind() else {
        return Err(CoreError::NotCore);
    };
    Ok(elf)
}

impl<'a> CoreFile<'a> {
    ghost use Rattle.core_files.specs.CoreViews.{IsOfEachWith, contents_of};
    ghost use Rattle.core_files.specs.MemoryViews.{segments_of, files_of};

    // The core file that begins with these bytes, and whose segments were read apart or are in them too.
    fn read(
        alloc: Global,
        bytes: &'a [u8],
        parts: Option<&'a [SegmentBytes]>,
    ) -> Result<Self, CoreError>
        ensures { Gives contents_of result (core_read (option_copied parts.entry) bytes.now) }
    {
        let elf = core_header(bytes)?;
        let segments = loaded_ranges(alloc, &elf, parts)?;
        let notes = core_notes(alloc, &elf, parts)?;
        let threads = threads_of(alloc, elf.machine(), &notes)?;
        let mapped_files = files_of(alloc, &notes)?;
        Ok(CoreFile {
            machine: elf.machine(),
            segments,
            threads,
            mapped_files,
            auxv: descriptor_of(&notes, NT_AUXV),
            siginfo: descriptor_of(&notes, NT_SIGINFO),
            prpsinfo: descriptor_of(&notes, NT_PRPSINFO),
        })
    }

    /// The core file with these bytes, which are read in place. Fails with the first refusal of the header, the program headers, the
    /// notes, the threads and the mapped files, or if memory is refused. Loaded segments may be cut off.
    pub fn parse(alloc: Global, bytes: &'a [u8]) -> Result<Self, CoreError>
        ensures { Gives contents_of result (core_of bytes.now) }
    {
        CoreFile::read(alloc, bytes, None)
    }

    /// The core file that begins with the bytes of `head`, which its program headers are in. `parts` has the bytes of each loaded
    /// segment and of each segment of notes at the index of its program header. Fails as `parse` does, and with `Truncated` if a
    /// program header isn't in `head`, if there are more bytes of a segment than its program header says or fewer of notes, or if
    /// notes begin with zeros that aren't kept.
    pub fn parse_in_parts(
        alloc: Global,
        head: &'a [u8],
        parts: &'a [SegmentBytes],
    ) -> Result<Self, CoreError>
        ensures parts { Gives contents_of result (core_in_parts head.now (parts_seen parts.now)) }
        ensures whole { IfOk result (IsOfEachWith head.now (parts_seen parts.now)) }
    {
        CoreFile::read(alloc, head, Some(parts))
    }

    /// The machine.
    pub fn machine(&self) -> Machine
        ensures { result ≡ (contents_of self.now).machine }
    {
        self.machine
    }

    /// Whether the core was cut off, as where a limit of its size was met: some bytes of its loaded segments are lost, and none of
    /// these is a part of the memory.
    pub fn is_cut_off(&self) -> bool
        ensures { result ≡ is_cut_off (contents_of self.now) }
    {
        any_loses(self.segments.as_slice())
    }

    /// The loaded segments, in the order of the program headers.
    pub fn segments(&self) -> &[MemoryRange<'a>]
        ensures { ranges_seen result.now ≡ (contents_of self.now).segments }
    {
        self.segments.as_slice()
    }

    /// The threads, in the order of their `NT_PRSTATUS`; the first is the one that got the signal.
    pub fn threads(&self) -> &[Thread]
        ensures { result.now ≡ (contents_of self.now).threads }
    {
        self.threads.as_slice()
    }

    /// The mapped files, in the order of `NT_FILE`; none if there is none.
    pub fn mapped_files(&self) -> &[MappedFile<'a>]
        ensures { mappings_of result.now ≡ (contents_of self.now).files }
    {
        self.mapped_files.as_slice()
    }

    /// The value of the first entry of a type (`AT_*`) in the auxiliary vector, `NT_AUXV`.
    pub fn auxiliary(&self, kind: u64) -> Option<u64>
        ensures { result ≡ auxiliary_value (contents_of self.now).auxv kind }
    {
        read_auxiliary(self.auxv, kind)
    }

    /// The signal that ended the process, as the first `NT_SIGINFO` says: Linux writes one, and gdb one for each thread, of which the
    /// first is that of the thread that got the signal.
    pub fn signal_info(&self) -> Option<SignalInfo>
        ensures { result ≡ signal_info (contents_of self.now).siginfo }
    {
        read_signal_info(self.siginfo)
    }

    /// What the process runs, as the first `NT_PRPSINFO` says.
    pub fn process_info(&self) -> Option<ProcessInfo<'a>>
        ensures { option_map process_seen result ≡ process_info (contents_of self.now).prpsinfo }
    {
        read_process_info(self.prpsinfo)
    }

    /// The memory, with what the mapped files have of it, as `MappedFile::range` gives it.
    pub fn memory<'m>(&'m self, files: &'m [MemoryRange<'a>]) -> Memory<'m, 'a>
        ensures segments { segments_of result ≡ (contents_of self.now).segments }
        ensures files { files_of result ≡ ranges_seen files.now }
    {
        Memory::new(self.segments.as_slice(), files)
    }
}
