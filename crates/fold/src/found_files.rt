//! The files that a recording names, as the system gives them.

ghost use Rattle.std.specs.Prelude.{◌≡◌};
ghost use Rattle.std.specs.Option.{option_copied};
ghost use Rattle.fold.specs.Files.{is_machine, is_other};

use crate::progress::clear_line;
use crate::recording::NamedBuildId;
use backtrace_text::push_name;
use elf_files::{ElfFile, Machine, SectionKind};
use fold_stacks::{RecordedFiles, SampledFiles};
use function_index::has_symbol_table;
use perf_files::Architecture;
use regular_files::{build_id_path, elf_bytes};
use sample_stacks::FileBytes;
use std::alloc::{AllocError, Global};
use std::collections::HashMap;
use std::{env, fs, str};

/// Where files are looked for.
#[derive(Debug, Drop)]
pub(crate) struct Folders {
    /// The folder that the names of files are below, or no text.
    pub(crate) root: String,
    /// The folders of files by their build ids, the first of which counts.
    pub(crate) by_build_id: Vec<String>,
}

// What was found of a file.
#[derive(Clone, Copy, Debug)]
struct FoundFile {
    // The file with the code.
    code: Option<&'static [u8]>,
    // The file with the symbols.
    symbols: Option<&'static [u8]>,
    // Whether there was a file that is another.
    has_other: bool,
}

/// The files that a recording names.
#[derive(Drop)]
pub(crate) struct FoundFiles<'r> {
    rt: &'r HostRuntime,
    folders: Folders,
    machine: Architecture,
    build_ids: Vec<NamedBuildId>,
    recorded: RecordedFiles,
    found: HashMap<u32, FoundFile>,
    /// How many files weren't found.
    pub(crate) missing: u64,
}

// The name of the kernel in a recording.
const KERNEL: &[u8] = b"[kernel.kallsyms]";

// The folder where distributions have debug files.
const DEBUG_FOLDER: &str = "/usr/lib/debug/.build-id";

/// The folders of files by their build ids: the one that was asked for, that of distributions, and perf's own.
pub(crate) fn folders_of(
    rt: &HostRuntime,
    root: &str,
    build_ids: Option<&str>,
) -> Result<Folders, AllocError> {
    let alloc = rt.alloc();
    let mut by_build_id = Vec::new(alloc);
    if let Some(folder) = build_ids {
        by_build_id.push(String::from_str(alloc, folder)?)?;
    }
    by_build_id.push(String::from_str(alloc, DEBUG_FOLDER)?)?;
    if let Ok(home) = env::var(rt, "HOME") {
        by_build_id.push(format!(in alloc; "{home}/.debug/.build-id")?)?;
    }
    Ok(Folders {
        root: String::from_str(alloc, root)?,
        by_build_id,
    })
}

// Whether a file has code, and not only what debuggers read.
fn has_code(elf: &ElfFile<'_>) -> bool {
    match elf.section_named(b".text") {
        Ok(Some(section)) => !matches!(section.kind, SectionKind::NoBits),
        _ => true,
    }
}

// Whether a machine is that of a recording.
fn is_machine(recorded: Architecture, machine: Machine) -> bool
    ensures { result ≡ is_machine recorded machine }
{
    match recorded {
        Architecture::X86_64 => matches!(machine, Machine::X86_64),
        Architecture::Aarch64 => matches!(machine, Machine::Aarch64),
    }
}

// Whether a file with a build id is another than the one with a recorded build id: both are known, and differ.
fn is_other(id: Option<&[u8]>, recorded: &[u8]) -> bool
    ensures { result ≡ is_other (option_copied id.entry) recorded.now }
{
    match id {
        Some(id) => !recorded.is_empty() && id != recorded,
        None => false,
    }
}

// The build id of a file.
fn build_id_of<'a>(elf: &ElfFile<'a>) -> Option<&'a [u8]> {
    match elf.build_id() {
        Ok(id) => id,
        Err(_) => None,
    }
}

// What a file has, if it is the one that was recorded.
#[derive(Clone, Copy, Debug)]
struct FileParts {
    has_symbols: bool,
    has_code: bool,
}

// What a file with these bytes has: none if it is another than the one that was recorded.
fn parts_of(bytes: &[u8], machine: Architecture, build_id: &[u8]) -> Option<FileParts> {
    let Ok(elf) = ElfFile::parse(bytes) else {
        return None;
    };
    if !is_machine(machine, elf.machine()) || is_other(build_id_of(&elf), build_id) {
        return None;
    }
    Some(FileParts {
        has_symbols: has_symbol_table(&elf),
        has_code: has_code(&elf),
    })
}

impl FoundFile {
    // Takes a file that was read, if it is the one that was recorded.
    fn take(&mut self, bytes: Vec<u8>, machine: Architecture, build_id: &[u8]) {
        let Some(parts) = parts_of(bytes.as_slice(), machine, build_id) else {
            self.has_other = true;
            return;
        };
        let bytes: &'static [u8] = bytes.leak();
        if self.symbols.is_none() && parts.has_symbols {
            self.symbols = Some(bytes);
        }
        if self.code.is_none() && parts.has_code {
            self.code = Some(bytes);
        }
    }
}

// Says something of a file on standard error, if that can be written.
fn say_of_file(rt: &HostRuntime, name: &[u8], what: &str) -> Result<(), AllocError> {
    let mut shown = Vec::new(rt.alloc());
    push_name(rt.alloc(), &mut shown, name)?;
    if let Ok(shown) = str::from_utf8(shown.as_slice()) {
        let _ = clear_line(rt);
        let _ = eprintln!(rt; "fold: {shown}: {what}");
    }
    Ok(())
}

impl<'r> FoundFiles<'r> {
    /// No files yet, of a recording with these build ids.
    pub(crate) fn new(
        rt: &'r HostRuntime,
        folders: Folders,
        machine: Architecture,
        build_ids: Vec<NamedBuildId>,
    ) -> Self {
        FoundFiles {
            rt,
            folders,
            machine,
            build_ids,
            recorded: RecordedFiles::new(rt.alloc()),
            found: HashMap::new(rt.alloc()),
            missing: 0,
        }
    }

    // The build id that the recording has of a file of this name.
    fn build_id_named(&self, name: &[u8]) -> &[u8] {
        for known in &self.build_ids {
            if known.name.as_slice() == name {
                return known.build_id.as_slice();
            }
        }
        &[]
    }

    // Looks for a file below the folders of build ids.
    fn find_by_id(&self, found: &mut FoundFile, build_id: &[u8]) -> Result<(), AllocError> {
        let alloc = self.rt.alloc();
        for folder in &self.folders.by_build_id {
            for ending in ["", ".debug", "/elf", "/vdso"] {
                let path = build_id_path(alloc, folder.as_str(), build_id, ending)?;
                if let Ok(Some(bytes)) = elf_bytes(self.rt, path.as_str()) {
                    found.take(bytes, self.machine, build_id);
                }
            }
        }
        Ok(())
    }

    // The list of the symbols of a kernel with a build id.
    fn find_kernel_list(&self, build_id: &[u8]) -> Result<Option<&'static [u8]>, AllocError> {
        for folder in &self.folders.by_build_id {
            let path = build_id_path(self.rt.alloc(), folder.as_str(), build_id, "/kallsyms")?;
            if let Ok(list) = fs::read(self.rt, path.as_str()) {
                return Ok(Some(list.leak()));
            }
        }
        Ok(None)
    }

    // Looks for a file by its name.
    fn find_by_name(
        &self,
        found: &mut FoundFile,
        name: &[u8],
        build_id: &[u8],
    ) -> Result<(), AllocError> {
        let Ok(name) = str::from_utf8(name) else {
            return Ok(());
        };
        let root = &self.folders.root;
        let path = format!(in self.rt.alloc(); "{root}{name}")?;
        if let Ok(Some(bytes)) = elf_bytes(self.rt, path.as_str()) {
            found.take(bytes, self.machine, build_id);
        }
        Ok(())
    }

    // Looks for a file.
    fn find(&self, file: u32) -> Result<FoundFile, AllocError> {
        let mut found = FoundFile {
            code: None,
            symbols: None,
            has_other: false,
        };
        let Some(recorded) = self.recorded.get(file) else {
            return Ok(found);
        };
        let name = recorded.name.as_slice();
        let build_id = recorded.build_id.as_slice();
        if !build_id.is_empty() {
            self.find_by_id(&mut found, build_id)?;
        }
        if found.code.is_none() && name.starts_with(b"/") {
            self.find_by_name(&mut found, name, build_id)?;
        }
        Ok(found)
    }

    // Says of a file that it is missing, if it is one.
    fn say_if_missing(&mut self, file: u32, found: FoundFile) -> Result<(), AllocError> {
        let name = self.name_of(file);
        if found.code.is_some() || !name.starts_with(b"/") || name.starts_with(b"//") {
            return Ok(());
        }
        let why = if found.has_other {
            "another file than the recorded one"
        } else {
            "not found"
        };
        say_of_file(self.rt, name, why)?;
        self.missing = self.missing.saturating_add(1);
        Ok(())
    }

    // What was found of a file, which is looked for once.
    fn found(&mut self, file: u32) -> Result<FoundFile, AllocError> {
        if let Some(found) = self.found.get(&file).copied() {
            return Ok(found);
        }
        let found = self.find(file)?;
        self.found.insert(file, found)?;
        self.say_if_missing(file, found)?;
        Ok(found)
    }
}

impl FileBytes for FoundFiles<'_> {
    fn bytes_of(&mut self, file: u32) -> Result<Option<&'static [u8]>, AllocError> {
        Ok(self.found(file)?.code)
    }
}

impl SampledFiles for FoundFiles<'_> {
    fn number_of(&mut self, name: &[u8], build_id: &[u8]) -> Result<u32, AllocError> {
        if !build_id.is_empty() {
            return self.recorded.number_of(name, build_id);
        }
        let build_id = self.build_id_named(name).to_vec(self.rt.alloc())?;
        self.recorded.number_of(name, build_id.as_slice())
    }

    fn name_of(&self, file: u32) -> &[u8] {
        match self.recorded.get(file) {
            Some(recorded) => recorded.name.as_slice(),
            None => &[],
        }
    }

    fn symbols_of(&mut self, file: u32) -> Result<Option<&'static [u8]>, AllocError> {
        let found = self.found(file)?;
        Ok(found.symbols.or(found.code))
    }

    fn kernel_list(&mut self) -> Result<Option<&'static [u8]>, AllocError> {
        let build_id = self.build_id_named(KERNEL);
        if build_id.is_empty() {
            return Ok(None);
        }
        self.find_kernel_list(build_id)
    }
}
