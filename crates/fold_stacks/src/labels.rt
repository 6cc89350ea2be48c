//! The names of frames by their numbers, which are looked up once for each place in a file.

ghost use Rattle.std.specs.Prelude.{◌≡◌, IfOk, IsSome, OnOk};
ghost use Rattle.fold_stacks.specs.FrameNames.{HasName, KeepsFiles, KeepsLabels, NamesIfPlaced, NamesKernel, NamesPlace};
ghost use Rattle.fold_stacks.specs.FrameNames.{address_text, known_file, no_labels, place_text};
ghost use Rattle.fold_stacks.specs.FrameTexts.{unknown_text};
ghost use Rattle.fold_stacks.specs.Kept.{KeepsNumbers, StaysKnown};
ghost use Rattle.fold_stacks.specs.KnownFiles.{file_seen, files_in};

use crate::files::SampledFiles;
use crate::frames::UserFrame;
use crate::name_table::NameTable;
use crate::names::UNKNOWN;
use crate::places::{PlaceKey, PlaceNumbers};
use elf_files::ElfFile;
use folded_stacks::FrameNames;
use function_index::FunctionIndex;
use kernel_symbols::KernelSymbols;
use perf_processes::Processes;
use sample_stacks::CodePlace;
use std::alloc::{AllocError, Global};
use std::collections::HashMap;
use std::marker::Model;

/// What is known of a file: its name and its functions.
#[derive(Drop)]
pub(crate) struct KnownFile {
    pub(crate) name: Vec<u8>,
    pub(crate) functions: FunctionIndex<'static>,
}

/// The names of frames, and what they are looked up in.
#[derive(Drop)]
pub(crate) struct Labels {
    // The names.
    names: NameTable,
    // The files that were read, by their numbers.
    files: HashMap<u32, KnownFile>,
    // The numbers of the names of places in files.
    places: PlaceNumbers,
    // The functions of the kernel, once a frame was there.
    kernel: Option<KernelSymbols<'static>>,
    // The numbers of the names of the kernel's frames, by their addresses.
    kernel_places: PlaceNumbers,
}

/// A clause sees the names, and what is known of files and of the kernel. Each number of a place is that of its name.
impl Model for Labels {
    ghost use Rattle.fold_stacks.specs.FrameNames.{LabelState};
    ghost use Rattle.fold_stacks.specs.KnownFiles.{AreNamed, files_in};

    ghost Value = { LabelState };

    ghost view = { λ labels. record {
      names = labels.names;
      files = files_in labels.files.entries;
      kernel = labels.kernel;
    } };

    ghost invariant = { λ labels. AreNamed labels.names (files_in labels.files.entries) labels.kernel labels.places labels.kernel_places };
}

// The functions of a file.
fn functions_of<F: SampledFiles>(
    alloc: Global,
    files: &mut F,
    file: u32,
) -> Result<FunctionIndex<'static>, AllocError> {
    let Some(bytes) = files.symbols_of(file)? else {
        return Ok(FunctionIndex::empty(alloc));
    };
    match ElfFile::parse(bytes) {
        Ok(elf) => FunctionIndex::new(alloc, &elf),
        Err(_) => Ok(FunctionIndex::empty(alloc)),
    }
}

// The functions of the kernel.
fn kernel_of<F: SampledFiles>(
    alloc: Global,
    files: &mut F,
) -> Result<KernelSymbols<'static>, AllocError> {
    match files.kernel_list()? {
        Some(list) => KernelSymbols::new(alloc, list),
        None => Ok(KernelSymbols::empty(alloc)),
    }
}

// Reads a file, if that wasn't done yet.
fn read_file<F: SampledFiles>(
    alloc: Global,
    known: &mut HashMap<u32, KnownFile>,
    files: &mut F,
    file: u32,
) -> Result<(), AllocError>
    ensures known { OnOk result (IsSome (known_file (files_in known.new.entries) file)) }
    ensures kept { KeepsFiles (files_in known.old.entries) (files_in known.new.entries) }
{
    if known.contains_key(&file) {
        return Ok(());
    }
    let name = files.name_of(file).to_vec(alloc)?;
    let functions = functions_of::<F>(alloc, files, file)?;
    known.insert(file, KnownFile { name, functions })?;
    Ok(())
}

// The number of the name at an address of a file.
fn number_in(
    alloc: Global,
    names: &mut NameTable,
    known: &KnownFile,
    address: u64,
) -> Result<u32, AllocError>
    ensures number { IfOk result (λ number. HasName names.new number (place_text (file_seen known.now) address)) }
    ensures kept { KeepsNumbers names.old names.new }
{
    match known.functions.name_at(address) {
        Some(symbol) => names.number_of_symbol(alloc, symbol),
        None => names.number_of_unknown(alloc, known.name.as_slice()),
    }
}

// The number of the name at a place that wasn't looked up yet.
fn number_at<F: SampledFiles>(
    alloc: Global,
    names: &mut NameTable,
    known: &mut HashMap<u32, KnownFile>,
    files: &mut F,
    place: CodePlace,
) -> Result<u32, AllocError>
    ensures number { IfOk result (λ number.
        NamesPlace names.new (known_file (files_in known.new.entries) place.file) place.address number) }
    ensures names { KeepsNumbers names.old names.new }
    ensures files { KeepsFiles (files_in known.old.entries) (files_in known.new.entries) }
{
    read_file::<F>(alloc, known, files, place.file)?;
    match known.get(&place.file) {
        Some(file) => number_in(alloc, names, file, place.address),
        None => Err(AllocError),
    }
}

// Reads the functions of the kernel, if that wasn't done yet.
fn read_kernel<F: SampledFiles>(
    alloc: Global,
    kernel: &mut Option<KernelSymbols<'static>>,
    files: &mut F,
) -> Result<(), AllocError>
    ensures known { OnOk result (IsSome kernel.new) }
    ensures kept { StaysKnown kernel.old kernel.new }
{
    if kernel.is_none() {
        *kernel = Some(kernel_of::<F>(alloc, files)?);
    }
    Ok(())
}

// The number of the name of a frame of the kernel that wasn't looked up yet.
fn kernel_number<F: SampledFiles>(
    alloc: Global,
    names: &mut NameTable,
    kernel: &mut Option<KernelSymbols<'static>>,
    files: &mut F,
    address: u64,
) -> Result<u32, AllocError>
    ensures number { IfOk result (λ number. NamesKernel names.new kernel.new address number) }
    ensures names { KeepsNumbers names.old names.new }
    ensures kernel { StaysKnown kernel.old kernel.new }
{
    read_kernel::<F>(alloc, kernel, files)?;
    match kernel {
        Some(symbols) => names.number_of_kernel(alloc, symbols.name_at(address)),
        None => Err(AllocError),
    }
}

impl Labels {
    /// No names.
    pub(crate) fn new(alloc: Global) -> Self
        ensures { result ≡ no_labels }
    {
        Labels {
            names: NameTable::new(alloc),
            files: HashMap::new(alloc),
            places: PlaceNumbers::new(alloc),
            kernel: None,
            kernel_places: PlaceNumbers::new(alloc),
        }
    }

    /// The names.
    pub(crate) fn names(&self) -> &FrameNames
        ensures { result.now ≡ self.now.names }
    {
        self.names.names()
    }

    /// The number of a name, which gets the next one if it is new.
    pub(crate) fn number_of(&mut self, text: &[u8]) -> Result<u32, AllocError>
        ensures number { IfOk result (λ number. HasName self.new.names number text.now) }
        ensures kept { KeepsLabels self.old self.new }
    {
        self.names.number_of(text)
    }

    /// The number of an address as a name.
    pub(crate) fn number_of_address(
        &mut self,
        alloc: Global,
        address: u64,
    ) -> Result<u32, AllocError>
        ensures number { IfOk result (λ number. HasName self.new.names number (address_text address)) }
        ensures kept { KeepsLabels self.old self.new }
    {
        self.names.number_of_address(alloc, address)
    }

    // The number of the name of a function that isn't known, in a file of this name.
    fn number_of_unknown(&mut self, alloc: Global, file: &[u8]) -> Result<u32, AllocError>
        ensures number { IfOk result (λ number. HasName self.new.names number (unknown_text file.now)) }
        ensures kept { KeepsLabels self.old self.new }
    {
        self.names.number_of_unknown(alloc, file)
    }

    // The number of the name of the function at a place.
    fn number_of_place<F: SampledFiles>(
        &mut self,
        alloc: Global,
        files: &mut F,
        place: CodePlace,
    ) -> Result<u32, AllocError>
        ensures number { IfOk result (λ number. NamesPlace self.new.names (known_file self.new.files place.file) place.address number) }
        ensures kept { KeepsLabels self.old self.new }
    {
        let key = PlaceKey {
            file: place.file,
            address: place.address,
        };
        if let Some(number) = self.places.get(key) {
            return Ok(number);
        }
        let number = number_at::<F>(alloc, &mut self.names, &mut self.files, files, place)?;
        self.places.keep(key, number)?;
        Ok(number)
    }

    /// The number of the name of a frame of a process: of its function, or of the file that is mapped there.
    pub(crate) fn number_of_frame<F: SampledFiles>(
        &mut self,
        alloc: Global,
        files: &mut F,
        processes: &Processes,
        pid: u32,
        frame: &UserFrame,
    ) -> Result<u32, AllocError>
        ensures number { IfOk result (λ number. NamesIfPlaced self.new frame.now.place number) }
        ensures kept { KeepsLabels self.old self.new }
    {
        if let Some(place) = frame.place {
            return self.number_of_place::<F>(alloc, files, place);
        }
        match processes.mapping_at(pid, frame.lookup) {
            Some(mapping) => self.number_of_unknown(alloc, files.name_of(mapping.file)),
            None => self.number_of_unknown(alloc, UNKNOWN),
        }
    }

    /// The number of the name of a frame of the kernel.
    pub(crate) fn number_of_kernel<F: SampledFiles>(
        &mut self,
        alloc: Global,
        files: &mut F,
        address: u64,
    ) -> Result<u32, AllocError>
        ensures number { IfOk result (λ number. NamesKernel self.new.names self.new.kernel address number) }
        ensures kept { KeepsLabels self.old self.new }
    {
        let key = PlaceKey { file: 0, address };
        if let Some(number) = self.kernel_places.get(key) {
            return Ok(number);
        }
        let number = kernel_number::<F>(alloc, &mut self.names, &mut self.kernel, files, address)?;
        self.kernel_places.keep(key, number)?;
        Ok(number)
    }
}
