//! The files that a recording names.

use sample_stacks::FileBytes;
use std::alloc::{AllocError, Global};
use std::collections::HashMap;

/// A file that a recording names.
#[derive(Debug, PartialEq, Eq, Hash, Drop)]
pub struct RecordedFile {
    /// Its name.
    pub name: Vec<u8>,
    /// Its build id, or no bytes if none was recorded.
    pub build_id: Vec<u8>,
}

/// The files that a recording names, each with a number: their place in a list.
#[derive(Drop)]
pub struct RecordedFiles {
    files: Vec<RecordedFile>,
    // The number of each. It is looked up in the list again, so that no answer depends on it.
    numbers: HashMap<RecordedFile, u32>,
}

/// The files that a recording names, with their bytes, which are read when they are asked for.
pub trait SampledFiles: FileBytes {
    /// The number of a file by its name and its build id, which has no bytes if none was recorded. Fails if memory is refused.
    fn number_of(&mut self, name: &[u8], build_id: &[u8]) -> Result<u32, AllocError>;

    /// The name of the file with a number, and no bytes if there is none.
    fn name_of(&self, file: u32) -> &[u8];

    /// All bytes of the file that has the symbols of the file with a number, if it is there. Fails if memory is refused.
    fn symbols_of(&mut self, file: u32) -> Result<Option<&'static [u8]>, AllocError>;

    /// The list of the kernel's symbols, if it is there. Fails if memory is refused.
    fn kernel_list(&mut self) -> Result<Option<&'static [u8]>, AllocError>;
}

// A file of this name and build id.
fn file_of(alloc: Global, name: &[u8], build_id: &[u8]) -> Result<RecordedFile, AllocError> {
    Ok(RecordedFile {
        name: name.to_vec(alloc)?,
        build_id: build_id.to_vec(alloc)?,
    })
}

impl RecordedFiles {
    /// No files.
    pub fn new(alloc: Global) -> Self {
        RecordedFiles {
            files: Vec::new(alloc),
            numbers: HashMap::new(alloc),
        }
    }

    /// The file with a number, if there is one.
    pub fn get(&self, number: u32) -> Option<&RecordedFile> {
        self.files.get(number as usize)
    }

    // Whether a file has a number.
    fn has(&self, number: u32, file: &RecordedFile) -> bool {
        match self.get(number) {
            Some(known) => known == file,
            None => false,
        }
    }

    /// The number of a file, which gets the next one if it is new. Fails if memory is refused, or if there are 2^32 files.
    pub fn number_of(&mut self, name: &[u8], build_id: &[u8]) -> Result<u32, AllocError> {
        let alloc = *self.files.allocator();
        let key = file_of(alloc, name, build_id)?;
        if let Some(number) = self.numbers.get(&key).copied() {
            if self.has(number, &key) {
                return Ok(number);
            }
        }
        let Ok(number) = u32::try_from(self.files.len()) else {
            return Err(AllocError);
        };
        self.files.push(file_of(alloc, name, build_id)?)?;
        self.numbers.insert(key, number)?;
        Ok(number)
    }
}
