//! The header of a recording.

ghost use Rattle.std.specs.Prelude.{◌≡◌, ◌≤◌, ◌<◌, length, IfOk, Ok};
ghost use Rattle.perf_files.specs.Header.{attribute_count, data_in, feature_table, header_of, if_perf_data};

use crate::bytes::u64_at;
use crate::error::HeaderError;
use crate::section::{Section, section_at};

/// The header of a file.
#[derive(Debug, Clone, Copy, PartialEq, Eq)]
pub struct FileHeader {
    /// The size of an entry with attributes, in bytes.
    pub attribute_size: u64,
    /// The entries with attributes.
    pub attributes: Section,
    /// The records. If `perf record` was ended before its time, the size is 0.
    pub data: Section,
    /// Which features there are, from the lowest bit on (`HEADER_*`); only those below 64 are known.
    pub features: u64,
}

/// The header of a recording.
#[derive(Debug, Clone, Copy, PartialEq, Eq)]
pub enum PerfHeader {
    /// Of a pipe (`perf record -o -`): records follow at byte 16, those with attributes and features too.
    Pipe,
    /// Of a file.
    File(FileHeader),
}

// What a recording begins with, least significant byte first, and with the bytes in the other order.
const MAGIC: [u8; 8] = *b"PERFILE2";

const OTHER_ORDER: [u8; 8] = *b"2ELIFREP";

const PIPE_HEADER_SIZE: u64 = 16;

const FILE_HEADER_SIZE: usize = 104;

// The feature of a recording whose records are in other files (`HEADER_DIR_FORMAT`).
const DIRECTORY: u64 = 0x100_0000;

// Whether a recording begins here.
fn check_magic(bytes: &[u8]) -> Result<(), HeaderError>
    ensures check { result ≡ if_perf_data bytes.now (Ok tt) }
    ensures whole { IfOk result (λ _. 16 ≤ length bytes.now) }
{
    if bytes.starts_with(&OTHER_ORDER) {
        return Err(HeaderError::OtherByteOrder { offset: 0 });
    }
    if !bytes.starts_with(&MAGIC) {
        return Err(HeaderError::NotPerfData { offset: 0 });
    }
    if bytes.len() < 16 {
        return Err(HeaderError::Truncated { offset: 0 });
    }
    Ok(())
}

/// The header that a recording begins with: at least 104 bytes of a file, or 16 of a pipe. Fails if it isn't a recording of perf, if it
/// was made on a machine of the other byte order, if the header isn't whole, has another size, or says that attributes have a size that
/// has no room for the first version's, 64 bytes, and for their ids, or that the records are in other files.
#[tactic(auto, unfolding(crate::specs::Header::header_of))]
pub fn read_header(bytes: &[u8]) -> Result<PerfHeader, HeaderError>
    ensures { result ≡ header_of bytes.now }
{
    check_magic(bytes)?;
    let size = u64_at(bytes, 8);
    if size == PIPE_HEADER_SIZE {
        return Ok(PerfHeader::Pipe);
    }
    if size < FILE_HEADER_SIZE as u64 {
        return Err(HeaderError::HeaderSize { offset: 8 });
    }
    if bytes.len() < FILE_HEADER_SIZE {
        return Err(HeaderError::Truncated { offset: 0 });
    }
    let attribute_size = u64_at(bytes, 16);
    if attribute_size < 80 {
        return Err(HeaderError::AttributeSize { offset: 16 });
    }
    let features = u64_at(bytes, 72);
    if features / DIRECTORY % 2 == 1 {
        return Err(HeaderError::Directory { offset: 72 });
    }
    Ok(PerfHeader::File(FileHeader {
        attribute_size,
        attributes: section_at(bytes, 24),
        data: section_at(bytes, 40),
        features,
    }))
}

impl FileHeader {
    /// How many entries with attributes there are.
    pub fn attribute_count(&self) -> u64
        requires { 0 < self.now.attribute_size }
        ensures { result ≡ attribute_count self.now }
    {
        self.attributes.size / self.attribute_size
    }

    /// The bytes of the records of a file of this size: all that are left, if the header doesn't say how many or says more.
    pub fn data_in(&self, file_size: u64) -> Section
        ensures { result ≡ data_in self.now file_size }
    {
        let offset = self.data.offset.min(file_size);
        let left = file_size - offset;
        let size = if self.data.size == 0 || self.data.size > left {
            left
        } else {
            self.data.size
        };
        Section { offset, size }
    }

    /// Where the features are listed, behind the records: 16 bytes for each. None if that isn't below 2^64 bytes.
    pub fn feature_table(&self) -> Option<Section>
        ensures { result ≡ feature_table self.now }
    {
        let size = 16 * u64::from(self.features.count_ones());
        match self.data.offset.checked_add(self.data.size) {
            Some(offset) => Some(Section { offset, size }),
            None => None,
        }
    }
}
