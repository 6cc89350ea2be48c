//! What a recording says beside its samples: its machine, its events, the build ids of files, and where its records are.

ghost use Rattle.std.specs.Prelude.{IfOk};
ghost use Rattle.std.specs.List.Sorted.{IsNonDecreasingBy};

use crate::event_names::event_names;
use crate::source::Source;
use perf_files::{
    Architecture, AttributeEntry, Attributes, Event, EventError, FeatureError, FieldError,
    FileBuildId, FileHeader, HeaderError, PerfHeader, Record, RecordError, RecordKind, RecordPlace,
    Section, Words, architecture_in, event_of, head_at, read_header, record_at, sort_by_time,
    time_of,
};
use std::alloc::{AllocError, AllocFailed, Global};
use std::io;
use thiserror::Error;

/// The build id of a file.
#[derive(Debug, Drop)]
pub(crate) struct NamedBuildId {
    /// The file's name.
    pub(crate) name: Vec<u8>,
    /// The build id.
    pub(crate) build_id: Vec<u8>,
}

/// Why a recording is refused.
#[derive(Debug, Clone, Copy, PartialEq, Eq, Error)]
pub(crate) enum Refusal {
    /// Its header.
    #[error("{0}")]
    Header(HeaderError),

    /// The attributes of an event.
    #[error("{0}")]
    Attributes(FieldError),

    /// Its machine.
    #[error("{0}")]
    Machine(FeatureError),

    /// Which event its records are of.
    #[error("{0}")]
    Events(EventError),

    /// Its records are compressed.
    #[error("compressed records (at offset 0x{offset:x})")]
    Compressed {
        /// Where the first one begins.
        offset: u64,
    },
}

/// Why a recording isn't read.
#[derive(Debug, Drop, Error)]
pub(crate) enum ReadError {
    /// It is refused.
    #[error("{0}")]
    Refused(Refusal),

    /// Its bytes can't be read, or memory is refused.
    #[error("{0}")]
    Failed(io::Error),
}

impl From<Refusal> for ReadError {
    fn from(refusal: Refusal) -> Self {
        ReadError::Refused(refusal)
    }
}

impl From<io::Error> for ReadError {
    fn from(error: io::Error) -> Self {
        ReadError::Failed(error)
    }
}

impl From<AllocError> for ReadError {
    fn from(error: AllocError) -> Self {
        ReadError::Failed(error.into())
    }
}

impl<T: Drop> From<AllocFailed<T>> for ReadError {
    fn from(_error: AllocFailed<T>) -> Self {
        ReadError::Failed(AllocError.into())
    }
}

/// What a recording says beside its samples.
#[derive(Drop)]
pub(crate) struct Recording {
    /// Its machine, if it says which.
    pub(crate) machine: Option<Architecture>,
    /// Its events.
    pub(crate) events: Vec<Event>,
    /// Their names, as far as there are some.
    pub(crate) event_names: Vec<Vec<u8>>,
    /// The build ids of files.
    pub(crate) build_ids: Vec<NamedBuildId>,
    /// Where the records are, in the order of time.
    pub(crate) places: Vec<RecordPlace>,
    /// Records of which it isn't known when they were made, or of which event they are.
    pub(crate) unreadable: u64,
    /// Where records end before the data do, and why, if that isn't that the last one was cut off.
    pub(crate) cut: Option<Option<RecordError>>,
}

// How much is read at once where a record begins: the first fields of a sample, or some of the smaller records.
const AHEAD: u64 = 1 << 9;

// The most that the header and the first fields of a sample take, which say of which event it is and when it was taken.
const SAMPLE_HEAD: u64 = 80;

const PIPE_HEADER_SIZE: u64 = 16;

const FILE_HEADER_SIZE: u64 = 104;

// The numbers of features.
const BUILD_IDS: u32 = 2;

const ARCHITECTURE: u32 = 6;

const EVENT_DESCRIPTIONS: u32 = 12;

// The numbers that words are.
fn numbers_of(alloc: Global, words: &Words<'_>) -> Result<Vec<u64>, AllocError> {
    let mut numbers = Vec::new(alloc);
    for index in 0..words.len() {
        if let Some(number) = words.get(index) {
            numbers.push(number)?;
        }
    }
    Ok(numbers)
}

// The rest of some bytes behind so many.
fn rest_of(bytes: &[u8], size: u64) -> &[u8] {
    let start = size.min(bytes.len() as u64) as usize;
    &bytes[start..]
}

// Whether a record is taken when samples are folded.
fn is_taken(kind: RecordKind) -> bool {
    matches!(
        kind,
        RecordKind::Mapping
            | RecordKind::Mapping2
            | RecordKind::Command
            | RecordKind::Fork
            | RecordKind::Exit
            | RecordKind::Lost
            | RecordKind::LostSamples
            | RecordKind::Sample
    )
}

impl Recording {
    // A recording that says nothing.
    fn new(alloc: Global) -> Self {
        Recording {
            machine: None,
            events: Vec::new(alloc),
            event_names: Vec::new(alloc),
            build_ids: Vec::new(alloc),
            places: Vec::new(alloc),
            unreadable: 0,
            cut: None,
        }
    }

    // Takes the entry of an event of a file.
    fn take_entry(
        &mut self,
        alloc: Global,
        source: &mut Source,
        header: &FileHeader,
        offset: u64,
    ) -> Result<(), ReadError> {
        let bytes = source.bytes(offset, header.attribute_size, 0)?;
        let entry = AttributeEntry::parse(bytes).map_err(Refusal::Attributes)?;
        let ids = source.bytes(entry.ids.offset, entry.ids.size, 0)?;
        let ids = numbers_of(alloc, &Words::new(ids))?;
        self.events.push(Event {
            attributes: entry.attributes,
            ids,
        })?;
        Ok(())
    }

    // Takes the events of a file.
    fn take_entries(
        &mut self,
        alloc: Global,
        source: &mut Source,
        header: &FileHeader,
    ) -> Result<(), ReadError> {
        let end = header
            .attributes
            .offset
            .saturating_add(header.attributes.size)
            .min(source.size());
        let mut offset = header.attributes.offset;
        for _ in 0..header.attributes.size {
            if end.saturating_sub(offset) < header.attribute_size {
                break;
            }
            self.take_entry(alloc, source, header, offset)?;
            offset = offset.saturating_add(header.attribute_size);
        }
        Ok(())
    }

    // Takes the build id of a file.
    fn take_build_id(&mut self, alloc: Global, record: &Record<'_>) -> Result<(), AllocError> {
        if let Ok(found) = FileBuildId::parse(record) {
            self.build_ids.push(NamedBuildId {
                name: found.name.to_vec(alloc)?,
                build_id: found.build_id.to_vec(alloc)?,
            })?;
        }
        Ok(())
    }

    // Takes the feature with the build ids of files.
    fn take_build_ids(&mut self, alloc: Global, feature: &[u8]) -> Result<(), AllocError> {
        let mut left = feature;
        for _ in 0..feature.len() {
            let Ok(Some((record, size))) = record_at(left, 0) else {
                break;
            };
            self.take_build_id(alloc, &record)?;
            left = rest_of(left, size);
        }
        Ok(())
    }

    // Takes a feature by its number.
    fn take_feature(
        &mut self,
        alloc: Global,
        number: u32,
        feature: &[u8],
    ) -> Result<(), ReadError> {
        match number {
            ARCHITECTURE => {
                self.machine = Some(architecture_in(feature).map_err(Refusal::Machine)?);
            }
            BUILD_IDS => self.take_build_ids(alloc, feature)?,
            EVENT_DESCRIPTIONS => self.event_names = event_names(alloc, feature)?,
            _ => {}
        }
        Ok(())
    }

    // Takes the features of a file that are known, as far as they are there: they are written last, together with the size of the
    // records, so that a recording whose `perf record` was killed has none.
    fn take_features(
        &mut self,
        alloc: Global,
        source: &mut Source,
        header: &FileHeader,
    ) -> Result<(), ReadError> {
        if header.data.size == 0 {
            return Ok(());
        }
        let Some(place) = header.feature_table() else {
            return Ok(());
        };
        for number in [ARCHITECTURE, BUILD_IDS, EVENT_DESCRIPTIONS] {
            let table = source.bytes(place.offset, place.size, 0)?;
            let Ok(Some(place)) = header.feature_in(table, number) else {
                continue;
            };
            let feature = source.bytes(place.offset, place.size, 0)?;
            if (feature.len() as u64) < place.size {
                continue;
            }
            self.take_feature(alloc, number, feature)?;
        }
        Ok(())
    }

    // Takes a record of the kernel: when it was made.
    fn take_place(&mut self, record: &Record<'_>) -> Result<(), ReadError> {
        let index = match event_of(self.events.as_slice(), record) {
            Ok(index) => index,
            Err(error) => match error {
                EventError::NoEvent | EventError::MixedLayouts => {
                    return Err(ReadError::Refused(Refusal::Events(error)));
                }
                _ => {
                    self.unreadable = self.unreadable.saturating_add(1);
                    return Ok(());
                }
            },
        };
        let Some(event) = self.events.get(index) else {
            return Ok(());
        };
        match time_of(record, &event.attributes) {
            Ok(time) => self.places.push(RecordPlace::new(time, record.offset))?,
            Err(_) => self.unreadable = self.unreadable.saturating_add(1),
        }
        Ok(())
    }

    // Takes the attributes of an event of a pipe.
    fn take_attributes(&mut self, alloc: Global, record: &Record<'_>) -> Result<(), ReadError> {
        let (attributes, words) = Attributes::parse_with_ids(record.payload).map_err(
            Refusal::Attributes,
        )?;
        let ids = numbers_of(alloc, &words)?;
        self.events.push(Event { attributes, ids })?;
        Ok(())
    }

    // Takes a record.
    fn take_record(&mut self, alloc: Global, record: &Record<'_>) -> Result<(), ReadError> {
        match record.kind {
            RecordKind::Attributes => self.take_attributes(alloc, record),
            RecordKind::Feature => {
                let number = Words::new(record.payload).get(0).unwrap_or(0);
                let number = u32::try_from(number).unwrap_or(0);
                self.take_feature(alloc, number, rest_of(record.payload, 8))
            }
            RecordKind::BuildId => Ok(self.take_build_id(alloc, record)?),
            RecordKind::Compressed => Err(ReadError::Refused(Refusal::Compressed {
                offset: record.offset,
            })),
            kind if is_taken(kind) => self.take_place(record),
            _ => Ok(()),
        }
    }

    // Takes the sample at an offset, by its first fields, if there is one that so many bytes have, and returns its size.
    fn take_sample(
        &mut self,
        source: &mut Source,
        offset: u64,
        left: u64,
    ) -> Result<Option<u64>, ReadError> {
        let bytes = source.bytes(offset, left.min(SAMPLE_HEAD), AHEAD)?;
        let Ok(Some((record, size))) = head_at(bytes, offset) else {
            return Ok(None);
        };
        let size = size as u64;
        if size > left || !matches!(record.kind, RecordKind::Sample) {
            return Ok(None);
        }
        self.take_place(&record)?;
        Ok(Some(size))
    }

    // Takes the record at an offset, of which so many bytes are left, and returns where the next one begins; none if there isn't one.
    fn take_next(
        &mut self,
        alloc: Global,
        source: &mut Source,
        offset: u64,
        left: u64,
    ) -> Result<Option<u64>, ReadError> {
        if let Some(size) = self.take_sample(source, offset, left)? {
            return Ok(Some(offset.saturating_add(size)));
        }
        let bytes = source.record_bytes(offset, AHEAD)?;
        let known = left.min(bytes.len() as u64) as usize;
        match record_at(&bytes[..known], offset) {
            Ok(Some((record, size))) => {
                self.take_record(alloc, &record)?;
                return Ok(Some(offset.saturating_add(size)));
            }
            Ok(None) => {
                if left > 0 {
                    self.cut = Some(None);
                }
            }
            Err(error) => self.cut = Some(Some(error)),
        }
        Ok(None)
    }

    // Takes all records.
    fn take_records(
        &mut self,
        alloc: Global,
        source: &mut Source,
        data: Section,
    ) -> Result<(), ReadError> {
        let end = data.offset.saturating_add(data.size);
        let mut offset = data.offset;
        for _ in 0..data.size {
            let left = end.saturating_sub(offset);
            match self.take_next(alloc, source, offset, left)? {
                Some(next) => offset = next,
                None => break,
            }
        }
        Ok(())
    }

    // Takes what a file says, and returns where its records are.
    fn take_file(
        &mut self,
        alloc: Global,
        source: &mut Source,
        header: &FileHeader,
    ) -> Result<Section, ReadError> {
        self.take_entries(alloc, source, header)?;
        self.take_features(alloc, source, header)?;
        let data = header.data_in(source.size());
        if data.size != header.data.size {
            self.cut = Some(None);
        }
        Ok(data)
    }

    // Takes what a recording says before its records, and returns where these are.
    fn take_head(&mut self, alloc: Global, source: &mut Source) -> Result<Section, ReadError> {
        let bytes = source.bytes(0, FILE_HEADER_SIZE, 0)?;
        match read_header(bytes).map_err(Refusal::Header)? {
            PerfHeader::Pipe => Ok(Section {
                offset: PIPE_HEADER_SIZE,
                size: source.size().saturating_sub(PIPE_HEADER_SIZE),
            }),
            PerfHeader::File(header) => self.take_file(alloc, source, &header),
        }
    }

    /// Reads a recording once, from its start to its end.
    pub(crate) fn read(alloc: Global, source: &mut Source) -> Result<Self, ReadError>
        ensures { IfOk result (λ recording. IsNonDecreasingBy (λ place. place.key) recording.places.items) }
    {
        let mut recording = Recording::new(alloc);
        let data = recording.take_head(alloc, source)?;
        recording.take_records(alloc, source, data)?;
        sort_by_time(&mut recording.places)?;
        Ok(recording)
    }
}
