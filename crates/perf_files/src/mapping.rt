//! Mappings of files.

ghost use Rattle.std.specs.Prelude.{◌≡◌, length};
ghost use Rattle.perf_files.specs.Fields.{seen, taken};
ghost use Rattle.perf_files.specs.Mappings.{file_fields, mapped_build_id, mapping_fields, mapping_of};
ghost use Rattle.perf_files.specs.RecordViews.{record_seen};

use crate::attributes::Attributes;
use crate::error::FieldError;
use crate::field::Field;
use crate::fields::{Fields, ThreadId};
use crate::record::{Record, RecordKind};
use crate::trailer::body_of;

/// A file, or a part of one, that a process mapped (`PERF_RECORD_MMAP`, `PERF_RECORD_MMAP2`).
#[derive(Debug, Clone, Copy, PartialEq, Eq)]
pub struct Mapping<'a> {
    /// Who mapped it.
    pub thread: ThreadId,
    /// The first address.
    pub address: u64,
    /// How many addresses there are.
    pub size: u64,
    /// Where in the file the byte at the first address is, in bytes.
    pub offset: u64,
    /// Whether code may be executed there.
    pub executable: bool,
    /// The build id of the file; empty if it wasn't recorded.
    pub build_id: &'a [u8],
    /// The name of the file.
    pub name: &'a [u8],
}

// Bits of `misc`.
const MAPPED_DATA: u16 = 0x2000;

const WITH_BUILD_ID: u16 = 0x4000;

// The bit of `prot` for code.
const EXECUTE: u32 = 4;

// The size of what says which file is mapped, and the greatest size of a build id, which begins at byte 4.
const IDENTITY_SIZE: u64 = 24;

const BUILD_ID_SIZE: usize = 20;

// The build id of a mapped file, if the record has it.
fn mapped_build_id(identity: &[u8], misc: u16) -> &[u8]
    requires { length identity.now ≡ 24 }
    ensures { result.now ≡ mapped_build_id misc identity.now }
{
    if misc / WITH_BUILD_ID % 2 == 0 {
        return &[];
    }
    let size = usize::from(identity[0]).min(BUILD_ID_SIZE);
    let id = &identity[4..];
    &id[..size]
}

impl<'a> Fields<'a> {
    ghost use Rattle.perf_files.specs.MappingViews.{mapping_seen};

    // The build id of a mapped file, and whether it has code.
    #[tactic(auto, unfolding(crate::specs::Mappings::file_fields))]
    fn mapped_file(&mut self, kind: RecordKind, misc: u16) -> Result<(&'a [u8], bool), FieldError>
        ensures { taken (λ file. (file.0.now, file.1)) result self.new.left.now ≡ file_fields kind misc self.old.left.now }
    {
        let RecordKind::Mapping2 = kind else {
            return Ok((&[], misc / MAPPED_DATA % 2 == 0));
        };
        let identity = self.bytes(IDENTITY_SIZE, Field::MappedFile)?;
        let protection = self.half(Field::MappedFile)?;
        let _flags = self.half(Field::MappedFile)?;
        Ok((
            mapped_build_id(identity, misc),
            protection / EXECUTE % 2 == 1,
        ))
    }

    // The fields of a mapping.
    #[tactic(auto, unfolding(crate::specs::Mappings::mapping_fields))]
    fn mapping(&mut self, kind: RecordKind, misc: u16) -> Result<Mapping<'a>, FieldError>
        ensures { taken mapping_seen result self.new.left.now ≡ mapping_fields kind misc self.old.left.now }
    {
        let thread = self.thread(Field::Process)?;
        let address = self.word(Field::MappedRange)?;
        let size = self.word(Field::MappedRange)?;
        let offset = self.word(Field::MappedRange)?;
        let (build_id, executable) = self.mapped_file(kind, misc)?;
        let name = self.name();
        Ok(Mapping {
            thread,
            address,
            size,
            offset,
            executable,
            build_id,
            name,
        })
    }
}

impl<'a> Mapping<'a> {
    ghost use Rattle.perf_files.specs.MappingViews.{mapping_seen};

    /// The mapping that a record says, by the attributes of its event. Fails with the first field that goes past the end.
    #[tactic(auto, unfolding(crate::specs::Mappings::mapping_of))]
    pub fn parse(found: &Record<'a>, attributes: &Attributes) -> Result<Self, FieldError>
        ensures { seen mapping_seen result ≡ mapping_of attributes.now (record_seen found.now) }
    {
        let body = body_of(found.payload, attributes)?;
        let mut fields = Fields { left: body };
        fields.mapping(found.kind, found.misc)
    }
}
