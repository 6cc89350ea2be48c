//! The features of a recording.

ghost use Rattle.std.specs.Prelude.{◌≡◌, ◌<◌};
ghost use Rattle.perf_files.specs.Features.{architecture_in, architecture_named, build_id_fields, build_id_of, feature_in, text_field};
ghost use Rattle.perf_files.specs.Fields.{seen, taken};
ghost use Rattle.perf_files.specs.RecordViews.{record_seen};

use crate::error::{FeatureError, FieldError};
use crate::field::Field;
use crate::fields::{Fields, before_zero};
use crate::header::FileHeader;
use crate::record::Record;
use crate::section::{Section, section_at};

/// The machine of a recording.
#[derive(Debug, Clone, Copy, PartialEq, Eq)]
pub enum Architecture {
    /// `x86_64`.
    X86_64,
    /// `aarch64`, or `arm64`.
    Aarch64,
}

/// The build id of a file (`HEADER_BUILD_ID`, `PERF_RECORD_HEADER_BUILD_ID`).
#[derive(Debug, Clone, Copy, PartialEq, Eq)]
pub struct FileBuildId<'a> {
    /// The build id.
    pub build_id: &'a [u8],
    /// The file's name.
    pub name: &'a [u8],
}

const X86_64: [u8; 6] = *b"x86_64";

const AARCH64: [u8; 7] = *b"aarch64";

const ARM64: [u8; 5] = *b"arm64";

// The bit of `misc` that says that a build id has its size.
const WITH_SIZE: u16 = 0x8000;

const BUILD_ID_SIZE: usize = 20;

// How many bytes there are for a build id and its size.
const BUILD_ID_ROOM: u64 = 24;

impl FileHeader {
    /// Where a feature is, by its number (`HEADER_*`) and the bytes of the table of features; none if there is none. Fails if the table
    /// ends before.
    pub fn feature_in(&self, table: &[u8], number: u32) -> Result<Option<Section>, FieldError>
        requires { number < 64 }
        ensures { result ≡ feature_in self.now table.now number }
    {
        let bit = 1u64 << number;
        if self.features / bit % 2 == 0 {
            return Ok(None);
        }
        let at = 16 * (self.features % bit).count_ones() as usize;
        if table.len() < at + 16 {
            return Err(FieldError::PastEnd(Field::Feature));
        }
        Ok(Some(section_at(table, at)))
    }
}

// The machine of this name.
fn architecture_named(name: &[u8]) -> Result<Architecture, FeatureError>
    ensures { result ≡ architecture_named name.now }
{
    if name == X86_64.as_slice() {
        return Ok(Architecture::X86_64);
    }
    if name == AARCH64.as_slice() || name == ARM64.as_slice() {
        return Ok(Architecture::Aarch64);
    }
    Err(FeatureError::UnsupportedArchitecture)
}

impl<'a> Fields<'a> {
    ghost use Rattle.perf_files.specs.FeatureViews.{file_build_id_seen};

    // A text: its size, with the zeros that follow it, and its bytes.
    #[tactic(auto, unfolding(crate::specs::Features::text_field))]
    fn text(&mut self) -> Result<&'a [u8], FieldError>
        ensures { taken (λ text. text.now) result self.new.left.now ≡ text_field self.old.left.now }
    {
        let size = self.half(Field::Text)?;
        let bytes = self.bytes(u64::from(size), Field::Text)?;
        Ok(before_zero(bytes))
    }

    // A build id, with its size or without, and the file's name.
    #[tactic(auto, unfolding(crate::specs::Features::build_id_fields))]
    fn file_build_id(&mut self, misc: u16) -> Result<FileBuildId<'a>, FieldError>
        ensures { taken file_build_id_seen result self.new.left.now ≡ build_id_fields misc self.old.left.now }
    {
        let _pid = self.half(Field::BuildId)?;
        let room = self.bytes(BUILD_ID_ROOM, Field::BuildId)?;
        let name = self.name();
        let size = if misc / WITH_SIZE % 2 == 1 {
            usize::from(room[BUILD_ID_SIZE]).min(BUILD_ID_SIZE)
        } else {
            BUILD_ID_SIZE
        };
        Ok(FileBuildId {
            build_id: &room[..size],
            name,
        })
    }
}

/// The machine of a recording, by the bytes of its feature (`HEADER_ARCH`). Fails if they end before the name does, or if it is another.
pub fn architecture_in(feature: &[u8]) -> Result<Architecture, FeatureError>
    ensures { result ≡ architecture_in feature.now }
{
    let mut fields = Fields { left: feature };
    match fields.text() {
        Ok(name) => architecture_named(name),
        Err(error) => Err(FeatureError::Unreadable(error)),
    }
}

impl<'a> FileBuildId<'a> {
    ghost use Rattle.perf_files.specs.FeatureViews.{file_build_id_seen};

    /// The build id that a record has: one of a pipe, or of those that the feature `HEADER_BUILD_ID` consists of, which `record_at` finds
    /// in its bytes. Fails with the first field that goes past the end.
    #[tactic(auto, unfolding(crate::specs::Features::build_id_of))]
    pub fn parse(found: &Record<'a>) -> Result<Self, FieldError>
        ensures { seen file_build_id_seen result ≡ build_id_of (record_seen found.now) }
    {
        let mut fields = Fields {
            left: found.payload,
        };
        fields.file_build_id(found.misc)
    }
}
