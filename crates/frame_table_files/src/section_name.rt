//! The names of sections of call frames.

ghost use Rattle.std.specs.Prelude.{◌≡◌, Some, codes};
ghost use Rattle.frame_table_files.specs.SectionNames.{name_text, named};

use std::fmt;

/// The sections of call frames that are listed.
#[derive(Debug, Clone, Copy, PartialEq, Eq)]
pub enum SectionName {
    /// `.eh_frame`, which programs load.
    EhFrame,
    /// `.debug_frame`, for debuggers.
    DebugFrame,
}

impl SectionName {
    /// The section with a name.
    pub fn named(text: &str) -> Option<SectionName>
        ensures { result ≡ named text.now }
    {
        match text {
            ".eh_frame" => Some(SectionName::EhFrame),
            ".debug_frame" => Some(SectionName::DebugFrame),
            _ => None,
        }
    }

    /// Its name.
    pub fn text(self) -> &'static str
        ensures { result.now ≡ name_text self }
    {
        match self {
            SectionName::EhFrame => ".eh_frame",
            SectionName::DebugFrame => ".debug_frame",
        }
    }
}

impl fmt::Display for SectionName {
    ghost output = { λ name. Some (name_text name) };

    fn fmt<W: fmt::Write>(&self, f: &mut fmt::Formatter<W>) -> fmt::Result {
        f.write_str(self.text())
    }
}
