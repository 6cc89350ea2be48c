//! Sections of call frames by their kind.

ghost use Rattle.std.specs.Prelude.{◌≡◌};
ghost use Rattle.framehop_index.specs.SectionTypes.{frame_section_bytes};

use framehop_modules::SectionBytes;

/// A section of call frames: its kind, and its bytes or what has them.
#[derive(Debug, Drop)]
pub enum UnwindSectionType<D> {
    /// `.eh_frame` (LSB 5.0, 10.6.1).
    EhFrame(D),
    /// `.debug_frame` (DWARF 5, 6.4.1).
    DebugFrame(D),
}

impl<D: SectionBytes> UnwindSectionType<D> {
    /// The section by its bytes.
    #[inline(always)]
    pub fn lend(&self) -> UnwindSectionType<&[u8]>
        ensures { frame_section_bytes (λ b. b.now) result ≡ frame_section_bytes D.content self.now }
    {
        match self {
            UnwindSectionType::EhFrame(data) => UnwindSectionType::EhFrame(data.bytes()),
            UnwindSectionType::DebugFrame(data) => UnwindSectionType::DebugFrame(data.bytes()),
        }
    }
}
