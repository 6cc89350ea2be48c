//! Laws of files that are read in part. The function does nothing when the program runs.

ghost use Rattle.std.specs.Prelude.{◌≡◌, ◌<◌, ℕ, List, ◌++◌, Ok};
ghost use Rattle.elf_files.specs.Header.{header_of};
ghost use Rattle.elf_files.specs.Segments.{segment_at};
ghost use Rattle.elf_files.specs.declared.header.Header.{Header};
ghost use Rattle.elf_files.specs.declared.segment.Segment.{Segment};

/// What the first bytes of a file say, the whole file says: the header and a segment.
pub fn first_bytes_say()
    ensures header { (bytes rest : List ℕ) (header : Header) → header_of bytes ≡ Ok header
        → header_of (bytes ++ rest) ≡ Ok header }
    ensures segment { (bytes rest : List ℕ) (header : Header) (i : ℕ) (segment : Segment)
        → i < header.segment_count → segment_at bytes header i ≡ Ok segment
        → segment_at (bytes ++ rest) header i ≡ Ok segment }
{}
