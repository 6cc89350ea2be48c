//! What stays of a read when more bytes follow: no byte after those that are read changes a value,
//! nor an error, unless the error was that the bytes end.

ghost use Rattle.std.specs.Prelude.{ℕ};
ghost use Rattle.dwarf_constants.specs.declared.common.Format.{Format};
ghost use Rattle.dwarf_readers.specs.InitialLength.{address_at, address_size_at, initial_length_at, sized_offset_at, word_at};
ghost use Rattle.dwarf_readers.specs.Leb128.{behind_string, signed_at, string_of, unsigned_16_at, unsigned_32_at, unsigned_at};
ghost use Rattle.dwarf_readers.specs.More.{IsSteady, IsSteadyMove};
ghost use Rattle.dwarf_readers.specs.ReadLaws.{AnswersStay, FixedReadsStay};
ghost use Rattle.dwarf_readers.specs.Stretch.{string_at};

/// Reads of n bytes.
pub fn fixed_reads_stay()
    ensures { FixedReadsStay }
{}

/// Numbers of variable length (DWARF 5, 7.6).
pub fn leb128_reads_stay()
    ensures unsigned { IsSteady unsigned_at }
    ensures unsigned_16 { IsSteady unsigned_16_at }
    ensures unsigned_32 { IsSteady unsigned_32_at }
    ensures signed { IsSteady signed_at }
    ensures skip { IsSteadyMove (λ s. behind_string s (string_of s.bytes)) }
{}

/// Lengths, offsets and addresses (DWARF 5, 7.2.2, 7.4 and 7.5.5).
pub fn lengths_stay()
    ensures initial_length { (limit : ℕ) → IsSteady (initial_length_at limit) }
    ensures word { (limit : ℕ) (format : Format) → IsSteady (word_at limit format) }
    ensures sized_offset { (limit size : ℕ) → IsSteady (sized_offset_at limit size) }
    ensures address_size { IsSteady address_size_at }
    ensures address { (size : ℕ) → IsSteady (address_at size) }
{}

/// Strings that end with a zero.
pub fn strings_stay()
    ensures { IsSteady string_at }
{}

/// One answer after another, one after a test that reads no bytes, and either of two.
pub fn answers_stay<A, B>()
    ensures { AnswersStay A B }
{}
