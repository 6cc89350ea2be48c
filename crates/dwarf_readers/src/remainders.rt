//! What reads leave: how many bytes each takes at least, so that items that are read one after the
//! other end, and that nothing begins before the read.

ghost use Rattle.std.specs.Prelude.{◌≡◌, ℕ, Ok};
ghost use Rattle.dwarf_constants.specs.Format.{word_size};
ghost use Rattle.dwarf_constants.specs.declared.common.Format.{Format};
ghost use Rattle.dwarf_constants.specs.declared.error.Error.{Error};
ghost use Rattle.dwarf_readers.specs.InitialLength.{address_at, address_size_at, initial_length_at, sized_offset_at, word_at};
ghost use Rattle.dwarf_readers.specs.Leb128.{behind_string, signed_at, string_of, unsigned_16_at, unsigned_32_at, unsigned_at};
ghost use Rattle.dwarf_readers.specs.Stretch.{Stretch, string_at};
ghost use Rattle.dwarf_readers.specs.Remainder.{IsRest, Passes, Takes, TakesItem, item_at, size_of};
ghost use Rattle.dwarf_readers.specs.Operands.{Parse};
ghost use Rattle.dwarf_readers.specs.ReadLaws.{AnswersGoOn, AnswersLeave, FixedReadsTake, ReadsGoOn};
ghost use Rattle.list_laws.specs.Items.{Answer, Shrinks};

/// A read of n bytes takes n bytes.
pub fn fixed_reads_take()
    ensures { FixedReadsTake }
{}

/// A number of variable length takes a byte at least (DWARF 5, 7.6).
pub fn leb128_reads_take()
    ensures unsigned { (s : Stretch) → Takes 1 s (unsigned_at s) }
    ensures unsigned_16 { (s : Stretch) → Takes 1 s (unsigned_16_at s) }
    ensures unsigned_32 { (s : Stretch) → Takes 1 s (unsigned_32_at s) }
    ensures signed { (s : Stretch) → Takes 1 s (signed_at s) }
    ensures skip { (s : Stretch) → Passes 1 s (behind_string s (string_of s.bytes)) }
{}

/// After an unsigned number of variable length the other bytes of the stretch are left.
pub fn unsigned_leaves_the_rest()
    ensures { (s rest : Stretch) (n : ℕ) → unsigned_at s ≡ Ok (n, rest) → IsRest s rest }
{}

/// Lengths, offsets and addresses (DWARF 5, 7.2.2, 7.4 and 7.5.5). No address has the size 0.
pub fn lengths_take()
    ensures initial_length { (limit : ℕ) (s : Stretch) → Takes 4 s (initial_length_at limit s) }
    ensures word { (limit : ℕ) (format : Format) (s : Stretch)
        → Takes (word_size format) s (word_at limit format s) }
    ensures sized_offset { (limit size : ℕ) (s : Stretch)
        → Takes size s (sized_offset_at limit size s) }
    ensures address_size { (s : Stretch) → Takes 1 s (address_size_at s) }
    ensures address { (size : ℕ) (s : Stretch) → Takes size s (address_at size s) }
    ensures address_one { (size : ℕ) (s : Stretch) → Takes 1 s (address_at size s) }
{}

/// Strings take the zero at their end.
pub fn strings_take()
    ensures { (s : Stretch) → Takes 1 s (string_at s) }
{}

/// How much is left by one answer after another, by either of two, and by one that is known.
pub fn answers_leave<X, Y>()
    ensures { AnswersLeave X Y }
{}

/// Items that take a byte each are a list with an end.
pub fn items_take<A>()
    ensures item { (n : ℕ) (read : Parse A) (s : Stretch) → Takes n s (read s)
        → TakesItem n s (item_at read s) }
    ensures shrink { (step : Stretch → Answer Stretch A Error)
        → ((s : Stretch) → TakesItem 1 s (step s)) → Shrinks size_of step }
{}

/// What is left after a number, a part, a string or an address doesn't begin before it.
pub fn reads_go_on()
    ensures { ReadsGoOn }
{}

/// Where what is left begins: by one answer after another, by either of two, and by one that is
/// known.
pub fn answers_go_on<X, Y>()
    ensures { AnswersGoOn X Y }
{}
