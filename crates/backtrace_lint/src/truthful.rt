//! Laws of headers. They do nothing when the program runs.

ghost use Rattle.std.specs.Prelude.{◌≡◌, ◌↔◌, ◌<◌, []};
ghost use Rattle.dwarf_call_frames.specs.Truthful.{IsSound};
ghost use Rattle.backtrace_lint.specs.TruthfulHeaders.{HasTruthfulHeader, HasTruthfulRows, HeadedSection, headed_frames, headed_lines};

/// If no line is written of a header, and its section is sound, the header is truthful for that section.
pub fn headers_without_lines_are_truthful()
    ensures { (h : HeadedSection) → IsSound (headed_frames h) → headed_lines h ≡ [] → HasTruthfulHeader h }
{}

/// A truthful header has no line, if its table has a row; of a table without rows a line says that it has none. So a
/// header of a sound section has no line if and only if it is truthful and its table has a row.
pub fn truthful_headers_have_no_lines()
    ensures no_line { (h : HeadedSection) (t : HasTruthfulHeader h) → 0 < t.says.count → headed_lines h ≡ [] }
    ensures exactly { (h : HeadedSection) → IsSound (headed_frames h)
        → (headed_lines h ≡ []) ↔ HasTruthfulRows h }
{}
