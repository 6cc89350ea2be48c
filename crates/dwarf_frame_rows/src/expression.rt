//! Expressions of call frames, by their offsets (DWARF 5, 6.4.2).

ghost use Rattle.dwarf_endianity.specs.Answers.{Gives};
ghost use Rattle.dwarf_frame_rows.specs.Expressions.{expression_bytes};

use crate::_UnwindSectionPrivate;
use dwarf_constants::Result;
use dwarf_operations::Expression;
use dwarf_readers::Reader;

/// An expression, by its offset in its section and its length.
#[derive(Debug, Clone, Copy, PartialEq, Eq)]
pub struct UnwindExpression<T> {
    /// The offset of its first byte from the section's start.
    pub offset: T,
    /// Its length in bytes.
    pub length: T,
}

impl<T: Copy> UnwindExpression<T> {
    /// The expression's bytes, from its section. Fails if the section ends before they do.
    pub fn get<R: Reader<Offset = T>, S: _UnwindSectionPrivate<R>>(
        &self,
        section: &S,
    ) -> Result<Expression<R>>
        ensures { Gives (λ e. R.stretch e.0) result
            (expression_bytes T.value (R.stretch (S.reader section.now)) self.now) }
    {
        let reader: &R = _UnwindSectionPrivate::section(section);
        let mut rest = *reader;
        rest.skip(self.offset)?;
        let bytes = rest.split(self.length)?;
        Ok(Expression(bytes))
    }
}
