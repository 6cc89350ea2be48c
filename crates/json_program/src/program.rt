//! A program: one document in, text out.

ghost use Rattle.std.specs.Prelude.{◌≡◌, ◌<◌, ℕ, List, length, false, IfOk, IfSome, IsErrOf};
ghost use Rattle.json_program.specs.Errors.{ReportsFailures};
ghost use Rattle.json_program.specs.Stream.{WritesText};
ghost use Rattle.json_program.specs.declared.transfer.TheConstants.{DOCUMENT_LIMIT};

use crate::status::RunError;
use crate::stream::{Sink, Source};
use crate::transfer::read_document;
use std::alloc::Global;

/// What a program writes for a document, and how its run ends.
pub trait Program {
    /// How a run ends that wrote its whole text.
    type Ending;

    /// The text for a document of these bytes.
    ghost text_of: { List ℕ → List ℕ };

    /// How the run over such a document ends.
    ghost ending_of: { List ℕ → Self.Ending };

    /// Writes the text for a document of these bytes, and returns how the run ends.
    fn answer<W: Sink>(
        alloc: Global,
        document: &[u8],
        writer: &mut W,
    ) -> Result<Self::Ending, RunError>
        requires { W.has_failed writer.old ≡ false }
        ensures text { WritesText result (W.contents writer.old) (W.contents writer.new)
            (text_of document.now) }
        ensures ending { IfOk result (λ ending. ending ≡ ending_of document.now) }
        ensures errors { ReportsFailures result false (W.has_failed writer.new) };

    /// For all documents that are too long the text and the ending are the same.
    ghost too_long: { (one other : List ℕ)
        → DOCUMENT_LIMIT < length one → DOCUMENT_LIMIT < length other
        → (text_of one ≡ text_of other) × (ending_of one ≡ ending_of other) };

    /// Reads a document, and writes the program's text for it.
    ///
    /// A run that fails has written a prefix of the whole text, and nothing if the document couldn't
    /// be read.
    final fn run<R: Source, W: Sink>(
        alloc: Global,
        reader: &mut R,
        writer: &mut W,
    ) -> Result<Self::Ending, RunError>
        requires reader { R.has_failed reader.old ≡ false }
        requires writer { W.has_failed writer.old ≡ false }
        ensures text { IfSome (R.remaining reader.old) (λ all. WritesText result
            (W.contents writer.old) (W.contents writer.new) (text_of all)) }
        ensures ending { IfOk result (λ ending.
            IfSome (R.remaining reader.old) (λ all. ending ≡ ending_of all)) }
        ensures errors { ReportsFailures result
            (R.has_failed reader.new) (W.has_failed writer.new) }
        ensures unwritten { IsErrOf result RunError.Read
            → W.contents writer.new ≡ W.contents writer.old }
    {
        let document = read_document(alloc, reader)?;
        Self::answer(alloc, document.as_slice(), writer)
    }
}
