//! A worked section with a header. The function does nothing when the program runs.

ghost use Rattle.framehop.specs.TruthfulLookups.{AreTruthful};
ghost use Rattle.test_framehop.specs.WorkedHeader.{worked_header};

/// The header of a section whose FDEs aren't in the order of their starts is truthful: so says a computation over
/// the bytes of both.
pub fn worked_header_is_truthful()
    ensures { AreTruthful worked_header }
{}
