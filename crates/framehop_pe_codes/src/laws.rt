//! A law of epilogs. The function does nothing when the program runs.

ghost use Rattle.framehop_pe_codes.specs.EpilogInstructions.{AreReadAsSpelled};

/// Some bytes are read as what is left of an epilog exactly if its instructions spell them, up to the one that ends it: each epilog that
/// is spelled is read, and nothing else is.
pub fn epilogs_are_read_as_spelled()
    ensures { AreReadAsSpelled }
{}
