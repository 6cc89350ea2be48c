//! A law of the code that linkers write. The function does nothing when the program runs.

ghost use Rattle.framehop_compact.specs.StubHelper.{PassesPushedWords};

/// By what is known of the code in `__stub_helper`, a first frame's rule goes past the words that the instructions before it have pushed.
pub fn known_helper_rules_pass_pushed_words()
    ensures { PassesPushedWords }
{}
