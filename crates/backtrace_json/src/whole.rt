//! A law of the parts of a text. The function does nothing when the program runs.

ghost use Rattle.std.specs.Prelude.{◌≡◌, List};
ghost use Rattle.backtrace_headings.specs.Headings.{Heading};
ghost use Rattle.backtrace_text.specs.Threads.{Backtrace};
ghost use Rattle.backtrace_json.specs.Forms.{parts_in, text_in};
ghost use Rattle.backtrace_json.specs.declared.forms.TextForm.{TextForm};

/// The parts, one after the other, are the text.
pub fn text_by_parts()
    ensures { (form : TextForm) (said : Heading) (stacks : List Backtrace)
        → text_in form said stacks ≡ parts_in form said stacks }
{}
