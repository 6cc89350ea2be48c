//! How much was read so far, in a line on standard error, if that is a terminal.

use std::io::IsTerminal;

/// A line that says how many of some things were read.
#[derive(Clone, Copy, Debug)]
pub(crate) struct Progress {
    // What they are.
    what: &'static str,
    // How many there are.
    all: usize,
    // Whether the line is shown.
    is_shown: bool,
}

// How many lines are shown at most.
const MOST_LINES: usize = 100;

impl Progress {
    /// The line of so many things. It isn't shown unless standard error is a terminal.
    pub(crate) fn new(rt: &HostRuntime, what: &'static str, all: usize) -> Self {
        Progress {
            what,
            all,
            is_shown: rt.stderr().is_terminal(),
        }
    }

    // Whether the line is written for this many: for some of many things, not for each.
    fn is_due(self, read: usize) -> bool {
        self.is_shown && read % (self.all / MOST_LINES + 1) == 0
    }

    /// Shows how many were read, in place of what was shown before. That it can't be shown is no error.
    pub(crate) fn show(self, rt: &HostRuntime, read: usize) {
        if self.is_due(read) {
            let Progress { what, all, .. } = self;
            let _ = eprint!(rt; "\rbacktrace: read {read} of {all} {what}");
        }
    }

    /// Clears the line, once all are read.
    pub(crate) fn clear(self, rt: &HostRuntime) {
        if self.is_shown {
            let _ = eprint!(rt; "\r{:70}\r", "");
        }
    }
}
