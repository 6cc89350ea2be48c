//! Sessions of either architecture, and calls on them.

ghost use Rattle.std.specs.Prelude.{ℕ};
ghost use Rattle.framehop_c.specs.Sessions.{Does, Relation};

use framehop::aarch64::ArchAarch64;
use framehop::x86_64::ArchX86_64;
use framehop::{BySections, MayAllocateDuringUnwind, ModuleUnwindData, ModuleUnwinding};
use framehop_calls::{CountedSession, let_go};

/// What steps on an architecture go by: sections that are lent, and memory for the values of expressions alone.
pub(crate) type Lent<A> = BySections<A, &'static [u8], MayAllocateDuringUnwind>;

/// What modules are unwound by whose sections are lent.
pub(crate) type LentData = ModuleUnwindData<&'static [u8]>;

/// A session of either architecture.
pub enum AnySession {
    /// On x86_64.
    X86_64(CountedSession<Lent<ArchX86_64>>),
    /// On aarch64.
    Aarch64(CountedSession<Lent<ArchAarch64>>),
}

impl Drop for AnySession {
    fn drop(self) {
        match self {
            AnySession::X86_64(session) => let_go(session),
            AnySession::Aarch64(session) => let_go(session),
        }
    }
}

/// A call on a session of any architecture.
pub(crate) trait SessionCall {
    /// What is said of it before and after it is made, of the status, and of the session.
    ghost does: { Self → Self → ℕ → Relation };

    /// Makes it, and answers its status.
    fn make<A: ModuleUnwinding<UnwindData = LentData>>(
        &mut self,
        session: &mut CountedSession<A>,
    ) -> u32
        ensures { does self.old self.new result A.UnwindRule session.old session.new };
}

impl AnySession {
    /// Makes a call on it. Calls go through here, so that there is one proof for the two architectures.
    pub(crate) fn make<C: SessionCall>(&mut self, call: &mut C) -> u32
        ensures { Does (C.does call.old call.new result) self.old self.new }
    {
        match self {
            AnySession::X86_64(session) => call.make(session),
            AnySession::Aarch64(session) => call.make(session),
        }
    }
}
