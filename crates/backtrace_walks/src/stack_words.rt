//! The walk over a thread's stack, in the memory of a process.

ghost use Rattle.std.specs.Prelude.{◌≡◌};
ghost use Rattle.core_files.specs.MemoryViews.{word_of};
ghost use Rattle.framehop_registers.specs.Callback.{read_answer};
ghost use Rattle.backtrace_walks.specs.SessionViews.{IsReady, KeepsModules, advance_in};
ghost use Rattle.backtrace_walks.specs.WalkedViews.{IsAdvance};

use crate::arch::{FileModules, ThreadArch};
use crate::walks::{NextFrame, next_frame};
use core_files::Memory;
use framehop::{Session, StackWalk};
use framehop_whole_modules::WholeRegs;

// The word at an address.
fn word_at(memory: &Memory<'_, '_>, address: u64) -> Result<u64, ()>
    ensures { result ≡ read_answer (word_of memory.now address) }
{
    memory.word(address).ok_or(())
}

/// Makes the next move of a walk over a thread's stack, as [`next_frame`] does. The words of the stack are those of the memory.
pub fn next_in_memory<'a, A: ThreadArch>(
    session: &mut Session<FileModules<'a, A>>,
    memory: &Memory<'_, 'a>,
    walk: &mut StackWalk<WholeRegs<A::UnwindRegs>>,
) -> NextFrame<WholeRegs<A::UnwindRegs>>
    requires { IsReady session.old }
    ensures next { IsAdvance result walk.new
        (advance_in A.stacks session.old memory.now walk.old (word_of memory.now)) }
    ensures session { KeepsModules session.old session.new }
{
    let mut read_stack = |at: u64| -> Result<u64, ()>
        ensures answer { result ≡ read_answer (word_of memory.entry.now at) }
        ensures same { memory.exit ≡ memory.entry }
    { word_at(memory, at) };
    next_frame::<A, _>(session, memory, walk, &mut read_stack)
}
