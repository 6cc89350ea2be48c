//! Callers of a list of commands and of an iterator over frames, whose contracts say what they get.

ghost use Rattle.std.specs.Prelude.{◌≡◌, List, map, IfOk};
ghost use Rattle.std.specs.List.{All};
ghost use Rattle.framehop_histories.specs.CommandViews.{OfCallback, act_of, reply_of};
ghost use Rattle.framehop_histories.specs.Performs.{IsAnsweredBy};
ghost use Rattle.framehop_histories.specs.Replies.{AreReplies};
ghost use Rattle.framehop_registers.specs.Callback.{AnswersBy, Words};
ghost use Rattle.framehop_unwinder.specs.IdViews.{modules_by};
ghost use Rattle.framehop_unwinder.specs.Judge.{judge};
ghost use Rattle.framehop_unwinder.specs.WalkViews.{walk_of};
ghost use Rattle.test_framehop.specs.Callers.{addresses_from, nothing};

use framehop_histories::{Answer, Command, perform};
use framehop_unwinder::{Error, ModuleUnwinding, Session, SessionUnwindIterator};
use std::alloc::{AllocError, Global};
use std::collections::VecDeque;

/// The answers to commands in a new session: the replies of the definition, in which no cache has a part.
pub fn answers_to<A: ModuleUnwinding, F: FnMut(u64) -> Result<u64, ()> + Drop>(
    alloc: Global,
    commands: &mut VecDeque<Command<A::UnwindData, A::UnwindContext, A::UnwindRegs, F>>,
) -> Result<Vec<Answer<A::UnwindRegs>>, AllocError>
    requires { All (OfCallback F.IsAlwaysCallable) commands.old.items }
    ensures { IfOk result (λ answers. (words : F → Words)
        → All (IsAnsweredBy F.step words) commands.old.items
        → AreReplies A.takes_memory A.asks_memory A.meanings nothing
        (map (act_of words) commands.old.items) (map reply_of answers.items)) }
{
    let mut session: Session<A> = Session::empty(alloc);
    perform(alloc, &mut session, commands)
}

/// The code addresses of the frames that are left, at most so many, up to a frame without a caller: those of the
/// walk by the modules of the unwinder, in which no cache has a part. Fails if memory is refused.
pub fn addresses_of<'s, 'r, A: ModuleUnwinding, F: FnMut(u64) -> Result<u64, ()>>(
    alloc: Global,
    frames: &mut SessionUnwindIterator<'s, 'r, A, F>,
    most: usize,
) -> Result<Vec<u64>, AllocError>
    requires { F.IsAlwaysCallable frames.old.stack.now }
    ensures callable { F.IsAlwaysCallable frames.new.stack.now }
    ensures addresses { IfOk result (λ addresses. (words : Words) → AnswersBy F.step frames.old.stack.now words
        → addresses.items ≡ addresses_from (judge A.meanings
        (modules_by frames.old.session.now frames.old.on.unwinder))
        words most (walk_of frames.old.on.walk)) }
{
    let mut addresses = Vec::new(alloc);
    for _ in 0..most {
        match frames.next() {
            Ok(Some(frame)) => addresses.push(frame.address())?,
            Ok(None) => return Ok(addresses),
            Err(error) => match error {
                Error::OutOfMemory => return Err(AllocError),
                _ => return Ok(addresses),
            },
        }
    }
    Ok(addresses)
}
