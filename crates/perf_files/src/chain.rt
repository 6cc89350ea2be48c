//! The call chain that the kernel recorded.

ghost use Rattle.std.specs.Prelude.{◌≡◌, ◌++◌, IfOk, OnOk};
ghost use Rattle.perf_files.specs.Chains.{chain_frames, context_of};
ghost use Rattle.perf_files.specs.ChainViews.{GoesOn};
ghost use Rattle.perf_files.specs.declared.chain.Context.TheVariants.{User};

use crate::words::Words;
use std::alloc::AllocError;

/// Where code runs (`PERF_CONTEXT_*`).
#[derive(Debug, Clone, Copy, PartialEq, Eq)]
pub enum Context {
    /// In a process.
    User,
    /// In the kernel.
    Kernel,
    /// In a hypervisor.
    Hypervisor,
    /// In a guest, or where isn't known.
    Other,
}

/// A frame of a call chain.
#[derive(Debug, Clone, Copy, PartialEq, Eq)]
pub struct ChainFrame {
    /// Where its code runs.
    pub context: Context,
    /// The address: of the first frame the instruction pointer, of the others where they go on.
    pub address: u64,
}

// The numbers of contexts. All words from FIRST_CONTEXT on are no addresses.
const FIRST_CONTEXT: u64 = 0xffff_ffff_ffff_f001;

const HYPERVISOR: u64 = 0xffff_ffff_ffff_ffe0;

const KERNEL: u64 = 0xffff_ffff_ffff_ff80;

const USER: u64 = 0xffff_ffff_ffff_fe00;

// The context of the frames after a word, if that is no address.
fn context_of(word: u64) -> Option<Context>
    ensures { result ≡ context_of word }
{
    match word {
        HYPERVISOR => Some(Context::Hypervisor),
        KERNEL => Some(Context::Kernel),
        USER => Some(Context::User),
        word if word >= FIRST_CONTEXT => Some(Context::Other),
        _ => None,
    }
}

// Adds the frame of a word, or takes its context. Returns the context of the words after it.
fn push_word(
    frames: &mut Vec<ChainFrame>,
    context: Context,
    word: u64,
) -> Result<Context, AllocError>
    ensures { IfOk result (λ next. GoesOn frames.old.items frames.new.items context next word) }
{
    match context_of(word) {
        Some(next) => Ok(next),
        None => {
            frames.push(ChainFrame {
                context,
                address: word,
            })?;
            Ok(context)
        }
    }
}

/// Adds the frames of a call chain, from the innermost on; those before the first context run in a process. Fails if memory is refused;
/// then nothing is said of what was added.
pub fn push_frames(frames: &mut Vec<ChainFrame>, chain: &Words<'_>) -> Result<(), AllocError>
    ensures { OnOk result (frames.new.items ≡ frames.old.items ++ chain_frames User chain.now) }
{
    let mut context = Context::User;
    for index in 0..chain.len() {
        let Some(word) = chain.get(index) else {
            return Ok(());
        };
        context = push_word(frames, context, word)?;
    }
    Ok(())
}
