//! Folded stacks.

ghost use Rattle.flame_graph.specs.Stacks.{Totals};

use crate::error::FlameError;

/// A stack with the number of samples that have it.
#[derive(Debug, Drop)]
pub struct FoldedStack {
    /// The names from the outermost to the innermost, with semicolons between them.
    pub text: Vec<u8>,
    /// How many samples have it, or another weight of them.
    pub count: u64,
}

/// The samples of all stacks.
pub fn total(stacks: &[FoldedStack]) -> Result<u64, FlameError>
    ensures { Totals stacks.now result }
{
    let mut sum: u64 = 0;
    for stack in stacks {
        let Some(more) = sum.checked_add(stack.count) else {
            return Err(FlameError::TooManySamples);
        };
        sum = more;
    }
    Ok(sum)
}
