//! The order of the names in a stack.

ghost use Rattle.std.specs.Prelude.{◌≡◌, ◌++◌, IfOk, OnOk};
ghost use Rattle.fold_stacks.specs.Stacks.{innermost_first, numbers_if, stack_numbers};

use std::alloc::{AllocError, Global};

/// The parts of a stack, each by the numbers of its names. Frames are from the innermost on.
#[derive(Clone, Copy, Debug)]
pub struct StackParts<'p> {
    /// The process.
    pub process: u32,
    /// Why the walk ended before the end of the stack, if it did.
    pub end: Option<u32>,
    /// The frames of user code.
    pub user: &'p [u32],
    /// The frames of the kernel.
    pub kernel: &'p [u32],
}

// Adds a number, if there is one.
fn push_if(stack: &mut Vec<u32>, number: Option<u32>) -> Result<(), AllocError>
    ensures { OnOk result (stack.new.items ≡ stack.old.items ++ numbers_if number) }
{
    if let Some(number) = number {
        stack.push(number)?;
    }
    Ok(())
}

// Adds all but the process's name, from the innermost on.
fn push_innermost_first(stack: &mut Vec<u32>, parts: &StackParts<'_>) -> Result<(), AllocError>
    ensures { OnOk result (stack.new.items ≡ stack.old.items ++ innermost_first parts.now) }
{
    stack.extend_from_slice(parts.kernel)?;
    stack.extend_from_slice(parts.user)?;
    push_if(stack, parts.end)
}

/// The names of a stack: the frames' from the innermost on, or inverted from the outermost on, and then the process's. What says why a
/// walk ended stands in place of the outermost frame, and frames of the kernel are inside of those of user code.
pub fn folded_stack(
    alloc: Global,
    parts: &StackParts<'_>,
    inverted: bool,
) -> Result<Vec<u32>, AllocError>
    ensures { IfOk result (λ stack. stack.items ≡ stack_numbers parts.now inverted) }
{
    let frames = parts.kernel.len().saturating_add(parts.user.len());
    let mut stack = Vec::with_capacity(alloc, frames.saturating_add(2))?;
    push_innermost_first(&mut stack, parts)?;
    if inverted {
        stack.reverse();
    }
    stack.push(parts.process)?;
    Ok(stack)
}
