//! The frames of the kernel.

ghost use Rattle.std.specs.Prelude.{◌≡◌, ◌++◌, OnOk};
ghost use Rattle.sample_stacks.specs.KernelFrames.{is_kernel, kernel_addresses};

use perf_files::{ChainFrame, Context, Words, push_frames};
use std::alloc::{AllocError, Global};

// Whether a frame of a call chain is the kernel's.
fn is_kernel(frame: &ChainFrame) -> bool
    ensures { result ≡ is_kernel frame.now }
{
    matches!(frame.context, Context::Kernel)
}

/// Adds the addresses of the frames of the kernel that a call chain has, from the innermost on. Fails if memory is refused; then
/// nothing is said of what was added.
pub fn push_kernel_frames(
    alloc: Global,
    addresses: &mut Vec<u64>,
    chain: &Words<'_>,
) -> Result<(), AllocError>
    ensures { OnOk result (addresses.new.items ≡ addresses.old.items ++ kernel_addresses chain.now) }
{
    let mut frames = Vec::new(alloc);
    push_frames(&mut frames, chain)?;
    for frame in &frames {
        if is_kernel(frame) {
            addresses.push(frame.address)?;
        }
    }
    Ok(())
}
