//! The numbers of the names in a sample's stack.

ghost use Rattle.std.specs.Prelude.{◌≡◌, IfOk, OnOk};
ghost use Rattle.std.specs.List.{AllZip};
ghost use Rattle.std.specs.Option.{option_copied};
ghost use Rattle.fold_stacks.specs.FrameNames.{HasName, KeepsLabels, NamesFrame, NamesKernelFrame};
ghost use Rattle.fold_stacks.specs.FrameTexts.{process_text};
ghost use Rattle.fold_stacks.specs.Frames.{end_text};
ghost use Rattle.fold_stacks.specs.StackNames.{NamesIf, NamesKernelFrames, shown_thread};

use crate::files::SampledFiles;
use crate::frames::UserFrame;
use crate::labels::Labels;
use crate::names::{BROKEN, TRUNCATED, push_process};
use fold_options::FoldOptions;
use perf_files::{Sample, ThreadId};
use perf_processes::Processes;
use sample_stacks::{WalkEnd, push_kernel_frames};
use std::alloc::{AllocError, Global};

// What a walk has in place of its outermost frame, by how it ends.
fn end_text(end: WalkEnd) -> Option<&'static [u8]>
    ensures { option_copied result ≡ end_text end }
{
    match end {
        WalkEnd::Complete => None,
        WalkEnd::Truncated => Some(TRUNCATED),
        WalkEnd::Broken => Some(BROKEN),
    }
}

impl Labels {
    /// The number of what a stack begins with.
    pub(crate) fn process_number(
        &mut self,
        alloc: Global,
        options: &FoldOptions<'_>,
        comm: &[u8],
        thread: ThreadId,
    ) -> Result<u32, AllocError>
        ensures number { IfOk result (λ number. HasName self.new.names number (process_text comm.now (shown_thread options.now thread))) }
        ensures kept { KeepsLabels self.old self.new }
    {
        let shown = if options.per_thread {
            Some(thread)
        } else {
            None
        };
        let mut text = Vec::new(alloc);
        push_process(alloc, &mut text, comm, shown)?;
        self.number_of(text.as_slice())
    }

    // The number of the name of a frame of user code, or of its address as a name.
    fn user_number<F: SampledFiles>(
        &mut self,
        alloc: Global,
        files: &mut F,
        processes: &Processes,
        addresses: bool,
        pid: u32,
        frame: &UserFrame,
    ) -> Result<u32, AllocError>
        ensures number { IfOk result (λ number. NamesFrame self.new addresses frame.now number) }
        ensures kept { KeepsLabels self.old self.new }
    {
        if addresses {
            self.number_of_address(alloc, frame.address)
        } else {
            self.number_of_frame::<F>(alloc, files, processes, pid, frame)
        }
    }

    /// The numbers of the names of frames of user code.
    pub(crate) fn user_numbers<F: SampledFiles>(
        &mut self,
        alloc: Global,
        files: &mut F,
        processes: &Processes,
        addresses: bool,
        pid: u32,
        frames: &[UserFrame],
    ) -> Result<Vec<u32>, AllocError>
        ensures numbers { IfOk result (λ numbers. AllZip (NamesFrame self.new addresses) frames.now numbers.items) }
        ensures kept { OnOk result (KeepsLabels self.old self.new) }
    {
        let mut numbers = Vec::with_capacity(alloc, frames.len())?;
        for frame in frames {
            let number = self.user_number::<F>(alloc, files, processes, addresses, pid, frame)?;
            numbers.push(number)?;
        }
        Ok(numbers)
    }

    // The number of the name of a frame of the kernel, or of its address as a name.
    fn kernel_frame_number<F: SampledFiles>(
        &mut self,
        alloc: Global,
        files: &mut F,
        addresses: bool,
        address: u64,
    ) -> Result<u32, AllocError>
        ensures number { IfOk result (λ number. NamesKernelFrame self.new addresses address number) }
        ensures kept { KeepsLabels self.old self.new }
    {
        if addresses {
            self.number_of_address(alloc, address)
        } else {
            self.number_of_kernel::<F>(alloc, files, address)
        }
    }

    // The numbers of the names of frames of the kernel.
    fn numbers_of_kernel<F: SampledFiles>(
        &mut self,
        alloc: Global,
        files: &mut F,
        addresses: bool,
        frames: &[u64],
    ) -> Result<Vec<u32>, AllocError>
        ensures numbers { IfOk result (λ numbers. AllZip (NamesKernelFrame self.new addresses) frames.now numbers.items) }
        ensures kept { OnOk result (KeepsLabels self.old self.new) }
    {
        let mut numbers = Vec::with_capacity(alloc, frames.len())?;
        for address in frames {
            let number = self.kernel_frame_number::<F>(alloc, files, addresses, *address)?;
            numbers.push(number)?;
        }
        Ok(numbers)
    }

    /// The numbers of the names of the kernel's frames of a sample.
    pub(crate) fn kernel_numbers<F: SampledFiles>(
        &mut self,
        alloc: Global,
        options: &FoldOptions<'_>,
        files: &mut F,
        sample: &Sample<'_>,
    ) -> Result<Vec<u32>, AllocError>
        ensures numbers { IfOk result (λ numbers. NamesKernelFrames options.now self.new sample.now.call_chain numbers.items) }
        ensures kept { OnOk result (KeepsLabels self.old self.new) }
    {
        if options.no_kernel {
            return Ok(Vec::new(alloc));
        }
        let mut frames = Vec::with_capacity(alloc, sample.call_chain.len())?;
        push_kernel_frames(alloc, &mut frames, &sample.call_chain)?;
        self.numbers_of_kernel::<F>(alloc, files, options.addresses, frames.as_slice())
    }

    /// The number of what a walk has in place of its outermost frame.
    pub(crate) fn end_number(&mut self, end: WalkEnd) -> Result<Option<u32>, AllocError>
        ensures number { IfOk result (λ number. NamesIf self.new.names (end_text end) number) }
        ensures kept { KeepsLabels self.old self.new }
    {
        match end_text(end) {
            Some(text) => Ok(Some(self.number_of(text)?)),
            None => Ok(None),
        }
    }
}
