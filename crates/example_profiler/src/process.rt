//! What a profiler knows of a process: a library, stacks of a thread, and the registers of three samples of it.

ghost use Rattle.std.specs.Prelude.{◌≡◌};
ghost use Rattle.framehop_registers.specs.Callback.{read_answer};
ghost use Rattle.example_profiler.specs.Stacks.{words_of};

use anyhow::Result;
use framehop::x86_64::UnwindRegsX86_64;
use framehop::{ExplicitModuleSectionInfo, LoadOptions, Module, load_module};
use std::alloc::Global;

/// The registers of a thread that was stopped, and its stack.
pub struct Sample {
    pub ip: u64,
    sp: u64,
    bp: u64,
    stack: [u64; 16],
}

impl Sample {
    /// The registers.
    pub fn regs(&self) -> UnwindRegsX86_64 {
        UnwindRegsX86_64::new(self.ip, self.sp, self.bp)
    }

    /// The word of the stack at an address. `Err` if there is none. The stack begins at address 0.
    pub fn word_at(&self, address: u64) -> std::result::Result<u64, ()>
        ensures { result ≡ read_answer (words_of self.now address) }
    {
        if address % 8 != 0 {
            return Err(());
        }
        self.stack.get((address / 8) as usize).copied().ok_or(())
    }
}

/// The words of the stack: the frames' pointers lie at 0x20 and 0x40, the last at 0x70.
const STACK: [u64; 16] = [
    0x1, 0x2, 0x100300, 0x20, 0x40, 0x100200, 0x5, 0x6, 0x70, 0x100100, 0x7, 0x8, 0x9, 0xa, 0x0,
    0x0,
];

/// The same, but that the second frame's caller has its frame pointer beyond what was copied of the stack.
const CUT_OFF: [u64; 16] = [
    0x1, 0x2, 0x100300, 0x20, 0x40, 0x100200, 0x5, 0x6, 0x100, 0x100100, 0x7, 0x8, 0x9, 0xa, 0x0,
    0x0,
];

/// A function of sixteen bytes at 0x101000: before it stores the caller's frame pointer, and after, over a whole stack and over
/// one that is cut off.
pub static SAMPLES: [Sample; 3] = [
    Sample {
        ip: 0x101000,
        sp: 0x10,
        bp: 0x20,
        stack: STACK,
    },
    Sample {
        ip: 0x101004,
        sp: 0x18,
        bp: 0x20,
        stack: STACK,
    },
    Sample {
        ip: 0x101004,
        sp: 0x18,
        bp: 0x20,
        stack: CUT_OFF,
    },
];

/// The library's section `.eh_frame`: a CIE and an FDE for the function at 0x1000, as the section calls it.
static EH_FRAME: [u8; 56] = [
    0x10, 0, 0, 0, 0, 0, 0, 0, 1, 0, 1, 0x78, 0x10, 0x0c, 7, 8, 0x90, 1, 0, 0, 0x1c, 0, 0, 0, 0x18,
    0, 0, 0, 0, 0x10, 0, 0, 0, 0, 0, 0, 0x10, 0, 0, 0, 0, 0, 0, 0, 0x41, 0x0e, 0x10, 0x86, 2, 0x43,
    0x0d, 6, 0, 0, 0, 0,
];

// A library with these sections, which is loaded at 0x100000.
fn loaded(
    alloc: Global,
    name: &str,
    sections: ExplicitModuleSectionInfo<Vec<u8>>,
) -> Result<Module<Vec<u8>>> {
    Ok(load_module(
        alloc,
        String::from_str(alloc, name)?,
        0x100000..0x102000,
        0x100000,
        sections,
        LoadOptions::default(),
    )?)
}

/// The library.
pub fn library(alloc: Global) -> Result<Module<Vec<u8>>> {
    let sections = ExplicitModuleSectionInfo {
        base_svma: 0,
        eh_frame: Some(EH_FRAME.to_vec(alloc)?),
        ..Default::default()
    };
    loaded(alloc, "library", sections)
}

/// A library of another process, at the same place, whose section says nothing of the function.
pub fn other_library(alloc: Global) -> Result<Module<Vec<u8>>> {
    loaded(alloc, "other library", ExplicitModuleSectionInfo::default())
}
