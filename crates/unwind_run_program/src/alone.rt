//! A step over one module alone.

ghost use Rattle.std.specs.Prelude.{◌≡◌, ◌∷◌, [], false};
ghost use Rattle.framehop_registers.specs.Callback.{OverWords};
ghost use Rattle.framehop_rules.specs.Outcome.{IsStep};
ghost use Rattle.framehop_unwinder.specs.Frames.{frame_of};
ghost use Rattle.framehop_unwinder.specs.Judge.{judge};
ghost use Rattle.framehop_unwinder.specs.Trials.{StaysUnlessStepped, wants_memory};

use framehop_modules::Generations;
use framehop_rules::{Error, FrameAddress};
use framehop_unwinder::{Cache, Module, ModuleUnwinding, Unwinder, UnwinderInternal};
use std::alloc::Global;

/// Makes the step from a frame over one module, through a new cache with this context. If memory for
/// the module or the cache can't be allocated, the error is the step's `OutOfMemory`, and the registers
/// stay as they are.
pub fn step_alone<A: ModuleUnwinding, F: FnMut(u64) -> Result<u64, ()>>(
    alloc: Global,
    module: Module<A::UnwindData>,
    unwind_context: A::UnwindContext,
    address: FrameAddress,
    regs: &mut A::UnwindRegs,
    read_stack: &mut F,
) -> Result<Option<u64>, Error>
    requires { F.IsAlwaysCallable read_stack.old }
    ensures callable { F.IsAlwaysCallable read_stack.new }
    ensures step { OverWords F.step read_stack.old read_stack.new (λ words. wants_memory result ≡ false
        → IsStep result regs.old regs.new
        (judge A.meanings («module» ∷ []) (frame_of address) regs.old words)) }
    ensures stays { StaysUnlessStepped result regs.old regs.new }
{
    let mut generations = Generations::starting_at(0);
    let mut unwinder = UnwinderInternal::<A>::new(alloc, &mut generations).unwrap();
    if unwinder.add_module(&mut generations, module).is_err() {
        return Err(Error::OutOfMemory);
    }
    let Ok(mut cache) = Cache::new(alloc, unwind_context) else {
        return Err(Error::OutOfMemory);
    };
    unwinder.unwind_frame(address, regs, &mut cache, read_stack)
}
