//! The code address of a frame.

ghost use Rattle.std.specs.Prelude.{◌≡◌, ◌≢◌, ◌↔◌, IsTrue, IsNone, IfSome};
ghost use Rattle.framehop_registers.specs.FrameAddress.{address_of, lookup_address_of, IsReturnAddress};

use std::num::NonZeroU64;

/// An absolute code address of a frame: an address in the memory of the profiled process, taken
/// from the instruction pointer or from a return address.
#[derive(Clone, Copy, Debug, PartialEq, Eq)]
pub enum FrameAddress {
    /// The instruction pointer, where a walk starts.
    InstructionPointer(u64),

    /// A return address: the address of the instruction after the call.
    ReturnAddress(NonZeroU64),
}

impl FrameAddress {
    /// The address of a first frame.
    pub fn from_instruction_pointer(ip: u64) -> Self
        ensures { result ≡ FrameAddress.InstructionPointer ip }
    {
        FrameAddress::InstructionPointer(ip)
    }

    /// The address of a later frame, or `None` for 0.
    pub fn from_return_address(return_address: u64) -> Option<Self>
        ensures none { IsNone result ↔ (return_address ≡ 0) }
        ensures kind { IfSome result (λ address. IsReturnAddress address) }
        ensures address { IfSome result (λ address. address_of address ≡ return_address) }
    {
        let address = NonZeroU64::new(return_address)?;
        Some(FrameAddress::ReturnAddress(address))
    }

    /// The address itself.
    pub fn address(self) -> u64
        ensures { result ≡ address_of self }
    {
        match self {
            FrameAddress::InstructionPointer(address) => address,
            FrameAddress::ReturnAddress(address) => address.get(),
        }
    }

    /// The address that unwind information and symbols are looked up by. That of a return address
    /// is one byte lower, inside the call: where a call never returns it can be a function's last
    /// instruction, and the return address then lies in the next function.
    pub fn address_for_lookup(self) -> u64
        ensures { result ≡ lookup_address_of self }
    {
        match self {
            FrameAddress::InstructionPointer(address) => address,
            FrameAddress::ReturnAddress(address) => address.get() - 1,
        }
    }

    /// Whether this is a return address.
    pub fn is_return_address(self) -> bool
        ensures { IsTrue result ↔ IsReturnAddress self }
    {
        match self {
            FrameAddress::InstructionPointer(_) => false,
            FrameAddress::ReturnAddress(_) => true,
        }
    }
}
