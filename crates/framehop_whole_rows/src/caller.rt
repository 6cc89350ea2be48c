//! The caller that a row gives (DWARF 5, 6.4.3).

ghost use Rattle.std.specs.Prelude.{◌≡◌, Ok};
ghost use Rattle.framehop_expressions.specs.Architectures.{sign_state};
ghost use Rattle.framehop_whole_rows.specs.Callers.{AreRegisters, IsResult, OverRow, caller_register, code_address, given, is_signed, register_after, returned, returned_at, returned_to};

use crate::place::RowPlace;
use dwarf_constants::{AArch64, Register};
use dwarf_frame_rows::{RegisterRule, RuledRegister};
use dwarf_readers::Reader;
use dwarf_storage::ArrayLike;
use framehop_expressions::{KnownRegisters, Unknown};
use framehop_registers::aarch64::PtrAuthMask;

/// Why a row gives no caller.
#[derive(Debug, Clone, Copy, PartialEq, Eq)]
pub enum CallerError {
    /// The canonical frame address isn't known.
    Cfa(Unknown),
    /// The return address isn't known.
    ReturnAddress(Unknown),
}

/// The caller of a frame.
#[derive(Debug, Clone, Copy)]
pub struct KnownCaller {
    /// The return address, without its authentication code.
    pub return_address: u64,
    /// The registers, as far as they are known.
    pub registers: KnownRegisters,
}

// The canonical frame address and the return address.
#[derive(Clone, Copy)]
pub(crate) struct Returned {
    pub(crate) cfa: u64,
    pub(crate) address: u64,
}

impl<'a, R: Reader, Rules: ArrayLike<Item = RuledRegister<RegisterRule<R::Offset>>>> RowPlace<
    'a,
    R,
    Rules,
> {
    /// The caller by the row and by the registers of the frame that are known. `read` reads the word of 8 bytes at an address. `None`
    /// says that there is no caller: the return address is undefined. A register whose rule gives no value is unknown in the caller.
    /// That a walk advances is for the walk to see.
    pub fn caller_by_row<F: FnMut(u64) -> Result<u64, ()>>(
        &self,
        read: &mut F,
    ) -> Result<Option<KnownCaller>, CallerError>
        requires { F.IsAlwaysCallable read.old }
        ensures callable { F.IsAlwaysCallable read.new }
        ensures caller { OverRow F.step read.old read.new self.now (λ r. IsResult r result) }
    {
        match self.returned(read) {
            Ok(Some(to)) => {
                let registers = self.registers_after(to, read);
                Ok(Some(KnownCaller {
                    return_address: to.address,
                    registers,
                }))
            }
            Ok(None) => Ok(None),
            Err(why) => Err(why),
        }
    }

    // The canonical frame address and the return address, if there is a caller.
    fn returned<F: FnMut(u64) -> Result<u64, ()>>(
        &self,
        read: &mut F,
    ) -> Result<Option<Returned>, CallerError>
        requires { F.IsAlwaysCallable read.old }
        ensures callable { F.IsAlwaysCallable read.new }
        ensures value { OverRow F.step read.old read.new self.now (λ r. result ≡ returned r) }
    {
        match self.cfa_value(self.cfa_rule(), read) {
            Ok(cfa) => self.returned_at(cfa, read),
            Err(why) => Err(CallerError::Cfa(why)),
        }
    }

    // The return address at a CFA, if there is a caller.
    fn returned_at<F: FnMut(u64) -> Result<u64, ()>>(
        &self,
        cfa: u64,
        read: &mut F,
    ) -> Result<Option<Returned>, CallerError>
        requires { F.IsAlwaysCallable read.old }
        ensures callable { F.IsAlwaysCallable read.new }
        ensures value { OverRow F.step read.old read.new self.now (λ r.
            result ≡ returned_at r (Ok cfa)) }
    {
        match self.return_by(self.return_rule(), cfa, read) {
            Ok(address) => Ok(self.returned_to(cfa, address, read)),
            Err(why) => Err(CallerError::ReturnAddress(why)),
        }
    }

    // The canonical frame address and the return address, if there is one, without its authentication code.
    fn returned_to<F: FnMut(u64) -> Result<u64, ()>>(
        &self,
        cfa: u64,
        address: Option<u64>,
        read: &mut F,
    ) -> Option<Returned>
        requires { F.IsAlwaysCallable read.old }
        ensures callable { F.IsAlwaysCallable read.new }
        ensures value { OverRow F.step read.old read.new self.now (λ r.
            result ≡ returned_to r cfa address) }
    {
        match address {
            Some(address) => {
                let is_signed = self.is_signed(cfa, read);
                let address = code_address(self.registers.mask(), is_signed, address);
                Some(Returned { cfa, address })
            }
            None => None,
        }
    }

    // Whether the row says that the return address is signed.
    fn is_signed<F: FnMut(u64) -> Result<u64, ()>>(&self, cfa: u64, read: &mut F) -> bool
        requires { F.IsAlwaysCallable read.old }
        ensures callable { F.IsAlwaysCallable read.new }
        ensures value { OverRow F.step read.old read.new self.now (λ r.
            result ≡ is_signed (given r cfa sign_state)) }
    {
        match self.given(cfa, AArch64::RA_SIGN_STATE, read) {
            Ok(state) => state % 2 == 1,
            Err(_) => false,
        }
    }

    // The value of a register of the caller.
    fn given<F: FnMut(u64) -> Result<u64, ()>>(
        &self,
        cfa: u64,
        register: Register,
        read: &mut F,
    ) -> Result<u64, Unknown>
        requires { F.IsAlwaysCallable read.old }
        ensures callable { F.IsAlwaysCallable read.new }
        ensures value { OverRow F.step read.old read.new self.now (λ r.
            result ≡ given r cfa register.0) }
    {
        self.given_by(self.rule_of(register), cfa, register, read)
    }

    // A register of the caller, if it is known.
    fn caller_register<F: FnMut(u64) -> Result<u64, ()>>(
        &self,
        to: Returned,
        register: Register,
        read: &mut F,
    ) -> Option<u64>
        requires { F.IsAlwaysCallable read.old }
        ensures callable { F.IsAlwaysCallable read.new }
        ensures value { OverRow F.step read.old read.new self.now (λ r.
            result ≡ caller_register r to register.0) }
    {
        if register.0 == self.registers.architecture().instruction_pointer() {
            return Some(to.address);
        }
        if register.0 == self.column.0 {
            return None;
        }
        match self.given(to.cfa, register, read) {
            Ok(value) => Some(value),
            Err(_) => None,
        }
    }

    // The registers of the caller.
    fn registers_after<F: FnMut(u64) -> Result<u64, ()>>(
        &self,
        to: Returned,
        read: &mut F,
    ) -> KnownRegisters
        requires { F.IsAlwaysCallable read.old }
        ensures callable { F.IsAlwaysCallable read.new }
        ensures registers { OverRow F.step read.old read.new self.now (λ r.
            AreRegisters r result (register_after r to)) }
    {
        let architecture = self.registers.architecture();
        let mut caller = KnownRegisters::unknown(architecture, self.registers.mask());
        for number in 0..architecture.register_count() {
            let value = self.caller_register(to, Register(number), read);
            caller.set(Register(number), value);
        }
        caller
    }
}

// A return address without its authentication code, if it is signed.
fn code_address(mask: PtrAuthMask, is_signed: bool, address: u64) -> u64
    ensures { result ≡ code_address mask is_signed address }
{
    if is_signed {
        mask.strip_ptr_auth(address)
    } else {
        address
    }
}
