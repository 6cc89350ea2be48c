//! The registers that a step on x86_64 knows, by their numbers in DWARF.
use dwarf_read_core::Register;
use framehop::DwarfUnwindRegs;
use framehop::x86_64::UnwindRegsX86_64;

/// Registers by their numbers in DWARF, and what they hold.
static REGISTERS: [(Register, Option<u64>); 5] = [
    (Register(16), Some(1)),
    (Register(7), Some(2)),
    (Register(6), Some(3)),
    (Register(0), None),
    (Register(17), None),
];

#[test]
fn registers_by_their_numbers(rt: HostRuntime) {
    let regs = UnwindRegsX86_64::new(1, 2, 3);
    for &(register, value) in &REGISTERS {
        assert!(rt; DwarfUnwindRegs::get(&regs, register) == value);
    }
}
