//! The section that several tests read.

/// An `.eh_frame` of a function that pushes and sets a frame pointer. Its CIE has the CFA at
/// RSP + 8 and the return address at CFA - 8. Its FDE covers 0x1000 to 0x1010: one byte further the
/// CFA is at RSP + 16 and RBP at CFA - 16, three bytes further the CFA is counted from RBP.
pub static WORKED: [u8; 56] = [
    0x10, 0, 0, 0, 0, 0, 0, 0, 1, 0, 1, 0x78, 0x10, 0x0c, 7, 8, 0x90, 1, 0, 0, 0x1c, 0, 0, 0, 0x18,
    0, 0, 0, 0, 0x10, 0, 0, 0, 0, 0, 0, 0x10, 0, 0, 0, 0, 0, 0, 0, 0x41, 0x0e, 0x10, 0x86, 2, 0x43,
    0x0d, 6, 0, 0, 0, 0,
];
