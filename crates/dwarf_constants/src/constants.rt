//! The constants of DWARF 5, section 7, and of the call frames of the LSB.

ghost use Rattle.std.specs.Prelude.{◌≡◌, ◌↔◌, ◌==◌, IsTrue, IsBitSet, Contains, Some, bit_or, option_map, codes};
ghost use Rattle.std.specs.List.{list_any};
ghost use Rattle.dwarf_constants.specs.Names.{name_in, shown_code, cfa_names, children_names, operation_names, plain_operation_names, literal_names, register_offset_names, pointer_names};
ghost use Rattle.dwarf_constants.specs.Pointer.{format_of, application_of, formats, applications, valid_encodings};

use std::fmt;
use std::ops::BitOr;

/// The name of the constant, among those listed, that the value equals.
macro_rules! name_of {
    ($value:expr; $($name:ident),* $(,)?) => {
        match $value {
            $($name => Some(stringify!($name)),)*
            _ => None,
        }
    };
}

/// Whether the value is one of the constants listed.
macro_rules! is_one_of {
    ($value:expr; $($name:ident),* $(,)?) => {
        match $value {
            $($name => true,)*
            _ => false,
        }
    };
}

mod form;

pub use form::{
    DW_FORM_GNU_addr_index, DW_FORM_GNU_ref_alt, DW_FORM_GNU_str_index, DW_FORM_GNU_strp_alt,
    DW_FORM_addr, DW_FORM_addrx, DW_FORM_addrx1, DW_FORM_addrx2, DW_FORM_addrx3, DW_FORM_addrx4,
    DW_FORM_block, DW_FORM_block1, DW_FORM_block2, DW_FORM_block4, DW_FORM_data1, DW_FORM_data2,
    DW_FORM_data4, DW_FORM_data8, DW_FORM_data16, DW_FORM_exprloc, DW_FORM_flag,
    DW_FORM_flag_present, DW_FORM_implicit_const, DW_FORM_indirect, DW_FORM_line_strp,
    DW_FORM_loclistx, DW_FORM_ref_addr, DW_FORM_ref_sig8, DW_FORM_ref_sup4, DW_FORM_ref_sup8,
    DW_FORM_ref_udata, DW_FORM_ref1, DW_FORM_ref2, DW_FORM_ref4, DW_FORM_ref8, DW_FORM_rnglistx,
    DW_FORM_sdata, DW_FORM_sec_offset, DW_FORM_string, DW_FORM_strp, DW_FORM_strp_sup,
    DW_FORM_strx, DW_FORM_strx1, DW_FORM_strx2, DW_FORM_strx3, DW_FORM_strx4, DW_FORM_udata,
    DwForm,
};

/// The opcode of a call frame instruction (DWARF 5, 7.24, table 7.29).
#[derive(Debug, Clone, Copy, PartialEq, Eq, PartialOrd, Ord, Hash)]
pub struct DwCfa(pub u8);

pub const DW_CFA_advance_loc: DwCfa = DwCfa(0x40);

pub const DW_CFA_offset: DwCfa = DwCfa(0x80);

pub const DW_CFA_restore: DwCfa = DwCfa(0xc0);

pub const DW_CFA_nop: DwCfa = DwCfa(0x00);

pub const DW_CFA_set_loc: DwCfa = DwCfa(0x01);

pub const DW_CFA_advance_loc1: DwCfa = DwCfa(0x02);

pub const DW_CFA_advance_loc2: DwCfa = DwCfa(0x03);

pub const DW_CFA_advance_loc4: DwCfa = DwCfa(0x04);

pub const DW_CFA_offset_extended: DwCfa = DwCfa(0x05);

pub const DW_CFA_restore_extended: DwCfa = DwCfa(0x06);

pub const DW_CFA_undefined: DwCfa = DwCfa(0x07);

pub const DW_CFA_same_value: DwCfa = DwCfa(0x08);

pub const DW_CFA_register: DwCfa = DwCfa(0x09);

pub const DW_CFA_remember_state: DwCfa = DwCfa(0x0a);

pub const DW_CFA_restore_state: DwCfa = DwCfa(0x0b);

pub const DW_CFA_def_cfa: DwCfa = DwCfa(0x0c);

pub const DW_CFA_def_cfa_register: DwCfa = DwCfa(0x0d);

pub const DW_CFA_def_cfa_offset: DwCfa = DwCfa(0x0e);

pub const DW_CFA_def_cfa_expression: DwCfa = DwCfa(0x0f);

pub const DW_CFA_expression: DwCfa = DwCfa(0x10);

pub const DW_CFA_offset_extended_sf: DwCfa = DwCfa(0x11);

pub const DW_CFA_def_cfa_sf: DwCfa = DwCfa(0x12);

pub const DW_CFA_def_cfa_offset_sf: DwCfa = DwCfa(0x13);

pub const DW_CFA_val_offset: DwCfa = DwCfa(0x14);

pub const DW_CFA_val_offset_sf: DwCfa = DwCfa(0x15);

pub const DW_CFA_val_expression: DwCfa = DwCfa(0x16);

pub const DW_CFA_AARCH64_negate_ra_state: DwCfa = DwCfa(0x2d);

pub const DW_CFA_GNU_args_size: DwCfa = DwCfa(0x2e);

impl DwCfa {
    /// The name of the constant of this value, if there is one.
    pub fn static_string(&self) -> Option<&'static str>
        ensures { option_map (λ s. s.now) result ≡ name_in cfa_names self.now.0 }
    {
        name_of!(*self;
            DW_CFA_advance_loc, DW_CFA_offset, DW_CFA_restore, DW_CFA_nop, DW_CFA_set_loc,
            DW_CFA_advance_loc1, DW_CFA_advance_loc2, DW_CFA_advance_loc4, DW_CFA_offset_extended,
            DW_CFA_restore_extended, DW_CFA_undefined, DW_CFA_same_value, DW_CFA_register,
            DW_CFA_remember_state, DW_CFA_restore_state, DW_CFA_def_cfa, DW_CFA_def_cfa_register,
            DW_CFA_def_cfa_offset, DW_CFA_def_cfa_expression, DW_CFA_expression,
            DW_CFA_offset_extended_sf, DW_CFA_def_cfa_sf, DW_CFA_def_cfa_offset_sf,
            DW_CFA_val_offset, DW_CFA_val_offset_sf, DW_CFA_val_expression,
            DW_CFA_AARCH64_negate_ra_state, DW_CFA_GNU_args_size,
        )
    }
}

impl fmt::Display for DwCfa {
    ghost output = { λ code. Some (shown_code cfa_names (codes "DwCfa") code.0) };

    fn fmt<W: fmt::Write>(&self, f: &mut fmt::Formatter<W>) -> fmt::Result {
        match self.static_string() {
            Some(name) => f.write_str(name),
            None => write!(f, "Unknown DwCfa: 0x{:x}", self.0),
        }
    }
}

/// Whether an abbreviation's entries have children (DWARF 5, 7.5.3, table 7.4).
#[derive(Debug, Clone, Copy, PartialEq, Eq, PartialOrd, Ord, Hash)]
pub struct DwChildren(pub u8);

pub const DW_CHILDREN_no: DwChildren = DwChildren(0x00);

pub const DW_CHILDREN_yes: DwChildren = DwChildren(0x01);

impl DwChildren {
    /// The name of the constant of this value, if there is one.
    pub fn static_string(&self) -> Option<&'static str>
        ensures { option_map (λ s. s.now) result ≡ name_in children_names self.now.0 }
    {
        name_of!(*self;
            DW_CHILDREN_no, DW_CHILDREN_yes,
        )
    }
}

impl fmt::Display for DwChildren {
    ghost output = { λ code. Some (shown_code children_names (codes "DwChildren") code.0) };

    fn fmt<W: fmt::Write>(&self, f: &mut fmt::Formatter<W>) -> fmt::Result {
        match self.static_string() {
            Some(name) => f.write_str(name),
            None => write!(f, "Unknown DwChildren: 0x{:x}", self.0),
        }
    }
}

/// The opcode of an operation of an expression (DWARF 5, 7.7.1, table 7.9).
///
/// Constants are named for the operations that compute with numbers alone: those of the expression's
/// own bytes, its stack and registers. Operations that need more, as memory or another entry, or
/// that describe a location, have none.
#[derive(Debug, Clone, Copy, PartialEq, Eq, PartialOrd, Ord, Hash)]
pub struct DwOp(pub u8);

pub const DW_OP_addr: DwOp = DwOp(0x03);

pub const DW_OP_const1u: DwOp = DwOp(0x08);

pub const DW_OP_const1s: DwOp = DwOp(0x09);

pub const DW_OP_const2u: DwOp = DwOp(0x0a);

pub const DW_OP_const2s: DwOp = DwOp(0x0b);

pub const DW_OP_const4u: DwOp = DwOp(0x0c);

pub const DW_OP_const4s: DwOp = DwOp(0x0d);

pub const DW_OP_const8u: DwOp = DwOp(0x0e);

pub const DW_OP_const8s: DwOp = DwOp(0x0f);

pub const DW_OP_constu: DwOp = DwOp(0x10);

pub const DW_OP_consts: DwOp = DwOp(0x11);

pub const DW_OP_dup: DwOp = DwOp(0x12);

pub const DW_OP_drop: DwOp = DwOp(0x13);

pub const DW_OP_over: DwOp = DwOp(0x14);

pub const DW_OP_pick: DwOp = DwOp(0x15);

pub const DW_OP_swap: DwOp = DwOp(0x16);

pub const DW_OP_rot: DwOp = DwOp(0x17);

pub const DW_OP_abs: DwOp = DwOp(0x19);

pub const DW_OP_and: DwOp = DwOp(0x1a);

pub const DW_OP_div: DwOp = DwOp(0x1b);

pub const DW_OP_minus: DwOp = DwOp(0x1c);

pub const DW_OP_mod: DwOp = DwOp(0x1d);

pub const DW_OP_mul: DwOp = DwOp(0x1e);

pub const DW_OP_neg: DwOp = DwOp(0x1f);

pub const DW_OP_not: DwOp = DwOp(0x20);

pub const DW_OP_or: DwOp = DwOp(0x21);

pub const DW_OP_plus: DwOp = DwOp(0x22);

pub const DW_OP_plus_uconst: DwOp = DwOp(0x23);

pub const DW_OP_shl: DwOp = DwOp(0x24);

pub const DW_OP_shr: DwOp = DwOp(0x25);

pub const DW_OP_shra: DwOp = DwOp(0x26);

pub const DW_OP_xor: DwOp = DwOp(0x27);

pub const DW_OP_bra: DwOp = DwOp(0x28);

pub const DW_OP_eq: DwOp = DwOp(0x29);

pub const DW_OP_ge: DwOp = DwOp(0x2a);

pub const DW_OP_gt: DwOp = DwOp(0x2b);

pub const DW_OP_le: DwOp = DwOp(0x2c);

pub const DW_OP_lt: DwOp = DwOp(0x2d);

pub const DW_OP_ne: DwOp = DwOp(0x2e);

pub const DW_OP_skip: DwOp = DwOp(0x2f);

pub const DW_OP_lit0: DwOp = DwOp(0x30);

pub const DW_OP_lit1: DwOp = DwOp(0x31);

pub const DW_OP_lit2: DwOp = DwOp(0x32);

pub const DW_OP_lit3: DwOp = DwOp(0x33);

pub const DW_OP_lit4: DwOp = DwOp(0x34);

pub const DW_OP_lit5: DwOp = DwOp(0x35);

pub const DW_OP_lit6: DwOp = DwOp(0x36);

pub const DW_OP_lit7: DwOp = DwOp(0x37);

pub const DW_OP_lit8: DwOp = DwOp(0x38);

pub const DW_OP_lit9: DwOp = DwOp(0x39);

pub const DW_OP_lit10: DwOp = DwOp(0x3a);

pub const DW_OP_lit11: DwOp = DwOp(0x3b);

pub const DW_OP_lit12: DwOp = DwOp(0x3c);

pub const DW_OP_lit13: DwOp = DwOp(0x3d);

pub const DW_OP_lit14: DwOp = DwOp(0x3e);

pub const DW_OP_lit15: DwOp = DwOp(0x3f);

pub const DW_OP_lit16: DwOp = DwOp(0x40);

pub const DW_OP_lit17: DwOp = DwOp(0x41);

pub const DW_OP_lit18: DwOp = DwOp(0x42);

pub const DW_OP_lit19: DwOp = DwOp(0x43);

pub const DW_OP_lit20: DwOp = DwOp(0x44);

pub const DW_OP_lit21: DwOp = DwOp(0x45);

pub const DW_OP_lit22: DwOp = DwOp(0x46);

pub const DW_OP_lit23: DwOp = DwOp(0x47);

pub const DW_OP_lit24: DwOp = DwOp(0x48);

pub const DW_OP_lit25: DwOp = DwOp(0x49);

pub const DW_OP_lit26: DwOp = DwOp(0x4a);

pub const DW_OP_lit27: DwOp = DwOp(0x4b);

pub const DW_OP_lit28: DwOp = DwOp(0x4c);

pub const DW_OP_lit29: DwOp = DwOp(0x4d);

pub const DW_OP_lit30: DwOp = DwOp(0x4e);

pub const DW_OP_lit31: DwOp = DwOp(0x4f);

pub const DW_OP_breg0: DwOp = DwOp(0x70);

pub const DW_OP_breg1: DwOp = DwOp(0x71);

pub const DW_OP_breg2: DwOp = DwOp(0x72);

pub const DW_OP_breg3: DwOp = DwOp(0x73);

pub const DW_OP_breg4: DwOp = DwOp(0x74);

pub const DW_OP_breg5: DwOp = DwOp(0x75);

pub const DW_OP_breg6: DwOp = DwOp(0x76);

pub const DW_OP_breg7: DwOp = DwOp(0x77);

pub const DW_OP_breg8: DwOp = DwOp(0x78);

pub const DW_OP_breg9: DwOp = DwOp(0x79);

pub const DW_OP_breg10: DwOp = DwOp(0x7a);

pub const DW_OP_breg11: DwOp = DwOp(0x7b);

pub const DW_OP_breg12: DwOp = DwOp(0x7c);

pub const DW_OP_breg13: DwOp = DwOp(0x7d);

pub const DW_OP_breg14: DwOp = DwOp(0x7e);

pub const DW_OP_breg15: DwOp = DwOp(0x7f);

pub const DW_OP_breg16: DwOp = DwOp(0x80);

pub const DW_OP_breg17: DwOp = DwOp(0x81);

pub const DW_OP_breg18: DwOp = DwOp(0x82);

pub const DW_OP_breg19: DwOp = DwOp(0x83);

pub const DW_OP_breg20: DwOp = DwOp(0x84);

pub const DW_OP_breg21: DwOp = DwOp(0x85);

pub const DW_OP_breg22: DwOp = DwOp(0x86);

pub const DW_OP_breg23: DwOp = DwOp(0x87);

pub const DW_OP_breg24: DwOp = DwOp(0x88);

pub const DW_OP_breg25: DwOp = DwOp(0x89);

pub const DW_OP_breg26: DwOp = DwOp(0x8a);

pub const DW_OP_breg27: DwOp = DwOp(0x8b);

pub const DW_OP_breg28: DwOp = DwOp(0x8c);

pub const DW_OP_breg29: DwOp = DwOp(0x8d);

pub const DW_OP_breg30: DwOp = DwOp(0x8e);

pub const DW_OP_breg31: DwOp = DwOp(0x8f);

pub const DW_OP_bregx: DwOp = DwOp(0x92);

pub const DW_OP_nop: DwOp = DwOp(0x96);

impl DwOp {
    /// The name of the constant of this value, if there is one.
    pub fn static_string(&self) -> Option<&'static str>
        ensures { option_map (λ s. s.now) result ≡ name_in operation_names self.now.0 }
    {
        self.plain_string()
            .or(self.literal_string())
            .or(self.register_string())
    }

    // The name of an operation whose opcode holds no number.
    fn plain_string(self) -> Option<&'static str>
        ensures { option_map (λ s. s.now) result ≡ name_in plain_operation_names self.0 }
    {
        name_of!(self;
            DW_OP_addr, DW_OP_const1u, DW_OP_const1s, DW_OP_const2u, DW_OP_const2s, DW_OP_const4u,
            DW_OP_const4s, DW_OP_const8u, DW_OP_const8s, DW_OP_constu, DW_OP_consts, DW_OP_dup,
            DW_OP_drop, DW_OP_over, DW_OP_pick, DW_OP_swap, DW_OP_rot, DW_OP_abs, DW_OP_and,
            DW_OP_div, DW_OP_minus, DW_OP_mod, DW_OP_mul, DW_OP_neg, DW_OP_not, DW_OP_or,
            DW_OP_plus, DW_OP_plus_uconst, DW_OP_shl, DW_OP_shr, DW_OP_shra, DW_OP_xor, DW_OP_bra,
            DW_OP_eq, DW_OP_ge, DW_OP_gt, DW_OP_le, DW_OP_lt, DW_OP_ne, DW_OP_skip, DW_OP_bregx,
            DW_OP_nop,
        )
    }

    // The name of `DW_OP_lit0` to `DW_OP_lit31`.
    fn literal_string(self) -> Option<&'static str>
        ensures { option_map (λ s. s.now) result ≡ name_in literal_names self.0 }
    {
        name_of!(self;
            DW_OP_lit0, DW_OP_lit1, DW_OP_lit2, DW_OP_lit3, DW_OP_lit4, DW_OP_lit5, DW_OP_lit6,
            DW_OP_lit7, DW_OP_lit8, DW_OP_lit9, DW_OP_lit10, DW_OP_lit11, DW_OP_lit12, DW_OP_lit13,
            DW_OP_lit14, DW_OP_lit15, DW_OP_lit16, DW_OP_lit17, DW_OP_lit18, DW_OP_lit19,
            DW_OP_lit20, DW_OP_lit21, DW_OP_lit22, DW_OP_lit23, DW_OP_lit24, DW_OP_lit25,
            DW_OP_lit26, DW_OP_lit27, DW_OP_lit28, DW_OP_lit29, DW_OP_lit30, DW_OP_lit31,
        )
    }

    // The name of `DW_OP_breg0` to `DW_OP_breg31`.
    fn register_string(self) -> Option<&'static str>
        ensures { option_map (λ s. s.now) result ≡ name_in register_offset_names self.0 }
    {
        name_of!(self;
            DW_OP_breg0, DW_OP_breg1, DW_OP_breg2, DW_OP_breg3, DW_OP_breg4, DW_OP_breg5,
            DW_OP_breg6, DW_OP_breg7, DW_OP_breg8, DW_OP_breg9, DW_OP_breg10, DW_OP_breg11,
            DW_OP_breg12, DW_OP_breg13, DW_OP_breg14, DW_OP_breg15, DW_OP_breg16, DW_OP_breg17,
            DW_OP_breg18, DW_OP_breg19, DW_OP_breg20, DW_OP_breg21, DW_OP_breg22, DW_OP_breg23,
            DW_OP_breg24, DW_OP_breg25, DW_OP_breg26, DW_OP_breg27, DW_OP_breg28, DW_OP_breg29,
            DW_OP_breg30, DW_OP_breg31,
        )
    }
}

impl fmt::Display for DwOp {
    ghost output = { λ code. Some (shown_code operation_names (codes "DwOp") code.0) };

    fn fmt<W: fmt::Write>(&self, f: &mut fmt::Formatter<W>) -> fmt::Result {
        match self.static_string() {
            Some(name) => f.write_str(name),
            None => write!(f, "Unknown DwOp: 0x{:x}", self.0),
        }
    }
}

/// How a pointer is encoded in call frame information (LSB 5.0, 10.5).
#[derive(Debug, Clone, Copy, PartialEq, Eq, PartialOrd, Ord, Hash)]
pub struct DwEhPe(pub u8);

pub const DW_EH_PE_absptr: DwEhPe = DwEhPe(0x00);

pub const DW_EH_PE_uleb128: DwEhPe = DwEhPe(0x01);

pub const DW_EH_PE_udata2: DwEhPe = DwEhPe(0x02);

pub const DW_EH_PE_udata4: DwEhPe = DwEhPe(0x03);

pub const DW_EH_PE_udata8: DwEhPe = DwEhPe(0x04);

pub const DW_EH_PE_sleb128: DwEhPe = DwEhPe(0x09);

pub const DW_EH_PE_sdata2: DwEhPe = DwEhPe(0x0a);

pub const DW_EH_PE_sdata4: DwEhPe = DwEhPe(0x0b);

pub const DW_EH_PE_sdata8: DwEhPe = DwEhPe(0x0c);

pub const DW_EH_PE_pcrel: DwEhPe = DwEhPe(0x10);

pub const DW_EH_PE_textrel: DwEhPe = DwEhPe(0x20);

pub const DW_EH_PE_datarel: DwEhPe = DwEhPe(0x30);

pub const DW_EH_PE_funcrel: DwEhPe = DwEhPe(0x40);

pub const DW_EH_PE_aligned: DwEhPe = DwEhPe(0x50);

pub const DW_EH_PE_indirect: DwEhPe = DwEhPe(0x80);

pub const DW_EH_PE_omit: DwEhPe = DwEhPe(0xff);

impl DwEhPe {
    /// The name of the constant of this value, if there is one.
    pub fn static_string(&self) -> Option<&'static str>
        ensures { option_map (λ s. s.now) result ≡ name_in pointer_names self.now.0 }
    {
        name_of!(*self;
            DW_EH_PE_absptr, DW_EH_PE_uleb128, DW_EH_PE_udata2, DW_EH_PE_udata4, DW_EH_PE_udata8,
            DW_EH_PE_sleb128, DW_EH_PE_sdata2, DW_EH_PE_sdata4, DW_EH_PE_sdata8, DW_EH_PE_pcrel,
            DW_EH_PE_textrel, DW_EH_PE_datarel, DW_EH_PE_funcrel, DW_EH_PE_aligned,
            DW_EH_PE_indirect, DW_EH_PE_omit,
        )
    }

    /// The format in which the value is encoded: the low four bits.
    pub fn format(self) -> DwEhPe
        ensures { result.0 ≡ format_of self.0 }
    {
        DwEhPe(self.0 & 0x0f)
    }

    /// What the value is relative to: bits 4 to 6.
    pub fn application(self) -> DwEhPe
        ensures { result.0 ≡ application_of self.0 }
    {
        DwEhPe(self.0 & 0x70)
    }

    /// Whether there is no pointer.
    pub fn is_absent(self) -> bool
        ensures { IsTrue result ↔ (self.0 ≡ 0xff) }
    {
        self == DW_EH_PE_omit
    }

    /// Whether the value is the address of the pointer: bit 7.
    pub fn is_indirect(self) -> bool
        ensures { IsTrue result ↔ IsBitSet self.0 7 }
    {
        self.0 & DW_EH_PE_indirect.0 != 0
    }

    /// Whether this is a format with an application, direct or indirect, or `omit`.
    pub fn is_valid_encoding(self) -> bool
        ensures { IsTrue result ↔ Contains valid_encodings self.0 }
    {
        self.is_absent() || (self.format().is_format() && self.application().is_application())
    }

    // Whether this is a format alone.
    fn is_format(self) -> bool
        ensures { result ≡ list_any (λ format. self.0 == format) formats }
    {
        is_one_of!(self;
            DW_EH_PE_absptr, DW_EH_PE_uleb128, DW_EH_PE_udata2, DW_EH_PE_udata4, DW_EH_PE_udata8,
            DW_EH_PE_sleb128, DW_EH_PE_sdata2, DW_EH_PE_sdata4, DW_EH_PE_sdata8,
        )
    }

    // Whether this is an application alone.
    fn is_application(self) -> bool
        ensures { result ≡ list_any (λ application. self.0 == application) applications }
    {
        is_one_of!(self;
            DW_EH_PE_absptr, DW_EH_PE_pcrel, DW_EH_PE_textrel, DW_EH_PE_datarel, DW_EH_PE_funcrel,
            DW_EH_PE_aligned,
        )
    }
}

/// The bits of both, as of an application and a format.
impl BitOr for DwEhPe {
    type Output = DwEhPe;

    ghost bitor_gives = { λ a b result. result.0 ≡ bit_or a.0 b.0 };

    fn bitor(self, rhs: DwEhPe) -> DwEhPe {
        DwEhPe(self.0 | rhs.0)
    }
}

impl fmt::Display for DwEhPe {
    ghost output = { λ code. Some (shown_code pointer_names (codes "DwEhPe") code.0) };

    fn fmt<W: fmt::Write>(&self, f: &mut fmt::Formatter<W>) -> fmt::Result {
        match self.static_string() {
            Some(name) => f.write_str(name),
            None => write!(f, "Unknown DwEhPe: 0x{:x}", self.0),
        }
    }
}
