//! Forms of attributes.

ghost use Rattle.std.specs.Prelude.{◌≡◌, Some, option_map, codes};
ghost use Rattle.dwarf_constants.specs.Names.{name_in, shown_code, form_names};

use std::fmt;

/// How an attribute's value is encoded (DWARF 5, 7.5.6, table 7.6).
#[derive(Debug, Clone, Copy, PartialEq, Eq, PartialOrd, Ord, Hash)]
pub struct DwForm(pub u16);

pub const DW_FORM_addr: DwForm = DwForm(0x0001);

pub const DW_FORM_block2: DwForm = DwForm(0x0003);

pub const DW_FORM_block4: DwForm = DwForm(0x0004);

pub const DW_FORM_data2: DwForm = DwForm(0x0005);

pub const DW_FORM_data4: DwForm = DwForm(0x0006);

pub const DW_FORM_data8: DwForm = DwForm(0x0007);

pub const DW_FORM_string: DwForm = DwForm(0x0008);

pub const DW_FORM_block: DwForm = DwForm(0x0009);

pub const DW_FORM_block1: DwForm = DwForm(0x000a);

pub const DW_FORM_data1: DwForm = DwForm(0x000b);

pub const DW_FORM_flag: DwForm = DwForm(0x000c);

pub const DW_FORM_sdata: DwForm = DwForm(0x000d);

pub const DW_FORM_strp: DwForm = DwForm(0x000e);

pub const DW_FORM_udata: DwForm = DwForm(0x000f);

pub const DW_FORM_ref_addr: DwForm = DwForm(0x0010);

pub const DW_FORM_ref1: DwForm = DwForm(0x0011);

pub const DW_FORM_ref2: DwForm = DwForm(0x0012);

pub const DW_FORM_ref4: DwForm = DwForm(0x0013);

pub const DW_FORM_ref8: DwForm = DwForm(0x0014);

pub const DW_FORM_ref_udata: DwForm = DwForm(0x0015);

pub const DW_FORM_indirect: DwForm = DwForm(0x0016);

pub const DW_FORM_sec_offset: DwForm = DwForm(0x0017);

pub const DW_FORM_exprloc: DwForm = DwForm(0x0018);

pub const DW_FORM_flag_present: DwForm = DwForm(0x0019);

pub const DW_FORM_strx: DwForm = DwForm(0x001a);

pub const DW_FORM_addrx: DwForm = DwForm(0x001b);

pub const DW_FORM_ref_sup4: DwForm = DwForm(0x001c);

pub const DW_FORM_strp_sup: DwForm = DwForm(0x001d);

pub const DW_FORM_data16: DwForm = DwForm(0x001e);

pub const DW_FORM_line_strp: DwForm = DwForm(0x001f);

pub const DW_FORM_ref_sig8: DwForm = DwForm(0x0020);

pub const DW_FORM_implicit_const: DwForm = DwForm(0x0021);

pub const DW_FORM_loclistx: DwForm = DwForm(0x0022);

pub const DW_FORM_rnglistx: DwForm = DwForm(0x0023);

pub const DW_FORM_ref_sup8: DwForm = DwForm(0x0024);

pub const DW_FORM_strx1: DwForm = DwForm(0x0025);

pub const DW_FORM_strx2: DwForm = DwForm(0x0026);

pub const DW_FORM_strx3: DwForm = DwForm(0x0027);

pub const DW_FORM_strx4: DwForm = DwForm(0x0028);

pub const DW_FORM_addrx1: DwForm = DwForm(0x0029);

pub const DW_FORM_addrx2: DwForm = DwForm(0x002a);

pub const DW_FORM_addrx3: DwForm = DwForm(0x002b);

pub const DW_FORM_addrx4: DwForm = DwForm(0x002c);

pub const DW_FORM_GNU_addr_index: DwForm = DwForm(0x1f01);

pub const DW_FORM_GNU_str_index: DwForm = DwForm(0x1f02);

pub const DW_FORM_GNU_ref_alt: DwForm = DwForm(0x1f20);

pub const DW_FORM_GNU_strp_alt: DwForm = DwForm(0x1f21);

impl DwForm {
    /// The name of the constant of this value, if there is one.
    pub fn static_string(&self) -> Option<&'static str>
        ensures { option_map (λ s. s.now) result ≡ name_in form_names self.now.0 }
    {
        name_of!(*self;
            DW_FORM_addr, DW_FORM_block2, DW_FORM_block4, DW_FORM_data2, DW_FORM_data4,
            DW_FORM_data8, DW_FORM_string, DW_FORM_block, DW_FORM_block1, DW_FORM_data1,
            DW_FORM_flag, DW_FORM_sdata, DW_FORM_strp, DW_FORM_udata, DW_FORM_ref_addr,
            DW_FORM_ref1, DW_FORM_ref2, DW_FORM_ref4, DW_FORM_ref8, DW_FORM_ref_udata,
            DW_FORM_indirect, DW_FORM_sec_offset, DW_FORM_exprloc, DW_FORM_flag_present,
            DW_FORM_strx, DW_FORM_addrx, DW_FORM_ref_sup4, DW_FORM_strp_sup, DW_FORM_data16,
            DW_FORM_line_strp, DW_FORM_ref_sig8, DW_FORM_implicit_const, DW_FORM_loclistx,
            DW_FORM_rnglistx, DW_FORM_ref_sup8, DW_FORM_strx1, DW_FORM_strx2, DW_FORM_strx3,
            DW_FORM_strx4, DW_FORM_addrx1, DW_FORM_addrx2, DW_FORM_addrx3, DW_FORM_addrx4,
            DW_FORM_GNU_addr_index, DW_FORM_GNU_str_index, DW_FORM_GNU_ref_alt,
            DW_FORM_GNU_strp_alt,
        )
    }
}

impl fmt::Display for DwForm {
    ghost output = { λ code. Some (shown_code form_names (codes "DwForm") code.0) };

    fn fmt<W: fmt::Write>(&self, f: &mut fmt::Formatter<W>) -> fmt::Result {
        match self.static_string() {
            Some(name) => f.write_str(name),
            None => write!(f, "Unknown DwForm: 0x{:x}", self.0),
        }
    }
}
