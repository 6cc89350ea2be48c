//! The addresses that pointers are relative to.

ghost use Rattle.std.specs.Prelude.{◌≡◌, Some};
ghost use Rattle.dwarf_frame_rows.specs.BaseAddresses.{with_text};

/// The addresses that the pointers of one section are relative to, as far as they are known. Each is an
/// address in the memory in which the code runs or is looked up.
#[derive(Debug, Clone, Copy, PartialEq, Eq, Default)]
pub struct SectionBaseAddresses {
    /// The start of the section. A `DW_EH_PE_pcrel` pointer is relative to its own address in it.
    pub section: Option<u64>,
    /// The start of the code, which `DW_EH_PE_textrel` pointers are relative to.
    pub text: Option<u64>,
    /// What `DW_EH_PE_datarel` pointers are relative to: in `.eh_frame` the start of the global offset
    /// table, in `.eh_frame_hdr` the start of that section itself.
    pub data_base: Option<u64>,
}

/// The addresses that the pointers of call frame information are relative to. None is known at first.
#[derive(Debug, Clone, Copy, PartialEq, Eq, Default)]
pub struct BaseAddresses {
    /// Those of `.eh_frame_hdr`.
    pub eh_frame_hdr: SectionBaseAddresses,
    /// Those of `.eh_frame`, and of `.debug_frame`.
    pub eh_frame: SectionBaseAddresses,
}

impl BaseAddresses {
    /// With the address at which `.eh_frame_hdr` starts.
    pub fn set_eh_frame_hdr(mut self, address: u64) -> Self
        ensures { result ≡ record self {
          eh_frame_hdr = record self.eh_frame_hdr {
            section = Some address;
            data_base = Some address;
          };
        } }
    {
        self.eh_frame_hdr.section = Some(address);
        self.eh_frame_hdr.data_base = Some(address);
        self
    }

    /// With the address at which `.eh_frame` starts.
    pub fn set_eh_frame(mut self, address: u64) -> Self
        ensures { result ≡ record self {
          eh_frame = record self.eh_frame {
            section = Some address;
          };
        } }
    {
        self.eh_frame.section = Some(address);
        self
    }

    /// With the address at which the code starts, for both sections.
    pub fn set_text(mut self, address: u64) -> Self
        ensures { result ≡ record self {
          eh_frame_hdr = with_text address self.eh_frame_hdr;
          eh_frame = with_text address self.eh_frame;
        } }
    {
        self.eh_frame_hdr.text = Some(address);
        self.eh_frame.text = Some(address);
        self
    }

    /// With the address at which the global offset table starts, for `.eh_frame`.
    pub fn set_got(mut self, address: u64) -> Self
        ensures { result ≡ record self {
          eh_frame = record self.eh_frame {
            data_base = Some address;
          };
        } }
    {
        self.eh_frame.data_base = Some(address);
        self
    }
}
