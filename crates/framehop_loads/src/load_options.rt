//! What a module's load asks for.

use framehop_code_rules::CodeRules;

/// How the FDEs of a module's section of call frames are found.
#[derive(Debug, Clone, Copy, PartialEq, Eq)]
pub enum FdeLookup {
    /// By the table of `.eh_frame_hdr`, if the module has that section and no table of rules is asked for, and else by an index.
    Auto,
    /// By an index, also if there is a header.
    Index,
    /// By reading the section from its first entry on at each step: with neither index nor header.
    Scan,
}

/// An architecture that a table of unwind rules is made for.
#[derive(Debug, Clone, Copy, PartialEq, Eq)]
pub enum TableArch {
    /// x86_64.
    X86_64,
    /// aarch64.
    Aarch64,
}

/// What the rows of a module's call frames are taken to say.
#[derive(Debug, Clone, Copy, PartialEq, Eq)]
pub enum Rows {
    /// What the original takes of them: an unwind rule if one says the row, and else the canonical frame address, the return address and
    /// the frame pointer, by these registers and by expressions that read no memory.
    Published,
    /// What DWARF says (DWARF 5, 6.4.1 and 6.4.3): each register of the caller, by each register of the frame that is known, and by
    /// expressions that read memory. For steps whose registers carry those that are known.
    Whole,
}

/// What a module's load asks for. By default it is what the original does.
#[derive(Debug, Clone, Copy, PartialEq, Eq)]
pub struct LoadOptions {
    /// How FDEs are found. By default `Auto`.
    pub lookup: FdeLookup,
    /// The architecture of a table of the rules that the call frames say: a step by a rule parses nothing there. Steps on another one
    /// don't use it. None is made if FDEs aren't found by an index, or the section has none. By default `None`.
    pub tables: Option<TableArch>,
    /// Whether a module that is unwound by `.eh_frame` and has a `.debug_frame` too is unwound by both, as a program needs it that is
    /// compiled without asynchronous unwind tables and linked with start files that have them: by `.debug_frame` at an address that its
    /// FDE contains and that of `.eh_frame` doesn't. By default `false`.
    pub debug_frame_beside: bool,
    /// By which rules the machine code of the module is read in first frames. `Known` is for modules with compact unwind info and PE files;
    /// `Ways` is for all, and needs the section of code. By default `Published`.
    pub code_rules: CodeRules,
    /// What rows of call frames are taken to say. Steps whose registers don't carry those that are known take them as `Published`. By default
    /// `Published`.
    pub rows: Rows,
}

impl Default for LoadOptions {
    ghost use Rattle.std.specs.Prelude.{◌≡◌};
    ghost use Rattle.framehop_loads.specs.LoadOptions.{as_original};

    ghost is_default = { λ options. options ≡ as_original };

    fn default() -> Self {
        LoadOptions {
            lookup: FdeLookup::Auto,
            tables: None,
            debug_frame_beside: false,
            code_rules: CodeRules::Published,
            rows: Rows::Published,
        }
    }
}
