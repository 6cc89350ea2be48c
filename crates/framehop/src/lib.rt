//! A stack unwinder: modules with their unwind sections, the step from a frame to its caller, and walks.
//!
//! A user makes an unwinder ([`x86_64::UnwinderX86_64`], [`aarch64::UnwinderAarch64`]), adds a module for each
//! file that is loaded ([`load_module`]), makes a cache, and takes the frames of [`Unwinder::iter_frames`].
#![tactic(auto)]

pub mod aarch64;
mod arch;
mod call_frames;
mod compact;
mod dwarf;
mod failures;
pub mod histories;
pub mod lookup_laws;
mod pe;
pub mod row_laws;
pub mod rule_laws;
pub mod walk_laws;
mod ways;
pub mod x86_64;

pub use arch::{BySections, Unwinding};
pub use dwarf::DwarfUnwinder;
pub use dwarf_frame_entries::BaseAddresses;
pub use framehop_analysis::InstructionAnalysis;
pub use framehop_code_rules::CodeRules;
pub use framehop_code_ways::{
    Bounds, BranchesOut, Code, CodeRange, WayUnwinding, caller_by_way, caller_by_way_in_text,
};
pub use framehop_compact::{
    CompactUnwindInfoUnwinder, CompactUnwindInfoUnwinding, CuiUnwindResult, Function, TextBytes,
};
pub use framehop_errors::{
    CompactFormatError, CompactUnwindInfoUnwinderError, DwarfCfiIndexError, DwarfUnwinderError,
    PeUnwinderError, UnwinderError,
};
pub use framehop_index::{DwarfCfiIndex, IndexLookup, UnwindSectionType};
pub use framehop_loads::{
    AllocationPolicy, ArchRuleTable, DwarfUnwindContext, FdeLookup, LeftOut, LoadOptions,
    MayAllocateDuringUnwind, Module, ModuleUnwindData, MustNotAllocateDuringUnwind, Rows,
    StoreOnStack, StoreRowsOnHeap, TableArch, Tabulating, UnwindDataKind, load_module,
    policies_set_limits,
};
pub use framehop_modules::{
    ExplicitModuleSectionInfo, Generations, GenerationsExhausted, LoadError, ModuleSectionInfo,
    PeModuleSectionInfo, SectionBytes,
};
pub use framehop_pe::{
    DataAtRvaRange, PeSections, PeUnwinding, RuntimeFunction, pdata_is_increasing, pdata_lookup,
    pdata_lookup_increasing,
};
pub use framehop_rows::{
    DwarfUnwindRegs, DwarfUnwinding, RowRules, eval_cfa_rule, eval_register_rule,
};
pub use framehop_rules::{
    AddSigned, Arch, CacheHandle, CacheOccupancy, CacheResult, CacheStats, Error, FrameAddress,
    HexNum, RuleCache, UnwindResult, UnwindRule, checked_add_signed, wrapping_add_signed,
};
pub use framehop_tables::{Covered, RuleLookup, RuleTable, SameRule};
pub use framehop_unwinder::{
    AddUnwinderError, Cache, CacheId, ModuleUnwinding, Session, SessionUnwindIterator, StackWalk,
    StaleId, UnwindFailure, UnwindIterator, Unwinder, UnwinderId, UnwinderInternal, laws,
};
