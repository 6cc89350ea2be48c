//! The lower part of call frame information (DWARF 5, 6.4; LSB 5.0, 10.5 and 10.6): the addresses
//! that pointers are relative to, encoded pointers, what sections of call frames have in common, rows,
//! and the contexts in which instructions make them.
#![tactic(auto)]

mod base_addresses;
mod context;
mod effect;
mod expression;
mod pointer;
mod row;
mod rule_map;
mod rules;
mod section;

pub use base_addresses::{BaseAddresses, SectionBaseAddresses};
pub use context::{UnwindContext, UnwindContextStorage, store_on_heap_has_room};
pub use dwarf_storage::StoreOnHeap;
pub use effect::Effect;
pub use expression::UnwindExpression;
pub use pointer::{
    Pointer, PointerEncodingParameters, parse_encoded_pointer, parse_encoded_value,
    parse_pointer_encoding, pointers_go_on, pointers_never_want_memory, sum_in_address_size,
};
pub use row::{RegisterRuleIter, UnwindTableRow};
pub use rules::{CfaRule, RegisterRule, RuledRegister};
pub use section::{_UnwindSectionPrivate, CieOffsetEncoding, UnwindOffset};
