//! The tables against the standard's own order, and constants as they are printed.

use dwarf_constants::constants::*;
use dwarf_constants::{
    AArch64, Error, Format, LineEncoding, ReaderOffsetId, Register, SectionId, X86_64,
};
use dwarf_offsets::{DebugFrameOffset, EhFrameOffset};
use std::alloc::{AllocError, Global};

/// A family of constants.
#[derive(Clone, Copy)]
enum Kind {
    Instruction,
    Children,
    Form,
    Operation,
    Encoding,
}

// What a constant is named with its prefix, if it has a name.
fn name_of(kind: Kind, value: u16) -> Option<&'static str> {
    let byte = (value & 0xff) as u8;
    match kind {
        Kind::Form => DwForm(value).static_string(),
        _ if value > 0xff => None,
        Kind::Instruction => DwCfa(byte).static_string(),
        Kind::Children => DwChildren(byte).static_string(),
        Kind::Operation => DwOp(byte).static_string(),
        Kind::Encoding => DwEhPe(byte).static_string(),
    }
}

// A constant as it is printed.
fn printed(alloc: Global, kind: Kind, value: u16) -> Result<String, AllocError> {
    let byte = (value & 0xff) as u8;
    match kind {
        Kind::Form => DwForm(value).to_string(alloc),
        Kind::Instruction => DwCfa(byte).to_string(alloc),
        Kind::Children => DwChildren(byte).to_string(alloc),
        Kind::Operation => DwOp(byte).to_string(alloc),
        Kind::Encoding => DwEhPe(byte).to_string(alloc),
    }
}

// Whether this is the name after its prefix, or `-` and there is none.
fn is_named(kind: Kind, prefix: &str, value: u16, name: &str) -> bool {
    match name_of(kind, value) {
        Some(text) => text.strip_prefix(prefix) == Some(name),
        None => name == "-",
    }
}

// Names count up from the first value of a row, as the tables of the standard do; `-` is a gap. Instructions are in DWARF 5, table
// 7.29, of which 0x2d is of the ABI of AArch64 and 0x2e of GNU, children in 7.4, forms in 7.6, of which those from 0x1f00 on are of
// GNU, and operations in 7.9. Pointer encodings are in LSB 5.0, 10.5.1.
static NAMES: [(Kind, &str, u16, &str); 21] = [
    (
        Kind::Instruction,
        "DW_CFA_",
        0x00,
        "nop set_loc advance_loc1 advance_loc2 advance_loc4 offset_extended restore_extended
            undefined same_value register remember_state restore_state def_cfa def_cfa_register
            def_cfa_offset def_cfa_expression expression offset_extended_sf def_cfa_sf
            def_cfa_offset_sf val_offset val_offset_sf val_expression -",
    ),
    (
        Kind::Instruction,
        "DW_CFA_",
        0x2d,
        "AARCH64_negate_ra_state GNU_args_size -",
    ),
    (Kind::Instruction, "DW_CFA_", 0x40, "advance_loc -"),
    (Kind::Instruction, "DW_CFA_", 0x80, "offset -"),
    (Kind::Instruction, "DW_CFA_", 0xc0, "restore -"),
    (Kind::Children, "DW_CHILDREN_", 0x00, "no yes -"),
    (
        Kind::Form,
        "DW_FORM_",
        0x00,
        "- addr - block2 block4 data2 data4 data8 string block block1 data1 flag sdata strp
            udata ref_addr ref1 ref2 ref4 ref8 ref_udata indirect sec_offset exprloc flag_present
            strx addrx ref_sup4 strp_sup data16 line_strp ref_sig8 implicit_const loclistx
            rnglistx ref_sup8 strx1 strx2 strx3 strx4 addrx1 addrx2 addrx3 addrx4 -",
    ),
    (
        Kind::Form,
        "DW_FORM_",
        0x1f00,
        "- GNU_addr_index GNU_str_index -",
    ),
    (
        Kind::Form,
        "DW_FORM_",
        0x1f1f,
        "- GNU_ref_alt GNU_strp_alt -",
    ),
    (
        Kind::Operation,
        "DW_OP_",
        0x00,
        "- - - addr - - - - const1u const1s const2u const2s const4u const4s const8u const8s
            constu consts dup drop over pick swap rot - abs and div minus mod mul neg
            not or plus plus_uconst shl shr shra xor bra eq ge gt le lt ne skip",
    ),
    (
        Kind::Operation,
        "DW_OP_",
        0x30,
        "lit0 lit1 lit2 lit3 lit4 lit5 lit6 lit7 lit8 lit9 lit10 lit11 lit12 lit13 lit14 lit15
            lit16 lit17 lit18 lit19 lit20 lit21 lit22 lit23 lit24 lit25 lit26 lit27 lit28 lit29
            lit30 lit31",
    ),
    (
        Kind::Operation,
        "DW_OP_",
        0x70,
        "breg0 breg1 breg2 breg3 breg4 breg5 breg6 breg7 breg8 breg9 breg10 breg11 breg12 breg13
            breg14 breg15 breg16 breg17 breg18 breg19 breg20 breg21 breg22 breg23 breg24 breg25
            breg26 breg27 breg28 breg29 breg30 breg31",
    ),
    (Kind::Operation, "DW_OP_", 0x90, "- - bregx - - - nop -"),
    (
        Kind::Encoding,
        "DW_EH_PE_",
        0x00,
        "absptr uleb128 udata2 udata4 udata8 - - - - sleb128 sdata2 sdata4 sdata8 -",
    ),
    (Kind::Encoding, "DW_EH_PE_", 0x10, "pcrel -"),
    (Kind::Encoding, "DW_EH_PE_", 0x20, "textrel -"),
    (Kind::Encoding, "DW_EH_PE_", 0x30, "datarel -"),
    (Kind::Encoding, "DW_EH_PE_", 0x40, "funcrel -"),
    (Kind::Encoding, "DW_EH_PE_", 0x50, "aligned -"),
    (Kind::Encoding, "DW_EH_PE_", 0x80, "indirect -"),
    (Kind::Encoding, "DW_EH_PE_", 0xfe, "- omit"),
];

// How many constants of a family have a name.
static COUNTS: [(Kind, usize); 5] = [
    (Kind::Instruction, 28),
    (Kind::Children, 2),
    (Kind::Form, 47),
    (Kind::Operation, 106),
    (Kind::Encoding, 16),
];

#[test]
fn constants_are_numbered_as_in_the_standards(rt: HostRuntime) {
    for (kind, prefix, first, names) in &NAMES {
        let mut value = *first;
        for name in names.split_whitespace() {
            assert!(rt;
                is_named(*kind, prefix, value, name),
                "{name} at {value:#x}"
            );
            value = value.wrapping_add(1);
        }
    }
    for (kind, count) in &COUNTS {
        let mut named = 0usize;
        for value in 0..=u16::MAX {
            if name_of(*kind, value).is_some() {
                named = named.wrapping_add(1);
            }
        }
        assert!(rt; named == *count, "{count}");
    }
}

static PRINTED: [(Kind, u16, &str); 10] = [
    (Kind::Instruction, DW_CFA_def_cfa.0 as u16, "DW_CFA_def_cfa"),
    (Kind::Instruction, 0x3f, "Unknown DwCfa: 0x3f"),
    (Kind::Children, DW_CHILDREN_yes.0 as u16, "DW_CHILDREN_yes"),
    (Kind::Children, 2, "Unknown DwChildren: 0x2"),
    (Kind::Form, DW_FORM_exprloc.0, "DW_FORM_exprloc"),
    (Kind::Form, 0xfffe, "Unknown DwForm: 0xfffe"),
    (Kind::Operation, DW_OP_breg7.0 as u16, "DW_OP_breg7"),
    (Kind::Operation, 0x00, "Unknown DwOp: 0x0"),
    (Kind::Encoding, DW_EH_PE_omit.0 as u16, "DW_EH_PE_omit"),
    (Kind::Encoding, 0x9b, "Unknown DwEhPe: 0x9b"),
];

static ERRORS: [(Error, &str); 42] = [
    (Error::UnexpectedEof(ReaderOffsetId(3)), "UnexpectedEof"),
    (Error::BadUnsignedLeb128, "BadUnsignedLeb128"),
    (Error::BadSignedLeb128, "BadSignedLeb128"),
    (Error::UnknownReservedLength, "UnknownReservedLength"),
    (Error::UnsupportedAddressSize(3), "UnsupportedAddressSize"),
    (Error::UnsupportedOffsetSize(3), "UnsupportedOffsetSize"),
    (Error::UnsupportedSegmentSize, "UnsupportedSegmentSize"),
    (Error::UnsupportedOffset, "UnsupportedOffset"),
    (Error::OffsetOutOfBounds, "OffsetOutOfBounds"),
    (Error::UnknownVersion(3), "UnknownVersion"),
    (Error::BadUtf8, "BadUtf8"),
    (Error::AbbreviationTagZero, "AbbreviationTagZero"),
    (
        Error::InvalidAbbreviationChildren(DwChildren(3)),
        "InvalidAbbreviationChildren",
    ),
    (Error::AttributeNameZero, "AttributeNameZero"),
    (Error::AttributeFormZero, "AttributeFormZero"),
    (
        Error::DuplicateAbbreviationCode(3),
        "DuplicateAbbreviationCode",
    ),
    (
        Error::UnknownPointerEncoding(DwEhPe(3)),
        "UnknownPointerEncoding",
    ),
    (
        Error::UnsupportedPointerEncoding,
        "UnsupportedPointerEncoding",
    ),
    (
        Error::CannotParseOmitPointerEncoding,
        "CannotParseOmitPointerEncoding",
    ),
    (
        Error::PcRelativePointerButSectionBaseIsUndefined,
        "PcRelativePointerButSectionBaseIsUndefined",
    ),
    (
        Error::TextRelativePointerButTextBaseIsUndefined,
        "TextRelativePointerButTextBaseIsUndefined",
    ),
    (
        Error::DataRelativePointerButDataBaseIsUndefined,
        "DataRelativePointerButDataBaseIsUndefined",
    ),
    (
        Error::FuncRelativePointerInBadContext,
        "FuncRelativePointerInBadContext",
    ),
    (Error::NotCieId(3), "NotCieId"),
    (Error::NotCiePointer(3), "NotCiePointer"),
    (Error::UnknownAugmentation, "UnknownAugmentation"),
    (Error::NoEntryAtGivenOffset, "NoEntryAtGivenOffset"),
    (Error::NoUnwindInfoForAddress, "NoUnwindInfoForAddress"),
    (
        Error::UnknownCallFrameInstruction(DwCfa(3)),
        "UnknownCallFrameInstruction",
    ),
    (
        Error::CfiInstructionInInvalidContext,
        "CfiInstructionInInvalidContext",
    ),
    (Error::InvalidCfiSetLoc(3), "InvalidCfiSetLoc"),
    (Error::AddressOverflow, "AddressOverflow"),
    (Error::PopWithEmptyStack, "PopWithEmptyStack"),
    (Error::StackFull, "StackFull"),
    (Error::TooManyRegisterRules, "TooManyRegisterRules"),
    (
        Error::VariableLengthSearchTable,
        "VariableLengthSearchTable",
    ),
    (Error::UnsupportedEvaluation, "UnsupportedEvaluation"),
    (Error::NotEnoughStackItems, "NotEnoughStackItems"),
    (Error::DivisionByZero, "DivisionByZero"),
    (Error::BadBranchTarget(3), "BadBranchTarget"),
    (Error::TooManyIterations, "TooManyIterations"),
    (Error::OutOfMemory, "OutOfMemory"),
];

#[test]
fn constants_and_errors_are_printed(rt: HostRuntime) {
    for (kind, value, text) in &PRINTED {
        let given = printed(rt.alloc(), *kind, *value).expect(&rt, "memory");
        assert!(rt; given.as_str() == *text, "{text}");
    }
    for (error, name) in &ERRORS {
        let given = error.to_string(rt.alloc()).expect(&rt, "memory");
        assert!(rt; given.as_str() == *name, "{name}");
    }
}

// The encoding that compilers write for shared libraries, 0x9b, is an indirect offset of 4 bytes.
#[test]
fn pointer_encodings_are_taken_apart(rt: HostRuntime) {
    let encoding = DW_EH_PE_indirect | DW_EH_PE_pcrel | DW_EH_PE_sdata4;
    assert!(rt; encoding == DwEhPe(0x9b));
    assert!(rt; encoding.format() == DW_EH_PE_sdata4);
    assert!(rt; encoding.application() == DW_EH_PE_pcrel);
    assert!(rt; encoding.is_indirect());
    assert!(rt; !DwEhPe(0x1b).is_indirect());
    assert!(rt; DW_EH_PE_omit.is_absent());
    assert!(rt; !encoding.is_absent());
    let mut valid = 0u32;
    for value in 0..=255u8 {
        if DwEhPe(value).is_valid_encoding() {
            valid = valid.wrapping_add(1);
        }
    }
    assert!(rt; valid == 9 * 6 * 2 + 1);
    for refused in [0x05, 0x08, 0x0d, 0x0f, 0x60, 0x6b, 0x75, 0xe0, 0xef, 0xf0] {
        assert!(rt; !DwEhPe(refused).is_valid_encoding(), "at {refused:#x}");
    }
}

static SECTIONS: [(SectionId, &str, &str); 25] = [
    (SectionId::DebugAbbrev, ".debug_abbrev", ".debug_abbrev.dwo"),
    (SectionId::DebugAddr, ".debug_addr", "-"),
    (SectionId::DebugAranges, ".debug_aranges", "-"),
    (
        SectionId::DebugCuIndex,
        ".debug_cu_index",
        ".debug_cu_index",
    ),
    (SectionId::DebugFrame, ".debug_frame", "-"),
    (SectionId::EhFrame, ".eh_frame", "-"),
    (SectionId::EhFrameHdr, ".eh_frame_hdr", "-"),
    (SectionId::DebugGnuPubNames, ".debug_gnu_pubnames", "-"),
    (SectionId::DebugGnuPubTypes, ".debug_gnu_pubtypes", "-"),
    (SectionId::DebugInfo, ".debug_info", ".debug_info.dwo"),
    (SectionId::DebugLine, ".debug_line", ".debug_line.dwo"),
    (SectionId::DebugLineStr, ".debug_line_str", "-"),
    (SectionId::DebugLoc, ".debug_loc", ".debug_loc.dwo"),
    (
        SectionId::DebugLocLists,
        ".debug_loclists",
        ".debug_loclists.dwo",
    ),
    (
        SectionId::DebugMacinfo,
        ".debug_macinfo",
        ".debug_macinfo.dwo",
    ),
    (SectionId::DebugMacro, ".debug_macro", ".debug_macro.dwo"),
    (SectionId::DebugNames, ".debug_names", "-"),
    (SectionId::DebugPubNames, ".debug_pubnames", "-"),
    (SectionId::DebugPubTypes, ".debug_pubtypes", "-"),
    (SectionId::DebugRanges, ".debug_ranges", "-"),
    (
        SectionId::DebugRngLists,
        ".debug_rnglists",
        ".debug_rnglists.dwo",
    ),
    (SectionId::DebugStr, ".debug_str", ".debug_str.dwo"),
    (
        SectionId::DebugStrOffsets,
        ".debug_str_offsets",
        ".debug_str_offsets.dwo",
    ),
    (
        SectionId::DebugTuIndex,
        ".debug_tu_index",
        ".debug_tu_index",
    ),
    (SectionId::DebugTypes, ".debug_types", ".debug_types.dwo"),
];

#[test]
fn sections_have_their_names(rt: HostRuntime) {
    for (section, name, dwo_name) in &SECTIONS {
        assert!(rt; section.name() == *name);
        assert!(rt; section.dwo_name().unwrap_or("-") == *dwo_name);
        assert!(rt; section.is_string() == (*name == ".debug_str" || *name == ".debug_line_str"));
    }
}

// System V ABI for AMD64, figure 3.36; DWARF for the Arm 64-bit Architecture, 4.1.
#[test]
fn plain_values_compare_by_their_numbers(rt: HostRuntime) {
    assert!(rt; [X86_64::RBP, X86_64::RSP, X86_64::RA] == [Register(6), Register(7), Register(16)]);
    assert!(rt; [AArch64::X29, AArch64::X30] == [Register(29), Register(30)]);
    assert!(rt; [AArch64::SP, AArch64::RA_SIGN_STATE] == [Register(31), Register(34)]);
    assert!(rt; DwOp(3) < DwOp(4) && DwForm(0x1f01) > DwForm(0x2c));
    assert!(rt; Register(6) != Register(7) && EhFrameOffset(7usize) < EhFrameOffset(8));
    assert!(rt; ReaderOffsetId(7) == ReaderOffsetId(7));
}

#[test]
fn encodings_have_sizes_and_defaults(rt: HostRuntime) {
    for (format, initial_length_size, word_size) in [
        (Format::Dwarf32, 4, 4),
        (Format::Dwarf64, 12, 8),
    ] {
        assert!(rt; format.initial_length_size() == initial_length_size);
        assert!(rt; format.word_size() == word_size);
    }
    let line = LineEncoding::default();
    assert!(rt; line.minimum_instruction_length == 1);
    assert!(rt; line.maximum_operations_per_instruction == 1);
    assert!(rt; line.default_is_stmt && line.line_base == -5 && line.line_range == 14);
    assert!(rt; DebugFrameOffset::from(0x10u32) == DebugFrameOffset(0x10));
    assert!(rt; EhFrameOffset::from(0x10usize) == EhFrameOffset(0x10));
}
