//! The sections that are taken of a module.
use framehop_modules::{BaseSvmas, ExplicitModuleSectionInfo, ModuleSectionInfo, ModuleSections};

type Info = ExplicitModuleSectionInfo<&'static [u8]>;

// A short name of what is taken.
fn taken(sections: &ModuleSections<&[u8]>) -> u8 {
    match sections {
        ModuleSections::CompactUnwindInfoAndEhFrame { .. } => 1,
        ModuleSections::PeUnwindInfo { .. } => 2,
        ModuleSections::EhFrame { .. } => 3,
        ModuleSections::DebugFrame { .. } => 4,
        ModuleSections::NoSections => 5,
    }
}

type Bytes = Option<&'static [u8]>;

const BYTES: Bytes = Some(b"1");

/// The data of `.debug_frame`, `.eh_frame` and `__unwind_info`, and what is taken of them, one choice after the other.
static CHOICES: [(Bytes, Bytes, Bytes, &[u8]); 4] = [
    (None, None, None, &[5]),
    (BYTES, None, None, &[4]),
    (BYTES, BYTES, None, &[3, 4]),
    (None, BYTES, BYTES, &[1]),
];

/// Compact unwind info goes before `.eh_frame`, that before `.debug_frame`.
#[test]
fn takes_the_first_kind(rt: HostRuntime) {
    for &(debug_frame, eh_frame, unwind_info, kinds) in &CHOICES {
        let mut info: Info = ExplicitModuleSectionInfo::default();
        info.debug_frame = debug_frame;
        info.eh_frame = eh_frame;
        info.unwind_info = unwind_info;
        for kind in kinds {
            assert!(rt; taken(&ModuleSections::choose(&mut info)) == *kind);
        }
    }
}

/// Names, and the data that is handed out under each, one after the other.
static NAMES: [(&str, Bytes); 3] = [("text", None), (".text", BYTES), ("__text", None)];

/// Data is handed out once, under either of a section's names, and ranges as often as they are
/// asked for.
#[test]
fn hands_data_out_once(rt: HostRuntime) {
    let mut info: Info = ExplicitModuleSectionInfo::default();
    info.text = BYTES;
    info.text_svma = Some(0x10..0x20);
    for &(name, data) in &NAMES {
        assert!(rt; info.section_data(name.as_bytes()) == data);
    }
    for name in ["__text", ".text"] {
        assert!(rt; info.section_svma_range(name.as_bytes()) == Some(0x10..0x20));
    }
    assert!(rt; info.segment_data(b"__TEXT") == None);
    let bases = BaseSvmas {
        eh_frame: 0,
        eh_frame_hdr: 0,
        text: 0x10,
        got: 0,
    };
    assert!(rt; BaseSvmas::of(&mut info) == bases);
}
