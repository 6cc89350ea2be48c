//! Tables that can't be read.

use crate::compact::worked::TABLES;
use framehop_compact_tables::{CompactFormatError, UnwindInfo, is_increasing};

#[test]
fn every_front_is_refused(rt: HostRuntime) {
    for size in 0..TABLES.len() {
        let front = &TABLES[..size];
        let found = UnwindInfo::new(front).lookup(0x1005);
        assert!(rt; found == Err(CompactFormatError::Truncated), "{size}");
        assert!(rt; !is_increasing(front), "{size}");
    }
    assert!(rt; is_increasing(&TABLES));
}

#[test]
fn kinds_of_pages_are_two(rt: HostRuntime) {
    for kind in [0, 1, 4, 255] {
        let mut tables = TABLES;
        tables[52] = kind;
        let refusal = CompactFormatError::BadPageKind(u32::from(kind));
        assert!(rt;
            UnwindInfo::new(&tables).lookup(0x1005) == Err(refusal),
            "{kind}"
        );
        assert!(rt;
            UnwindInfo::new(&tables).lookup(0x1010) == Ok(None),
            "{kind}"
        );
        assert!(rt; !is_increasing(&tables), "{kind}");
    }
}

#[test]
fn entries_have_to_be_there(rt: HostRuntime) {
    let mut more = TABLES;
    more[58] = 2;
    assert!(rt; UnwindInfo::new(&more).lookup(0x1005) == Err(CompactFormatError::Truncated));
    let mut none = TABLES;
    none[58] = 0;
    assert!(rt; UnwindInfo::new(&none).lookup(0x1005) == Ok(None));
    assert!(rt; is_increasing(&none));
    none[57] = 1;
    assert!(rt; UnwindInfo::new(&none).lookup(0x1005) == Err(CompactFormatError::Truncated));
}
