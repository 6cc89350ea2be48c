//! The section of call frames.

use crate::text::show_display;
use frame_table_files::{FileSection, section_of_file};
use shown_text::Shown;

fn show_base(name: &str, base: Option<u64>, shown: &mut Shown) {
    match base {
        Some(address) => {
            shown.text(" ");
            shown.text(name);
            shown.hex(" 0x", address);
        }
        None => {
            shown.text(" no ");
            shown.text(name);
        }
    }
}

fn show_section(section: &FileSection<'_>, shown: &mut Shown) {
    shown.text("frames ");
    show_display("", &section.name, shown);
    shown.hex(" size 0x", section.bytes.len() as u64);
    show_base("section", section.bases.eh_frame.section, shown);
    show_base("text", section.bases.eh_frame.text, shown);
    show_base("got", section.bases.eh_frame.data_base, shown);
}

/// Shows which section of call frames of a file is listed, and what its pointers are relative to.
pub(crate) fn show_frames(bytes: &[u8], shown: &mut Shown) {
    match section_of_file(bytes, None) {
        Ok(section) => show_section(&section, shown),
        Err(refusal) => show_display("frames: ", &refusal, shown),
    }
    shown.end();
}
