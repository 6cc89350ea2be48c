//! Recordings of perf.

use crate::events::{file_events, pipe_events, show_events, show_features};
use crate::mapped::show_mapped;
use crate::records::show_records;
use crate::text::show_display;
use anyhow::Result;
use perf_files::{FileHeader, PerfHeader, Section, read_header};
use shown_text::Shown;

const PIPE_HEADER_SIZE: u64 = 16;

fn show_pipe(bytes: &[u8], shown: &mut Shown) -> Result<()> {
    shown.text("pipe");
    shown.end();
    let data = Section {
        offset: PIPE_HEADER_SIZE,
        size: (bytes.len() as u64).saturating_sub(PIPE_HEADER_SIZE),
    };
    let events = pipe_events(bytes, data, shown)?;
    show_events(&events, shown);
    show_records(bytes, data, &events, shown);
    show_mapped(bytes, data, &events, shown)
}

fn show_file(bytes: &[u8], header: &FileHeader, shown: &mut Shown) -> Result<()> {
    let data = header.data_in(bytes.len() as u64);
    shown.hex("file data 0x", data.offset);
    shown.hex(" 0x", data.size);
    shown.hex(" features 0x", header.features);
    shown.end();
    let events = file_events(bytes, header, shown)?;
    show_events(&events, shown);
    show_features(bytes, header, shown);
    show_records(bytes, data, &events, shown);
    show_mapped(bytes, data, &events, shown)
}

/// Shows the header of a recording, its events, its records with their samples, and in the order of time what was mapped where each
/// sample was taken.
pub(crate) fn show_recording(bytes: &[u8], shown: &mut Shown) -> Result<()> {
    match read_header(bytes) {
        Ok(PerfHeader::Pipe) => show_pipe(bytes, shown),
        Ok(PerfHeader::File(header)) => show_file(bytes, &header, shown),
        Err(refusal) => {
            show_display("header: ", &refusal, shown);
            shown.end();
            Ok(())
        }
    }
}
