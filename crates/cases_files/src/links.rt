//! Links to debug files.

use debug_links::{checksum_of, debug_link_of};
use shown_text::Shown;

/// Shows the link of a file to its debug file, and the checksum of its bytes.
pub(crate) fn show_link(bytes: &[u8], shown: &mut Shown) {
    match debug_link_of(bytes) {
        Some(link) => {
            shown.text("link ");
            shown.bytes(link.name);
            shown.hex(" checksum 0x", u64::from(link.checksum));
        }
        None => shown.text("no link"),
    }
    shown.end();
    shown.hex("checksum 0x", u64::from(checksum_of(bytes)));
    shown.end();
}
