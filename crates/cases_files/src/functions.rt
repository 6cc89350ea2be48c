//! The functions at addresses.

use anyhow::Result;
use elf_files::{ElfFile, Symbol};
use shown_text::Shown;

fn show_function(function: &Symbol<'_>, shown: &mut Shown) {
    shown.text(" function ");
    shown.bytes(function.name);
    shown.hex(" start 0x", function.value);
    shown.number(" size ", function.size);
    shown.number(" section ", u64::from(function.section_index));
}

/// Shows the function at each address of a text, which has one in hexadecimal digits on each line.
pub(crate) fn show_functions(file: &ElfFile<'_>, addresses: &str, shown: &mut Shown) -> Result<()> {
    for line in addresses.lines() {
        let address = u64::from_str_radix(line, 16)?;
        shown.hex("at 0x", address);
        match file.symbol_for_address(address)? {
            Some(function) => show_function(&function, shown),
            None => shown.text(" none"),
        }
        shown.end();
    }
    Ok(())
}
