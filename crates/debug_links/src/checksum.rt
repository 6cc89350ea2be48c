//! The checksum of a debug file (CRC-32).

ghost use Rattle.std.specs.Prelude.{◌≡◌, ◌<◌, fold};
ghost use Rattle.debug_links.specs.Checksums.{IsTable, checksum_of, entry_of, shifted, with_byte};

const POLYNOMIAL: u32 = 0xedb8_8320;

// A value without its lowest bit, over the polynomial.
#[tactic(auto, unfolding(crate::specs::Checksums::shifted))]
fn shifted(value: u32) -> u32
    ensures { result ≡ shifted value }
{
    if value % 2 == 1 {
        value / 2 ^ POLYNOMIAL
    } else {
        value / 2
    }
}

// The entry of the table with an index.
#[tactic(auto, unfolding(crate::specs::Checksums::entry_of))]
fn entry_of(index: u32) -> u32
    ensures { result ≡ entry_of index }
{
    let two = shifted(shifted(index));
    let four = shifted(shifted(two));
    let six = shifted(shifted(four));
    shifted(shifted(six))
}

// The table of all entries.
fn table() -> [u32; 256]
    ensures { IsTable result }
{
    let mut table = [0; 256];
    for index in 0..256u32 {
        table[index as usize] = entry_of(index);
    }
    table
}

// The register with a byte more.
#[tactic(auto, unfolding(crate::specs::Checksums::with_byte))]
#[inline]
fn with_byte(table: &[u32; 256], register: u32, byte: u8) -> u32
    requires { IsTable table.now }
    ensures { result ≡ with_byte register byte }
{
    let index = (register ^ u32::from(byte)) % 256;
    table[index as usize] ^ register / 256
}

/// The checksum of a file's bytes.
pub fn checksum_of(bytes: &[u8]) -> u32
    ensures { result ≡ checksum_of bytes.now }
{
    let table = table();
    let mut register = u32::MAX;
    for byte in bytes {
        register = with_byte(&table, register, *byte);
    }
    !register
}
