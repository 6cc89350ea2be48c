//! The entries of a symbol table (`Elf64_Sym`).

ghost use Rattle.std.specs.Prelude.{◌≡◌, ◌≤◌, ◌+◌, length};
ghost use Rattle.function_index.specs.Entries.{binding_of, binding_rank, function_at, is_function, number_at, preference, underscores};

use dwarf_endianity::{Endianity, LittleEndian};

// The most underscores, and the most bytes of a name, that count.
const MOST: usize = 0xffff;

/// The size of an entry.
pub(crate) const ENTRY_SIZE: usize = 24;

/// A function of a symbol table.
#[derive(Clone, Copy, Debug)]
pub(crate) struct FunctionEntry {
    /// The first address.
    pub(crate) first: u64,
    /// The last address, or 2^64 - 1 if that is above.
    pub(crate) last: u64,
    /// Where the name is in the strings of the table.
    pub(crate) name_offset: u32,
    /// How its symbol is bound.
    pub(crate) binding: Binding,
}

/// How a symbol is bound.
#[derive(Clone, Copy, Debug, PartialEq, Eq)]
pub(crate) enum Binding {
    /// To its file alone, or otherwise than as below.
    Local,
    /// To all files (`STB_GLOBAL`).
    Global,
    /// To all files that have no stronger one (`STB_WEAK`).
    Weak,
}

// How a symbol is bound, by the high four bits of `st_info`.
fn binding_of(kind: u8) -> Binding
    ensures { result ≡ binding_of kind }
{
    match kind / 16 {
        1 => Binding::Global,
        2 => Binding::Weak,
        _ => Binding::Local,
    }
}

// The rank of a binding.
fn binding_rank(binding: Binding) -> u64
    ensures { result ≡ binding_rank binding }
{
    match binding {
        Binding::Weak => 0,
        Binding::Local => 1,
        Binding::Global => 2,
    }
}

// How many underscores a name begins with.
fn underscores(name: &[u8]) -> usize
    ensures { result ≡ underscores name.now }
{
    for (count, byte) in name.iter().enumerate() {
        if *byte != b'_' {
            return count;
        }
    }
    name.len()
}

/// How much a function is preferred to others that begin where it does: the more, the greater the number.
pub(crate) fn preference(binding: Binding, name: &[u8]) -> u64
    ensures { result ≡ preference binding name.now }
{
    let fewer = MOST - underscores(name).min(MOST);
    let length = name.len().min(MOST);
    binding_rank(binding) * 0x1_0000_0000 + fewer as u64 * 0x1_0000 + length as u64
}

// Whether a symbol is a function (`STT_FUNC`, `STT_GNU_IFUNC`) that is in the file and has bytes.
fn is_function(kind: u8, section_index: u16, size: u64) -> bool
    ensures { result ≡ is_function kind section_index size }
{
    (kind % 16 == 2 || kind % 16 == 10) && section_index != 0 && size != 0
}

/// The function of the entry at an offset, if it is one.
#[tactic(auto, unfolding(crate::specs::Entries::number_at))]
pub(crate) fn function_at(table: &[u8], at: usize) -> Option<FunctionEntry>
    requires { at + 24 ≤ length table.now }
    ensures { result ≡ function_at table.now at }
{
    let kind = table[at + 4];
    let section_index = LittleEndian.read_u16(&table[at + 6..]);
    let first = LittleEndian.read_u64(&table[at + 8..]);
    let size = LittleEndian.read_u64(&table[at + 16..]);
    if !is_function(kind, section_index, size) {
        return None;
    }
    Some(FunctionEntry {
        first,
        last: first.saturating_add(size.saturating_sub(1)),
        name_offset: LittleEndian.read_u32(&table[at..]),
        binding: binding_of(kind),
    })
}
