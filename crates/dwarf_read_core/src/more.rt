//! What stays of an answer when more bytes follow a section: no byte after those that are read
//! changes it.

ghost use Rattle.std.specs.Prelude.{ℕ};
ghost use Rattle.dwarf_constants.specs.declared.common.Format.{Format};
ghost use Rattle.dwarf_read_core.specs.AbbreviationTable.{attributes_at, table_at, table_in};
ghost use Rattle.dwarf_read_core.specs.AddressSets.{next_address, next_set, set_at};
ghost use Rattle.dwarf_read_core.specs.ClosedTables.{IsSteadyIf, is_closed_at, is_closed_in};
ghost use Rattle.dwarf_read_core.specs.MoreItems.{IsSteadyNext};
ghost use Rattle.dwarf_read_core.specs.Sections.{address_in, range_in, string_in, string_offset_in};
ghost use Rattle.dwarf_readers.specs.More.{IsSteady, IsSteadySearch};

/// What is found by its offset in a section: strings, string offsets and addresses, and parts of the
/// section.
pub fn searches_stay()
    ensures string { (offset : ℕ) → IsSteadySearch (string_in offset) }
    ensures string_offset { (limit : ℕ) (format : Format) (base index : ℕ)
        → IsSteadySearch (string_offset_in limit format base index) }
    ensures address { (limit size base index : ℕ)
        → IsSteadySearch (address_in limit size base index) }
    ensures range { (offset size : ℕ) → IsSteadySearch (range_in offset size) }
{}

/// Sets of addresses, and the addresses of a set (DWARF 5, 7.27). The next of them stays if bytes are
/// left.
pub fn address_sets_stay()
    ensures set { (limit offset : ℕ) → IsSteady (set_at limit offset) }
    ensures next_set { (limit offset : ℕ) → IsSteadyNext (next_set limit offset) }
    ensures next_address { (size : ℕ) → IsSteadyNext (next_address size) }
{}

/// Tables of abbreviations (DWARF 5, 7.5.3). A table that the section's end closes may become longer,
/// and one that code 0 closes stays.
pub fn abbreviation_tables_stay()
    ensures attributes { IsSteady attributes_at }
    ensures table { IsSteadyIf is_closed_at table_at }
    ensures table_in { (offset : ℕ) → IsSteadyIf (is_closed_in offset) (table_in offset) }
{}
