//! Tables of `.debug_abbrev` that are read once and shared.

ghost use Rattle.std.specs.Prelude.{◌≡◌, ℕ, ◌⊎◌, None, Ok, IfOk, IfErr, OnErr, OnOk};
ghost use Rattle.std.specs.BTreeSet.{contains};
ghost use Rattle.std.specs.Iterator.{IsFinite};
ghost use Rattle.std.specs.Ordering.{nat_cmp};
ghost use Rattle.dwarf_constants.specs.declared.error.Error.TheVariants as error;
ghost use Rattle.dwarf_read_core.specs.AbbreviationTable.{GivesOrMemory, table_in};
ghost use Rattle.dwarf_read_core.specs.AbbreviationsCache.{GivesError, GivesAll, HasAlso, KeepsAt, Populates, KeepsSame, cached_answer, is_kept, kept_answer, shared_declarations, table_answer};
ghost use Rattle.dwarf_read_core.specs.declared.abbrev.cache.AbbreviationsCacheStrategy.TheVariants as strategies;
ghost use Rattle.dwarf_read_core.specs.DebugAbbrev.{declarations};

use super::{Abbreviations, DebugAbbrev};
use dwarf_constants::{Error, Result};
use dwarf_offsets::DebugAbbrevOffset;
use dwarf_readers::{Reader, ReaderOffset};
use std::alloc::Global;
use std::collections::{BTreeMap, BTreeSet};
use std::rc::Rc;

/// Which offsets [`AbbreviationsCache::populate`] keeps tables for.
#[derive(Debug, Clone, Copy, PartialEq, Eq)]
pub enum AbbreviationsCacheStrategy {
    /// Those that are given twice or more.
    Duplicates,
    /// All that are given.
    All,
}

/// Tables of abbreviations by their offsets in one `.debug_abbrev`, for the units that share them.
#[derive(Debug, Drop)]
pub struct AbbreviationsCache {
    alloc: Global,
    tables: BTreeMap<u64, Result<Rc<Abbreviations>>>,
}

impl AbbreviationsCache {
    /// A cache that keeps nothing. It doesn't allocate.
    pub fn new(alloc: Global) -> AbbreviationsCache
        ensures { (q : ℕ) → kept_answer result q ≡ None }
    {
        AbbreviationsCache {
            alloc,
            tables: BTreeMap::new(alloc),
        }
    }

    /// Keeps what the section has at the offsets of the strategy, a table or an error, and drops all
    /// that was kept before. Fails with the iterator's first error, or if there is no memory, which is
    /// an error that is never kept. The cache is then as before.
    pub fn populate<R: Reader, I: Iterator<Item = Result<DebugAbbrevOffset<R::Offset>>> + Drop>(
        &mut self,
        strategy: AbbreviationsCacheStrategy,
        debug_abbrev: &DebugAbbrev<R>,
        offsets: I,
    ) -> Result<()>
        requires can { I.can_next offsets }
        requires ends { IsFinite (I.remaining offsets) }
        ensures populated { OnOk result (GivesAll I.next_gives offsets
            (Populates R.Offset.value strategy (R.stretch debug_abbrev.now) self.new)) }
        ensures refused { IfErr result
            (λ e. (e ≡ error.OutOfMemory) ⊎ GivesError I.next_gives offsets e) }
        ensures unchanged { OnErr result (KeepsSame self.old self.new) }
    {
        let mut seen = BTreeSet::new(self.alloc);
        let mut cache = AbbreviationsCache::new(self.alloc);
        for offset in offsets {
            let offset = offset?;
            let number = offset.0.into_u64();
            let wanted = is_wanted(strategy, &mut seen, number)?;
            if wanted {
                cache.keep(debug_abbrev, offset)?;
            }
        }
        *self = cache;
        Ok(())
    }

    // Keeps what the section has at an offset, if nothing is kept for it.
    fn keep<R: Reader>(
        &mut self,
        debug_abbrev: &DebugAbbrev<R>,
        offset: DebugAbbrevOffset<R::Offset>,
    ) -> Result<()>
        ensures kept { OnOk result (KeepsAt (R.Offset.value offset.0)
            (cached_answer self.old (R.stretch debug_abbrev.now)) self.old self.new) }
        ensures memory { IfErr result (λ e. e ≡ error.OutOfMemory) }
    {
        let number = offset.0.into_u64();
        if self.tables.contains_key(&number) {
            return Ok(());
        }
        let answer = answer_to_keep(self.alloc, debug_abbrev, offset)?;
        self.tables.insert(number, answer)?;
        Ok(())
    }

    /// Keeps a table for an offset, in place of what was kept for it. If it fails to allocate, the
    /// cache is as before.
    pub fn set<Offset: ReaderOffset>(
        &mut self,
        offset: DebugAbbrevOffset<Offset>,
        abbreviations: Rc<Abbreviations>,
    ) -> Result<()>
        ensures kept { OnOk result (KeepsAt (Offset.value offset.0)
            (λ _. Ok (shared_declarations abbreviations)) self.old self.new) }
        ensures unchanged { OnErr result (KeepsSame self.old self.new) }
        ensures memory { IfErr result (λ e. e ≡ error.OutOfMemory) }
    {
        self.tables.insert(offset.0.into_u64(), Ok(abbreviations))?;
        Ok(())
    }

    /// The table at an offset: what is kept for it, or else what the section has. Fails with the error
    /// that is kept or that the section gives, or if there is no memory.
    pub fn get<R: Reader>(
        &self,
        debug_abbrev: &DebugAbbrev<R>,
        offset: DebugAbbrevOffset<R::Offset>,
    ) -> Result<Rc<Abbreviations>>
        ensures { GivesOrMemory shared_declarations result
            (cached_answer self.now (R.stretch debug_abbrev.now) (R.Offset.value offset.0)) }
    {
        match self.tables.get(&offset.0.into_u64()) {
            Some(Ok(table)) => Ok(table.clone()?),
            Some(Err(error)) => Err(*error),
            None => shared(self.alloc, debug_abbrev.abbreviations(self.alloc, offset)?),
        }
    }
}

// The table, to be shared.
fn shared(alloc: Global, table: Abbreviations) -> Result<Rc<Abbreviations>>
    ensures { GivesOrMemory shared_declarations result (Ok (declarations table)) }
{
    Ok(Rc::new(alloc, table)?)
}

// What the section has at an offset, a table or an error. Out of memory isn't an error of the section.
fn answer_to_keep<R: Reader>(
    alloc: Global,
    debug_abbrev: &DebugAbbrev<R>,
    offset: DebugAbbrevOffset<R::Offset>,
) -> Result<Result<Rc<Abbreviations>>>
    ensures said { IfOk result (λ answer. table_answer answer
        ≡ table_in (R.Offset.value offset.0) (R.stretch debug_abbrev.now)) }
    ensures memory { IfErr result (λ e. e ≡ error.OutOfMemory) }
{
    match debug_abbrev.abbreviations(alloc, offset) {
        Ok(table) => Ok(Ok(shared(alloc, table)?)),
        Err(Error::OutOfMemory) => Err(Error::OutOfMemory),
        Err(error) => Ok(Err(error)),
    }
}

// Whether a table is kept for an offset that is given after those seen, to which it is added if the
// strategy needs them.
fn is_wanted(
    strategy: AbbreviationsCacheStrategy,
    seen: &mut BTreeSet<u64>,
    offset: u64,
) -> Result<bool>
    ensures wanted { IfOk result
        (λ wanted. wanted ≡ is_kept strategy (contains nat_cmp seen.old offset)) }
    ensures seen { OnOk result
        (strategy ≡ strategies.Duplicates → HasAlso offset seen.old seen.new) }
    ensures memory { IfErr result (λ e. e ≡ error.OutOfMemory) }
{
    match strategy {
        AbbreviationsCacheStrategy::Duplicates => {
            let is_new = seen.insert(offset)?;
            Ok(!is_new)
        }
        AbbreviationsCacheStrategy::All => Ok(true),
    }
}
