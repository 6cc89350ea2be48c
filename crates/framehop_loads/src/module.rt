//! Modules that are unwound by their sections.

ghost use Rattle.std.specs.Prelude.{◌≡◌, IfOk};
ghost use Rattle.std.specs.String.{string_bytes};
ghost use Rattle.framehop_loads.specs.UnwindData.{unwind_data_with};

use crate::load_options::LoadOptions;
use crate::unwind_data::ModuleUnwindData;
use framehop_modules::{ModuleSectionInfo, SectionBytes};
use std::alloc::{AllocError, Global};
use std::ops::Range;

/// A module that is unwound by its sections, which are values of `D`.
pub type Module<D> = framehop_unwinder::Module<ModuleUnwindData<D>>;

/// A module with this name that is loaded at `avma_range`, a range of addresses in the memory of the
/// process. It is unwound by the sections that `info` gives, whose addresses are those of the file, as `options` ask for:
/// [`ModuleSectionInfo::base_svma`] is the file's address of what is loaded at `base_avma`. Fails if it fails to allocate an index, a
/// table or the name.
pub fn load_module<D: SectionBytes + Drop, I: ModuleSectionInfo<D> + Drop>(
    alloc: Global,
    name: String,
    avma_range: Range<u64>,
    base_avma: u64,
    info: I,
    options: LoadOptions,
) -> Result<Module<D>, AllocError>
    ensures name { IfOk result (λ module_. module_.name ≡ string_bytes name) }
    ensures start { IfOk result (λ module_. module_.start ≡ avma_range.start) }
    ensures end { IfOk result (λ module_. module_.end ≡ avma_range.end) }
    ensures base { IfOk result (λ module_. module_.base ≡ base_avma) }
    ensures unwind_data { IfOk result (λ module_.
        module_.unwind_data ≡ unwind_data_with options (I.sections info)) }
{
    let unwind_data = ModuleUnwindData::new(alloc, info, options)?;
    Module::new(alloc, name, avma_range, base_avma, unwind_data)
}
