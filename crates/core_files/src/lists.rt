//! Lists that grow.

ghost use Rattle.std.specs.Prelude.{◌≡◌, ◌++◌, ◌∷◌, [], OnOk, IfErr};
ghost use Rattle.core_files.specs.declared.error.CoreError.TheVariants.{OutOfMemory};

use crate::error::CoreError;

// Adds a value at the end of a list.
pub(crate) fn push<T: Drop>(list: &mut Vec<T>, value: T) -> Result<(), CoreError>
    ensures ok { OnOk result (list.new.items ≡ list.old.items ++ value ∷ []) }
    ensures err { IfErr result (λ e. e ≡ OutOfMemory) }
{
    match list.push(value) {
        Ok(()) => Ok(()),
        Err(_) => Err(CoreError::OutOfMemory),
    }
}
