//! What the mappings so far say.

ghost use Rattle.perf_processes.specs.Mapped.{MappedByChanges};

/// What a process has mapped at an address is what the latest change says that concerns it. It does nothing when the program runs.
pub fn mapped_by_the_latest_change()
    ensures { MappedByChanges }
{}
