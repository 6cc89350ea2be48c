//! Which rules a first frame goes by where the machine code decides: at the end of a function, and in code that linkers write.
#![tactic(auto)]

/// By which rules machine code is read where it says more than a module's tables.
#[derive(Debug, Clone, Copy, PartialEq, Eq)]
pub enum CodeRules {
    /// Those that the original has.
    Published,
    /// What the code is known to do: epilogs of PE files end where Windows takes them to end, and the part of `__stub_helper`
    /// that stubs share has pushed its word once its `push` is executed. A first frame there has the caller that was called from.
    Known,
    /// As `Known`, and by ways out: a first frame in code that no table covers, or in a function of a Mach-O file, goes by what the code
    /// from there up to a return does to the stack pointer, the frame pointer and the return address, if that has an unwind rule. A later
    /// frame goes so, from behind its call, where the tables of a Mach-O file say nothing and in code that no row of a PE file has.
    Ways,
}

impl Default for CodeRules {
    ghost use Rattle.std.specs.Prelude.{◌≡◌};
    ghost use Rattle.framehop_code_rules.specs.declared.CodeRules.TheVariants.{Published};

    ghost is_default = { λ rules. rules ≡ Published };

    fn default() -> Self {
        CodeRules::Published
    }
}
