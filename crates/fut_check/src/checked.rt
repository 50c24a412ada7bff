//! Programs that are well-typed.
ghost use Rattle.std.specs.Prelude.{◌≡◌, ◌<◌, ◌^◌, true};
ghost use Rattle.fut_syntax.specs.Views.{program_tree, items_tree};
ghost use Rattle.fut_rules.specs.Widths.{items_width};
ghost use Rattle.fut_check.specs.Checks.{IsChecked, fault_count, some_fit};

use fut_syntax::tree::Program;

/// A program that breaks no type rule, of fewer than 2^32 tokens, whose numbers have 63 bits.
#[derive(Clone, Copy)]
pub struct Checked<'a> {
    program: &'a Program,
    ghost well_typed: { fault_count (program_tree program.now.items) ≡ 0 },
    ghost few: { items_width (items_tree program.now.items) < 2 ^ 32 },
    ghost numbers: { some_fit (program_tree program.now.items) ≡ true },
}

impl<'a> Checked<'a> {
    #[tactic(auto, using(crate::proofs::Clean::no_count))]
    /// Of a program that breaks no rule.
    pub(crate) fn new(program: &'a Program) -> Checked<'a>
        requires checked { IsChecked program.now }
        requires few { items_width (items_tree program.now.items) < 2 ^ 32 }
        requires numbers { some_fit (program_tree program.now.items) ≡ true }
        ensures { result.program.now ≡ program.now }
    {
        Checked { program }
    }

    #[tactic(auto, using(crate::proofs::Clean::no_faults))]
    /// The program.
    pub fn program(&self) -> &'a Program
        ensures is { result.now ≡ self.now.program.now }
        ensures well_typed { IsChecked result.now }
        ensures few { items_width (items_tree result.now.items) < 2 ^ 32 }
        ensures numbers { some_fit (program_tree result.now.items) ≡ true }
    {
        self.program
    }
}
