//! The names that a task has declared so far.
ghost use Rattle.std.specs.Prelude.{◌≡◌, ◌+◌, ◌-◌, ◌≤◌, ◌<◌, ◌^◌, ◌++◌, ◌∷◌, [], IfOk, nat_lt, length, take};
ghost use Rattle.fut_rules.specs.declared.names.Variable.{Variable};
ghost use Rattle.fut_rules.specs.Names.{slots};

use crate::kind::Kind;
use crate::names::Variable;
use fut_base::list::NoMemory;
use sqlite_items::Items;
use std::alloc::Global;
use std::marker::Model;

/// What a place in a task's body knows: the number of `fut` in the task's result, the parameters and variables that are
/// visible there, and all that the task has declared so far.
#[derive(Drop)]
pub struct Scope {
    returns: u64,
    visible: Vec<Variable>,
    declared: Vec<Variable>,
    // the slots of all that is declared, or the greatest number where they are more
    taken: u64,
}

impl Model for Scope {
    ghost use Rattle.fut_rules.specs.Names.{Scope};

    ghost Value = { Scope };

    ghost use Rattle.std.specs.Prelude.{◌≡◌, ◌-◌, ◌^◌, min};
    ghost use Rattle.fut_rules.specs.Names.{slots};

    ghost view = { λ s. record { returns = s.returns; visible = s.visible.items; declared = s.declared.items } };

    ghost invariant = { λ s. s.taken ≡ min (slots s.declared.items) (2 ^ 64 - 1) };
}

impl Scope {
    /// Nothing is declared yet.
    pub fn new(alloc: Global, returns: u64) -> Scope
        ensures { result ≡ record { returns = returns; visible = []; declared = [] } }
    {
        Scope {
            returns,
            visible: Vec::new(alloc),
            declared: Vec::new(alloc),
            taken: 0,
        }
    }

    /// The number of `fut` in the task's result.
    pub fn returns(&self) -> u64
        ensures { result ≡ self.now.returns }
    {
        self.returns
    }

    pub fn visible(&self) -> &[Variable]
        ensures { result.now ≡ self.now.visible }
    {
        self.visible.as_slice()
    }

    pub fn declared(&self) -> &[Variable]
        ensures { result.now ≡ self.now.declared }
    {
        self.declared.as_slice()
    }

    /// Whether the slots exceed a limit with so many more.
    pub fn exceeds(&self, limit: u64, more: u64) -> bool
        requires { limit < 2 ^ 64 - 1 }
        ensures { result ≡ nat_lt limit (slots self.now.declared + more) }
    {
        self.taken.saturating_add(more) > limit
    }

    #[tactic(auto, using(crate::proofs::Slots::slots_more))]
    /// Declares a parameter or variable, which is visible from now on.
    pub fn declare(&mut self, alloc: Global, name: &[u8], kind: Kind) -> Result<(), NoMemory>
        ensures { IfOk result (λ _. let x : Variable = record { name = name.now; kind = kind } in
            self.new ≡ record {
              returns = self.old.returns;
              visible = self.old.visible ++ x ∷ [];
              declared = self.old.declared ++ x ∷ [];
            }) }
    {
        self.visible.push(Variable {
            name: Items::from_slice(alloc, name)?,
            kind,
        })?;
        self.declared.push(Variable {
            name: Items::from_slice(alloc, name)?,
            kind,
        })?;
        self.taken = self.taken.saturating_add(kind.size());
        Ok(())
    }

    /// Leaves the first visible ones, so many, visible.
    pub fn hide(&mut self, count: usize)
        ensures { self.new ≡ record { returns = self.old.returns; visible = take count self.old.visible; declared = self.old.declared } }
    {
        self.visible.truncate(count);
    }
}
