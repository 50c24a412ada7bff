//! Types and needs.
ghost use Rattle.std.specs.Prelude.{◌≡◌, ◌<◌, ◌^◌, if◌then◌else◌, None, Some};
ghost use Rattle.fut_syntax.specs.Views.{type_tree};
ghost use Rattle.fut_rules.specs.Kinds as spec;

use crate::fault::Rule;
use fut_syntax::tree::VarType;

/// The type of a variable, a parameter or an expression.
#[derive(Clone, Copy, Debug)]
pub enum Kind {
    Int,
    /// A handle of what has so many `fut` before `int`, that is one less than the handle itself.
    Handle { inside: u64 },
    /// An array whose elements have so many `fut` before `int`, and its length.
    Array { depth: u64, length: u64 },
}

/// What a place needs.
#[derive(Clone, Copy, Debug)]
pub enum Need {
    Int,
    /// A handle of what has so many `fut` before `int`.
    Handle { inside: u64 },
    AnyHandle,
    /// An array whose elements have so many `fut` before `int`, and its length.
    Array { depth: u64, length: u64 },
}

/// `int` behind so many `fut`.
pub fn plain(depth: u64) -> Kind
    ensures { result ≡ spec.plain depth }
{
    if depth == 0 {
        Kind::Int
    } else {
        Kind::Handle { inside: depth - 1 }
    }
}

/// A type as it is written.
pub fn kind_of(written: &VarType) -> Kind
    ensures { result ≡ spec.kind_of (type_tree written.now) }
{
    match *written {
        VarType::Plain { depth } => plain(depth),
        VarType::Array { depth, length } => Kind::Array { depth, length },
    }
}

impl Kind {
    /// The slots or argument values that a variable takes.
    pub fn size(self) -> u64
        ensures { result ≡ spec.size self }
    {
        match self {
            Kind::Int | Kind::Handle { .. } => 1,
            Kind::Array { length, .. } => length,
        }
    }

    /// What `get` gives of it, where it is a handle.
    pub fn got(self) -> Option<Kind>
        ensures { result ≡ spec.got self }
    {
        match self {
            Kind::Int | Kind::Array { .. } => None,
            Kind::Handle { inside } => Some(plain(inside)),
        }
    }

    /// What an argument for a parameter of this type has to be.
    pub fn argument_need(self) -> Need
        ensures { result ≡ spec.argument_need self }
    {
        match self {
            Kind::Int => Need::Int,
            Kind::Handle { inside } => Need::Handle { inside },
            Kind::Array { depth, length } => Need::Array { depth, length },
        }
    }

    /// What the init of a variable of this type has to be.
    pub fn init_need(self) -> Need
        ensures { result ≡ spec.init_need self }
    {
        match self {
            Kind::Int => Need::Int,
            Kind::Handle { inside } => Need::Handle { inside },
            Kind::Array { depth, .. } => plain(depth).argument_need(),
        }
    }

    /// Whether something of a type may be returned where this is the task's result.
    fn is_result(self, given: Kind) -> bool
        ensures { result ≡ spec.is_result self given }
    {
        match (self, given) {
            (Kind::Int, Kind::Int) => true,
            (Kind::Handle { inside }, Kind::Handle { inside: given }) => inside == given,
            (Kind::Int, Kind::Handle { .. } | Kind::Array { .. }) => false,
            (Kind::Handle { .. }, Kind::Int | Kind::Array { .. }) => false,
            (Kind::Array { .. }, _) => false,
        }
    }
}

impl Need {
    /// The rule that is broken where something of a type stands in a place with this need.
    pub fn rule(self, given: Kind) -> Option<Rule>
        ensures { result ≡ spec.need_rule self given }
    {
        match (self, given) {
            (Need::Int, Kind::Int) => None,
            (Need::Int, Kind::Handle { .. }) => Some(Rule::HandleForInt),
            (Need::Int, Kind::Array { .. }) => Some(Rule::ArrayLength),
            (Need::Handle { .. }, Kind::Int) => Some(Rule::IntForHandle),
            (Need::Handle { inside }, Kind::Handle { inside: given }) => {
                broken_unless(inside == given, Rule::HandleDepth)
            }
            (Need::Handle { .. }, Kind::Array { .. }) => Some(Rule::ArrayLength),
            (Need::AnyHandle, Kind::Int) => Some(Rule::IntForHandle),
            (Need::AnyHandle, Kind::Handle { .. }) => None,
            (Need::AnyHandle, Kind::Array { .. }) => Some(Rule::ArrayLength),
            (Need::Array { .. }, Kind::Int) => Some(Rule::IntForHandle),
            (Need::Array { .. }, Kind::Handle { .. }) => Some(Rule::ArrayLength),
            (
                Need::Array { depth, length },
                Kind::Array {
                    depth: d,
                    length: n,
                },
            ) => {
                if depth == d {
                    broken_unless(length == n, Rule::ArrayLength)
                } else {
                    Some(Rule::HandleDepth)
                }
            }
        }
    }
}

/// The rule, where a test fails.
fn broken_unless(test: bool, rule: Rule) -> Option<Rule>
    ensures { result ≡ (if test then None else Some rule) }
{
    if test { None } else { Some(rule) }
}

/// The rule that is broken where a need is known, and what stands there has a type.
pub fn unmet(need: Option<Need>, given: Option<Kind>) -> Option<Rule>
    ensures { result ≡ spec.unmet need given }
{
    match (need, given) {
        (Some(need), Some(given)) => need.rule(given),
        (Some(_), None) | (None, _) => None,
    }
}

/// The rule that a returned expression breaks in a task whose result has so many `fut` before `int`.
pub fn result_rule(depth: u64, given: Option<Kind>) -> Option<Rule>
    ensures { result ≡ spec.result_rule depth given }
{
    match given {
        Some(given) => broken_unless(plain(depth).is_result(given), Rule::ResultType),
        None => None,
    }
}
