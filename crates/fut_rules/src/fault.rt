//! Rules and faults.
ghost use Rattle.std.specs.Prelude.{◌≡◌};
ghost use Rattle.fut_rules.specs.Faults.{rule_number, is_before};

/// A type rule.
#[derive(Clone, Copy, Debug)]
pub enum Rule {
    UnknownName,
    DoubledName,
    ArgumentCount,
    IntForHandle,
    HandleForInt,
    HandleDepth,
    ArrayLength,
    ResultType,
    NoMain,
    MainParameters,
    NoValue,
    ConstantLimit,
}

impl Rule {
    /// The number of the rule, from 1 to 12.
    pub fn number(self) -> u32
        ensures { result ≡ rule_number self }
    {
        match self {
            Rule::UnknownName => 1,
            Rule::DoubledName => 2,
            Rule::ArgumentCount => 3,
            Rule::IntForHandle => 4,
            Rule::HandleForInt => 5,
            Rule::HandleDepth => 6,
            Rule::ArrayLength => 7,
            Rule::ResultType => 8,
            Rule::NoMain => 9,
            Rule::MainParameters => 10,
            Rule::NoValue => 11,
            Rule::ConstantLimit => 12,
        }
    }
}

/// A rule that is broken at a token, which is named by the number of tokens before it.
#[derive(Clone, Copy, Debug)]
pub struct Fault {
    pub token: usize,
    pub rule: Rule,
}

impl Fault {
    /// Whether this fault stands at an earlier token, or at the same one by a lesser rule.
    pub fn is_before(self, other: Fault) -> bool
        ensures { result ≡ is_before self other }
    {
        self.token < other.token
            || (self.token == other.token && self.rule.number() < other.rule.number())
    }
}
