//! Expressions whose variables are known by number.
ghost use Rattle.std.specs.Prelude.{◌≡◌, ◌≤◌};
ghost use Rattle.fut_syntax.specs.Views.{op_tree};
ghost use Rattle.task_machine.specs.Values.{number_of, combine, quotient, remainder, truth, is_zero, index_of};
ghost use Rattle.task_frame.specs.Terms.{number_by, value_by};

use crate::frame::Frame;
use fut_base::record::Value;
use fut_syntax::tree::Operator;
use sqlite_items::Boxed;

/// An expression of a task. A variable is its number among those of the task.
#[derive(Drop)]
pub enum Term {
    Number(i64),
    Variable(u32),
    Negative(Boxed<Term>),
    Inverted(Boxed<Term>),
    Pair(Boxed<Term>, Operator, Boxed<Term>),
}

impl Term {
    /// The number that it gives.
    pub fn number(&self, frame: &Frame) -> i64
        ensures { result ≡ number_by frame.now.slots self.now }
    {
        match self {
            Term::Number(number) => *number,
            Term::Variable(variable) => number_of(frame.value(*variable)),
            Term::Negative(of) => of.get().number(frame).wrapping_neg(),
            Term::Inverted(of) => number_of_test(of.get().number(frame) == 0),
            Term::Pair(left, op, right) => {
                let x = left.get().number(frame);
                let y = right.get().number(frame);
                combined(*op, x, y)
            }
        }
    }

    /// The value that it gives.
    pub fn value(&self, frame: &Frame) -> Value
        ensures { result ≡ value_by frame.now.slots self.now }
    {
        match self {
            Term::Variable(variable) => frame.value(*variable),
            Term::Number(_) | Term::Negative(_) | Term::Inverted(_) | Term::Pair(_, _, _) => {
                Value::Int(self.number(frame))
            }
        }
    }
}

/// The number of a value; a handle where a number is due counts as 0.
fn number_of(value: Value) -> i64
    ensures { result ≡ number_of value }
{
    match value {
        Value::Int(number) => number,
        Value::Fut(_) => 0,
    }
}

/// 1 where a test holds, else 0.
fn number_of_test(test: bool) -> i64
    ensures { result ≡ truth test }
{
    if test { 1 } else { 0 }
}

/// A quotient rounded towards zero, 0 where the divisor is.
fn quotient(x: i64, y: i64) -> i64
    ensures { result ≡ quotient x y }
{
    if y == 0 { 0 } else { x.wrapping_div(y) }
}

/// The remainder of that quotient, 0 where the divisor is.
fn remainder(x: i64, y: i64) -> i64
    ensures { result ≡ remainder x y }
{
    if y == 0 { 0 } else { x.wrapping_rem(y) }
}

/// What an operator gives.
fn combined(op: Operator, x: i64, y: i64) -> i64
    ensures { result ≡ combine (op_tree op) x y }
{
    match op {
        Operator::Add => x.wrapping_add(y),
        Operator::Subtract => x.wrapping_sub(y),
        Operator::Multiply => x.wrapping_mul(y),
        Operator::Divide => quotient(x, y),
        Operator::Remainder => remainder(x, y),
        Operator::BitAnd => x & y,
        Operator::BitOr => x | y,
        Operator::Equal => number_of_test(x == y),
        Operator::Unequal => number_of_test(x != y),
        Operator::Less => number_of_test(x < y),
        Operator::AtMost => number_of_test(x <= y),
        Operator::Greater => number_of_test(x > y),
        Operator::AtLeast => number_of_test(x >= y),
    }
}

/// The number from 0 to `length` - 1 that differs from `number` by a multiple of `length`.
pub fn index_of(length: u32, number: i64) -> u32
    requires { 1 ≤ length }
    ensures { result ≡ index_of length number }
{
    number.rem_euclid(i64::from(length)) as u32
}
