//! Goes over types and declared names.
ghost use Rattle.std.specs.Prelude.{◌≡◌, ◌+◌, ◌≤◌, ◌<◌};
ghost use Rattle.fut_syntax.specs.Views.{type_tree, items_tree};
ghost use Rattle.fut_rules.specs.declared.names.Variable.{Variable};
ghost use Rattle.fut_rules.specs.Faults.{Walked};
ghost use Rattle.fut_rules.specs.Widths.{type_width};
ghost use Rattle.fut_check.specs.Stmts as spec;

use fut_rules::fault::Rule;
use fut_rules::kind::Kind;
use fut_rules::names::{declares, is_named};
use fut_rules::scope::Scope;
use fut_rules::search::Search;
use fut_syntax::tree::{Item, VarType};

/// The greatest number of `fut` in a type.
const DEPTH: u64 = 8;

/// The greatest length of an array of handles.
const LENGTH: u64 = 64;

/// The greatest number of slots of a task.
const SLOTS: u64 = 80;

/// Notes that so many `fut` are too many, where `int` stands behind them.
pub fn note_depth(search: &mut Search, depth: u64)
    requires { search.old.at + depth < search.old.end }
    ensures { Walked search.old search.new 0 (spec.depth_faults search.old.at depth) }
{
    search.note_ahead(depth > DEPTH, DEPTH as usize, Rule::HandleDepth);
}

/// Whether an array's length is 0 or too great.
fn is_bad_length(length: u64) -> bool
    ensures { result ≡ spec.is_bad_length length }
{
    length == 0 || length > LENGTH
}

/// Goes over the type of a variable or parameter.
#[tactic(auto, using(fut_rules::proofs::Least::least_append))]
pub fn walk_type(search: &mut Search, written: &VarType)
    requires { search.old.at + type_width (type_tree written.now) ≤ search.old.end }
    ensures { Walked search.old search.new (type_width (type_tree written.now)) (spec.type_faults search.old.at (type_tree written.now)) }
{
    let _at = search.at();
    match *written {
        VarType::Plain { depth } => {
            note_depth(search, depth);
            search.skip(depth as usize + 1);
        }
        VarType::Array { depth, length } => {
            note_depth(search, depth);
            search.note_ahead(depth == 0, depth as usize, Rule::IntForHandle);
            search.note_ahead(is_bad_length(length), depth as usize + 2, Rule::ArrayLength);
            search.skip(depth as usize + 4);
        }
    }
}

/// Notes what is wrong with a parameter or variable that is declared at the next token.
#[tactic(auto, using(fut_rules::proofs::Least::least_append))]
pub fn note_declared(search: &mut Search, items: &[Item], scope: &Scope, word: &[u8], kind: Kind)
    requires { search.old.at < search.old.end }
    ensures { let x : Variable = record { name = word.now; kind = kind } in Walked search.old search.new 0
        (spec.declared_faults (items_tree items.now) scope.now.declared search.old.at x) }
{
    let at = search.at();
    let doubled = is_named(scope.declared(), word) || declares(items, word);
    search.note_if(doubled, at, Rule::DoubledName);
    search.note_if(scope.exceeds(SLOTS, kind.size()), at, Rule::ConstantLimit);
}
