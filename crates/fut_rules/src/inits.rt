//! Goes over calls and what variables are set to.
ghost use Rattle.std.specs.Prelude.{◌≡◌, ◌+◌, ◌≤◌, ◌<◌, ◌++◌, None, Some, length};
ghost use Rattle.fut_syntax.specs.Views.{expr_tree, args_tree, init_tree, items_tree, params_tree};
ghost use Rattle.fut_rules.specs.Faults.{Walked, broken};
ghost use Rattle.fut_rules.specs.Names as names;
ghost use Rattle.fut_rules.specs.Names.{declaration, means_task};
ghost use Rattle.fut_rules.specs.Widths.{each_width, args_width, call_width, init_width};
ghost use Rattle.fut_rules.specs.Inits as spec;

use crate::exprs::{expr_kind, walk_expr, walk_needed};
use crate::fault::Rule;
use crate::kind::{Kind, Need, kind_of, plain, unmet};
use crate::names::{Variable, declaration, kind_named, means_cells};
use crate::search::Search;
use fut_syntax::tree::{Expr, Init, Item, Param};

/// The type of an element, where a variable of this type, if there is one, or else an array of cells stands before `[`.
pub fn element(kind: Option<Kind>, is_cells: bool) -> Option<Kind>
    ensures { result ≡ names.element kind is_cells }
{
    match kind {
        Some(Kind::Int | Kind::Handle { .. }) => None,
        Some(Kind::Array { depth, .. }) => Some(plain(depth)),
        None => { if is_cells { Some(Kind::Int) } else { None } }
    }
}

/// The rule that a word before `[` breaks.
fn element_rule(kind: Option<Kind>, is_cells: bool) -> Option<Rule>
    ensures { result ≡ names.element_rule kind is_cells }
{
    match kind {
        Some(Kind::Int | Kind::Handle { .. }) => Some(Rule::ArrayLength),
        Some(Kind::Array { .. }) => None,
        None => {
            if is_cells {
                None
            } else {
                Some(Rule::UnknownName)
            }
        }
    }
}

/// Notes what is wrong with the word before `[` at the next token.
pub fn note_element(search: &mut Search, items: &[Item], variables: &[Variable], word: &[u8])
    requires { search.old.at < search.old.end }
    ensures { Walked search.old search.new 0
        (broken (names.element_rule (names.kind_named variables.now word.now)
        (names.means_cells (declaration (items_tree items.now) word.now))) search.old.at) }
{
    let kind = kind_named(variables, word);
    let is_cells = means_cells(items, word);
    let at = search.at();
    search.note(element_rule(kind, is_cells), at);
}

/// What the next argument has to be, if its need is tested.
fn next_need(parameters: &[Param]) -> Option<Need>
    ensures { result ≡ spec.next_need (params_tree parameters.now) }
{
    match parameters {
        [next, ..] => Some(kind_of(&next.kind).argument_need()),
        [] => None,
    }
}

/// The parameters of the arguments after the next one.
fn later(parameters: &[Param]) -> &[Param]
    ensures { params_tree result.now ≡ spec.later (params_tree parameters.now) }
{
    match parameters {
        [_, later @ ..] => later,
        [] => parameters,
    }
}

/// Goes over arguments, each with a comma or the closing bracket behind it; `parameters` are those whose needs are tested.
#[tactic(auto, using(crate::proofs::Least::least_append))]
fn walk_args(search: &mut Search, variables: &[Variable], parameters: &[Param], args: &[Expr])
    requires { search.old.at + each_width (args_tree args.now) ≤ search.old.end }
    ensures { Walked search.old search.new (each_width (args_tree args.now))
        (spec.args_faults variables.now search.old.at (params_tree parameters.now) (args_tree args.now)) }
{
    let mut left = parameters;
    for arg in args {
        walk_needed(search, variables, next_need(left), arg);
        search.skip(1);
        left = later(left);
    }
}

/// Goes over a called word and its arguments in brackets.
#[tactic(auto, using(crate::proofs::Least::least_append))]
pub fn walk_call(
    search: &mut Search,
    items: &[Item],
    variables: &[Variable],
    word: &[u8],
    args: &[Expr],
)
    requires { search.old.at + call_width (args_tree args.now) ≤ search.old.end }
    ensures { Walked search.old search.new (call_width (args_tree args.now))
        (spec.call_faults (items_tree items.now) variables.now search.old.at word.now (args_tree args.now)) }
{
    let first = search.at();
    let (rule, parameters) = called(items, word, args.len());
    search.note(rule, first);
    search.skip(2);
    if args.is_empty() {
        search.skip(1);
    }
    walk_args(search, variables, parameters, args);
}

/// The rule that a called word breaks with so many arguments, and the parameters whose needs are tested.
fn called<'a>(items: &'a [Item], word: &[u8], count: usize) -> (Option<Rule>, &'a [Param])
    ensures rule { result.0 ≡ spec.call_rule (means_task (declaration (items_tree items.now) word.now)) count }
    ensures parameters { params_tree result.1.now ≡ spec.tested_params (means_task (declaration (items_tree items.now) word.now)) count }
{
    match declaration(items, word) {
        Some(Item::Task(_, parameters, _, _)) => {
            if parameters.len() == count {
                (None, parameters.as_slice())
            } else {
                (Some(Rule::ArgumentCount), &[])
            }
        }
        Some(Item::Cells(_, _)) => (Some(Rule::UnknownName), &[]),
        None => (Some(Rule::UnknownName), &[]),
    }
}

/// The rule that the word of `get` breaks.
fn get_rule(kind: Option<Kind>) -> Option<Rule>
    ensures { result ≡ spec.get_rule kind }
{
    match kind {
        Some(kind) => Need::AnyHandle.rule(kind),
        None => Some(Rule::UnknownName),
    }
}

/// What `get` gives of a variable.
fn got(kind: Option<Kind>) -> Option<Kind>
    ensures { result ≡ spec.got_of kind }
{
    match kind {
        Some(kind) => kind.got(),
        None => None,
    }
}

/// What `create` gives of a task, if the word is one.
fn created(items: &[Item], word: &[u8]) -> Option<Kind>
    ensures { result ≡ spec.created (means_task (declaration (items_tree items.now) word.now)) }
{
    match declaration(items, word) {
        Some(Item::Task(_, _, depth, _)) => Some(Kind::Handle { inside: *depth }),
        Some(Item::Cells(_, _)) => None,
        None => None,
    }
}

/// The type of an init, where it has one.
fn init_kind(items: &[Item], variables: &[Variable], init: &Init) -> Option<Kind>
    ensures { result ≡ spec.init_kind (items_tree items.now) variables.now (init_tree init.now) }
{
    match init {
        Init::Get(word) => got(kind_named(variables, word.as_slice())),
        Init::Create(word, _) => created(items, word.as_slice()),
        Init::Index(word, _) => element(
            kind_named(variables, word.as_slice()),
            means_cells(items, word.as_slice()),
        ),
        Init::Value(value) => expr_kind(variables, value),
    }
}

/// Goes over what a variable is set to.
#[tactic(auto, using(crate::proofs::Least::least_append))]
fn walk_inside(search: &mut Search, items: &[Item], variables: &[Variable], init: &Init)
    requires { search.old.at + init_width (init_tree init.now) ≤ search.old.end }
    ensures { Walked search.old search.new (init_width (init_tree init.now))
        (spec.inner_faults (items_tree items.now) variables.now search.old.at (init_tree init.now)) }
{
    match init {
        Init::Get(word) => {
            search.skip(1);
            let first = search.at();
            search.note(get_rule(kind_named(variables, word.as_slice())), first);
            search.skip(1);
        }
        Init::Create(word, args) => {
            search.skip(1);
            walk_call(search, items, variables, word.as_slice(), args.as_slice());
        }
        Init::Index(word, index) => {
            note_element(search, items, variables, word.as_slice());
            search.skip(2);
            walk_needed(search, variables, Some(Need::Int), index);
            search.skip(1);
        }
        Init::Value(value) => walk_expr(search, variables, value),
    }
}

/// Goes over what a variable is set to, in a place with a need.
#[tactic(auto, using(crate::proofs::Least::least_append, crate::proofs::Some::init_some))]
pub fn walk_init(
    search: &mut Search,
    items: &[Item],
    variables: &[Variable],
    need: Option<Need>,
    init: &Init,
)
    requires { search.old.at + init_width (init_tree init.now) ≤ search.old.end }
    ensures { Walked search.old search.new (init_width (init_tree init.now))
        (spec.init_faults (items_tree items.now) variables.now search.old.at need (init_tree init.now)) }
{
    let first = search.at();
    walk_inside(search, items, variables, init);
    search.note(unmet(need, init_kind(items, variables, init)), first);
}
