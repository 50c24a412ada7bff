//! Goes over calls and what variables are set to.
ghost use Rattle.std.specs.Prelude.{◌≡◌, ◌+◌, ◌≤◌, ◌<◌, ◌++◌, None, Some, length};
ghost use Rattle.fut_syntax.specs.Views.{expr_tree, args_tree, init_tree, items_tree, params_tree};
ghost use Rattle.fut_rules.specs.Names.{declaration, means_task};
ghost use Rattle.fut_rules.specs.Widths.{each_width, args_width, call_width, init_width};
ghost use Rattle.fut_rules.specs.Inits as kinds;
ghost use Rattle.fut_causes.specs.Causes as spec;
ghost use Rattle.fut_causes.specs.Seeking.{Sought};

use crate::cause::Cause;
use crate::exprs::{seek_expr, seek_needed};
use crate::seek::Seek;
use fut_rules::exprs::expr_kind;
use fut_rules::fault::Rule;
use fut_rules::inits::element;
use fut_rules::kind::{Kind, Need, kind_of};
use fut_rules::names::{Variable, declaration, kind_named, means_cells};
use fut_syntax::tree::{Expr, Init, Item, Param};

/// What the next argument has to be, if its need is tested.
fn next_need(parameters: &[Param]) -> Option<Need>
    ensures { result ≡ kinds.next_need (params_tree parameters.now) }
{
    match parameters {
        [next, ..] => Some(kind_of(&next.kind).argument_need()),
        [] => None,
    }
}

/// The parameters of the arguments after the next one.
fn later(parameters: &[Param]) -> &[Param]
    ensures { params_tree result.now ≡ kinds.later (params_tree parameters.now) }
{
    match parameters {
        [_, later @ ..] => later,
        [] => parameters,
    }
}

/// Goes over arguments, each with a comma or the closing bracket behind it; `parameters` are those whose needs are tested.
#[tactic(auto, using(crate::proofs::Firsts::first_append))]
fn seek_args(seek: &mut Seek<'_>, variables: &[Variable], parameters: &[Param], args: &[Expr])
    requires { seek.old.at + each_width (args_tree args.now) ≤ seek.old.end }
    ensures { Sought seek.old seek.new (each_width (args_tree args.now))
        (spec.args_causes variables.now seek.old.at (params_tree parameters.now) (args_tree args.now)) }
{
    let mut left = parameters;
    for arg in args {
        seek_needed(seek, variables, next_need(left), arg);
        seek.skip(1);
        left = later(left);
    }
}

/// Goes over a called word and its arguments in brackets.
#[tactic(auto, using(crate::proofs::Firsts::first_append))]
pub fn seek_call(
    seek: &mut Seek<'_>,
    items: &[Item],
    variables: &[Variable],
    word: &[u8],
    args: &[Expr],
)
    requires { seek.old.at + call_width (args_tree args.now) ≤ seek.old.end }
    ensures { Sought seek.old seek.new (call_width (args_tree args.now))
        (spec.call_causes (items_tree items.now) variables.now seek.old.at word.now (args_tree args.now)) }
{
    let parameters = seek_called(seek, items, word, args.len());
    seek.skip(2);
    if args.is_empty() {
        seek.skip(1);
    }
    seek_args(seek, variables, parameters, args);
}

/// Meets a called word whose task has another number of parameters, and gives those whose needs are tested of so many arguments.
fn seek_called<'a>(seek: &mut Seek<'_>, items: &'a [Item], word: &[u8], count: usize) -> &'a [Param]
    requires { seek.old.at < seek.old.end }
    ensures met { Sought seek.old seek.new 0 (spec.miscounted (means_task (declaration (items_tree items.now) word.now)) count seek.old.at) }
    ensures parameters { params_tree result.now ≡ kinds.tested_params (means_task (declaration (items_tree items.now) word.now)) count }
{
    match declaration(items, word) {
        Some(Item::Task(_, parameters, _, _)) => {
            if parameters.len() == count {
                return parameters.as_slice();
            }
            let cause = Cause::Counts {
                due: parameters.len(),
                found: count,
            };
            let first = seek.at();
            seek.note(Some(Rule::ArgumentCount), first, cause);
            &[]
        }
        Some(Item::Cells(_, _)) => &[],
        None => &[],
    }
}

/// What `get` gives of a variable.
fn got(kind: Option<Kind>) -> Option<Kind>
    ensures { result ≡ kinds.got_of kind }
{
    match kind {
        Some(kind) => kind.got(),
        None => None,
    }
}

/// What `create` gives of a task, if the word is one.
fn created(items: &[Item], word: &[u8]) -> Option<Kind>
    ensures { result ≡ kinds.created (means_task (declaration (items_tree items.now) word.now)) }
{
    match declaration(items, word) {
        Some(Item::Task(_, _, depth, _)) => Some(Kind::Handle { inside: *depth }),
        Some(Item::Cells(_, _)) => None,
        None => None,
    }
}

/// The type of an init, where it has one.
fn init_kind(items: &[Item], variables: &[Variable], init: &Init) -> Option<Kind>
    ensures { result ≡ kinds.init_kind (items_tree items.now) variables.now (init_tree init.now) }
{
    match init {
        Init::Get(word) => got(kind_named(variables, word.as_slice())),
        Init::Create(word, _) => created(items, word.as_slice()),
        Init::Index(word, _) => element(
            kind_named(variables, word.as_slice()),
            means_cells(items, word.as_slice()),
        ),
        Init::Value(value) => expr_kind(variables, value),
    }
}

/// Goes over what a variable is set to.
#[tactic(auto, using(crate::proofs::Firsts::first_append))]
fn seek_inside(seek: &mut Seek<'_>, items: &[Item], variables: &[Variable], init: &Init)
    requires { seek.old.at + init_width (init_tree init.now) ≤ seek.old.end }
    ensures { Sought seek.old seek.new (init_width (init_tree init.now))
        (spec.inner_causes (items_tree items.now) variables.now seek.old.at (init_tree init.now)) }
{
    match init {
        Init::Get(word) => {
            seek.skip(1);
            let first = seek.at();
            seek.need(
                Some(Need::AnyHandle),
                kind_named(variables, word.as_slice()),
                first,
            );
            seek.skip(1);
        }
        Init::Create(word, args) => {
            seek.skip(1);
            seek_call(seek, items, variables, word.as_slice(), args.as_slice());
        }
        Init::Index(_, index) => {
            seek.skip(2);
            seek_needed(seek, variables, Some(Need::Int), index);
            seek.skip(1);
        }
        Init::Value(value) => seek_expr(seek, variables, value),
    }
}

/// Goes over what a variable is set to, in a place with a need.
#[tactic(auto, using(crate::proofs::Firsts::first_append, fut_rules::proofs::Some::init_some))]
pub fn seek_init(
    seek: &mut Seek<'_>,
    items: &[Item],
    variables: &[Variable],
    need: Option<Need>,
    init: &Init,
)
    requires { seek.old.at + init_width (init_tree init.now) ≤ seek.old.end }
    ensures { Sought seek.old seek.new (init_width (init_tree init.now))
        (spec.init_causes (items_tree items.now) variables.now seek.old.at need (init_tree init.now)) }
{
    let first = seek.at();
    seek_inside(seek, items, variables, init);
    seek.need(need, init_kind(items, variables, init), first);
}
