//! The variables of a task by name.
ghost use Rattle.std.specs.Prelude.{ℕ, ◌≡◌, ◌+◌, ◌^◌, ◌<◌, ◌≤◌, length, IfOk, OnOk};
ghost use Rattle.fut_syntax.specs.Views.{type_tree, init_tree, stmt_tree, block_tree, tail_tree, params_tree};
ghost use Rattle.task_frame.specs.Names.{find_name};
ghost use Rattle.task_frame.specs.Gathered.{room_of, Has, HasInit, HasStmt, HasBlock, HasTail, HasParams, HasRoomAt};
ghost use Rattle.task_frame.specs.Gathered.{Widens, words_of_init, words_of_stmt, words_of_block, words_of_tail};

use fut_base::list::NoMemory;
use fut_syntax::tree::{Init, Param, Stmt, Tail, VarType};
use sqlite_items::Items;
use std::alloc::Global;

/// A name that a task declares, and for how many values its variable needs room.
#[derive(Drop)]
pub struct Name {
    pub word: Items<u8>,
    pub room: u32,
}

/// The place of the first name that is this word.
fn place_in(names: &[Name], word: &[u8]) -> Option<usize>
    ensures { result ≡ find_name names.now word.now }
{
    let mut place: usize = 0;
    for name in names {
        if name.word.as_slice() == word {
            return Some(place);
        }
        place += 1;
    }
    None
}

#[tactic(auto, using(crate::proofs::Gathering::found_below))]
/// The number of the first variable of this name.
pub fn find(names: &[Name], word: &[u8]) -> Option<u32>
    requires { length names.now < 2 ^ 32 }
    ensures { result ≡ find_name names.now word.now }
{
    match place_in(names, word) {
        Some(place) => Some(place as u32),
        None => None,
    }
}

/// How much room is made for a type.
fn room_for(kind: &VarType) -> u32
    ensures { result ≡ room_of (type_tree kind.now) }
{
    match kind {
        VarType::Plain { .. } => 1,
        VarType::Array { length, .. } => u64::min(*length, 0xffff_ffff) as u32,
    }
}

/// Sees that the variable of a name has so much room.
fn widen(names: &mut Vec<Name>, place: usize, room: u32)
    requires { place < length names.old.items }
    ensures { HasRoomAt names.old.items names.new.items place room }
{
    let old = names[place].room;
    names[place].room = u32::max(old, room);
}

/// Adds a name where it is new, and sees that its variable has so much room.
fn note(alloc: Global, names: &mut Vec<Name>, word: &[u8], room: u32) -> Result<(), NoMemory>
    ensures has { OnOk result (Has names.new.items word.now room) }
    ensures more { OnOk result (Widens names.old.items names.new.items 1) }
{
    match place_in(names.as_slice(), word) {
        Some(place) => widen(names, place, room),
        None => {
            let word = Items::from_slice(alloc, word)?;
            names.push(Name { word, room })?;
        }
    }
    Ok(())
}

/// Adds the names of parameters.
fn note_params(alloc: Global, names: &mut Vec<Name>, params: &[Param]) -> Result<(), NoMemory>
    ensures has { OnOk result (HasParams names.new.items (params_tree params.now)) }
    ensures more { OnOk result (Widens names.old.items names.new.items (length params.now)) }
{
    for param in params {
        note(alloc, names, param.name.as_slice(), room_for(&param.kind))?;
    }
    Ok(())
}

/// The names of a task: of its parameters, and of what its statements declare, set or get.
pub fn names_of(alloc: Global, params: &[Param], body: &[Stmt]) -> Result<Items<Name>, NoMemory>
    ensures params { IfOk result (λ names. HasParams names (params_tree params.now)) }
    ensures body { IfOk result (λ names. HasBlock names (block_tree body.now)) }
    ensures few { IfOk result (λ names. length names ≤ length params.now + words_of_block (block_tree body.now)) }
{
    let mut names = Vec::new(alloc);
    note_params(alloc, &mut names, params)?;
    note_block(alloc, &mut names, body)?;
    Ok(Items::from_vec(names))
}

/// Adds the name of the future that an init gets.
fn note_init(alloc: Global, names: &mut Vec<Name>, init: &Init) -> Result<(), NoMemory>
    ensures has { OnOk result (HasInit names.new.items (init_tree init.now)) }
    ensures more { OnOk result (Widens names.old.items names.new.items (words_of_init (init_tree init.now))) }
{
    match init {
        Init::Get(word) => note(alloc, names, word.as_slice(), 1),
        Init::Create(_, _) | Init::Index(_, _) | Init::Value(_) => Ok(()),
    }
}

/// Adds the name of a variable that gets what an init gives, and that of the init.
fn note_both(
    alloc: Global,
    names: &mut Vec<Name>,
    word: &[u8],
    room: u32,
    init: &Init,
) -> Result<(), NoMemory>
    ensures has { OnOk result (Has names.new.items word.now room) }
    ensures init { OnOk result (HasInit names.new.items (init_tree init.now)) }
    ensures more { OnOk result (Widens names.old.items names.new.items (1 + words_of_init (init_tree init.now))) }
{
    note(alloc, names, word, room)?;
    note_init(alloc, names, init)
}

/// Adds the names that a statement declares, sets or gets.
#[cycle(names)]
fn note_stmt(alloc: Global, names: &mut Vec<Name>, stmt: &Stmt) -> Result<(), NoMemory>
    ensures has { OnOk result (HasStmt names.new.items (stmt_tree stmt.now)) }
    ensures more { OnOk result (Widens names.old.items names.new.items (words_of_stmt (stmt_tree stmt.now))) }
{
    match stmt {
        Stmt::Declare(word, kind) => note(alloc, names, word.as_slice(), room_for(kind)),
        Stmt::Define(word, kind, init) => note_both(
            alloc,
            names,
            word.as_slice(),
            room_for(kind),
            init,
        ),
        Stmt::Assign(word, init) => note_both(alloc, names, word.as_slice(), 1, init),
        Stmt::If(_, body, tail) => {
            note_block(alloc, names, body.as_slice())?;
            note_tail(alloc, names, tail)
        }
        Stmt::While(_, body) => note_block(alloc, names, body.as_slice()),
        Stmt::Store(_, _, _) | Stmt::Spawn(_, _) | Stmt::Sync | Stmt::Return(_) => Ok(()),
    }
}

#[cycle(names)]
fn note_tail(alloc: Global, names: &mut Vec<Name>, tail: &Tail) -> Result<(), NoMemory>
    ensures has { OnOk result (HasTail names.new.items (tail_tree tail.now)) }
    ensures more { OnOk result (Widens names.old.items names.new.items (words_of_tail (tail_tree tail.now))) }
{
    match tail {
        Tail::None => Ok(()),
        Tail::Else(body) => note_block(alloc, names, body.as_slice()),
    }
}

#[cycle(names)]
fn note_block(alloc: Global, names: &mut Vec<Name>, body: &[Stmt]) -> Result<(), NoMemory>
    ensures has { OnOk result (HasBlock names.new.items (block_tree body.now)) }
    ensures more { OnOk result (Widens names.old.items names.new.items (words_of_block (block_tree body.now))) }
{
    for stmt in body {
        note_stmt(alloc, names, stmt)?;
    }
    Ok(())
}
