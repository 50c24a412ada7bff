//! Which tokens can stand at the fault of a text.
ghost use Rattle.std.specs.Prelude.{◌≡◌, ◌+◌, ◌^◌, ◌<◌, ◌∷◌, [], ◌++◌, List, length, cond, IfOk, OnOk};
ghost use Rattle.fut_tokens.specs.declared.token.Token.{Token};
ghost use Rattle.fut_tokens.specs.Ended.{IsEnded};
ghost use Rattle.fut_explain.specs.Kinds.{all_kinds, kind_token, behind_kind};
ghost use Rattle.fut_explain.specs.Standing.{IsBehind, Tells, TellsAll, AreStanding, IsTried};

use crate::kind::{Kind, kinds};
use fut_base::list::NoMemory;
use fut_syntax::parser::{TokenFault, parse_tokens};
use fut_tokens::token::Token;
use fut_tokens::tokens;
use std::alloc::Global;

/// Adds a token of a kind, and then the end token.
fn push_kind(alloc: Global, out: &mut Vec<Token>, kind: Kind) -> Result<(), NoMemory>
    ensures { OnOk result (out.new.items ≡ out.old.items ++ kind_token kind ∷ behind_kind kind) }
{
    out.push(kind.token(alloc)?)?;
    match kind {
        Kind::End => {}
        _ => out.push(Token::End)?,
    }
    Ok(())
}

/// The first tokens of a text, so many, then one of a kind and the end token.
fn tried(alloc: Global, text: &[u8], at: usize, kind: Kind) -> Result<Option<Vec<Token>>, NoMemory>
    requires { length text.now + 1 < 2 ^ 32 }
    ensures { IfOk result (λ o. IsTried text.now at kind o) }
{
    let mut front = tokens(alloc, text)?.tokens;
    if front.len() <= at {
        return Ok(None);
    }
    front.truncate(at);
    push_kind(alloc, &mut front, kind)?;
    Ok(Some(front))
}

/// How many tokens stand behind one of a kind.
fn behind(kind: Kind) -> usize
    ensures { result ≡ length (behind_kind kind) }
{
    match kind {
        Kind::End => 0,
        _ => 1,
    }
}

/// Whether the token of a kind can come behind those before it, where the tokens are these, and those before it can come.
fn told(alloc: Global, front: Vec<Token>, kind: Kind) -> Result<bool, NoMemory>
    requires { IsEnded front.items }
    ensures { IfOk result (TellsAll front.items kind) }
{
    match parse_tokens(alloc, front) {
        Ok(_) => Ok(true),
        Err(TokenFault::Syntax { left }) => Ok(left < behind(kind)),
        Err(TokenFault::NoMemory) => Err(NoMemory),
    }
}

/// Whether a token of a kind can come behind the first tokens of a text, so many, behind which its fault stands.
fn can_stand(alloc: Global, text: &[u8], at: usize, kind: Kind) -> Result<bool, NoMemory>
    requires { length text.now + 1 < 2 ^ 32 }
    ensures { IfOk result (λ b. (before : List Token) → IsBehind text.now at before → Tells before kind b) }
{
    match tried(alloc, text, at, kind)? {
        Some(front) => told(alloc, front, kind),
        None => Ok(false),
    }
}

/// Adds a kind, if it is one to be added.
fn add_if(found: &mut Vec<Kind>, stands: bool, kind: Kind) -> Result<(), NoMemory>
    ensures { OnOk result (found.new.items ≡ found.old.items ++ cond stands (kind ∷ []) []) }
{
    if stands {
        found.push(kind)?;
    }
    Ok(())
}

/// Those of some kinds of which a token can come behind the first tokens of a text, so many, behind which its fault stands.
fn standing(alloc: Global, text: &[u8], at: usize, all: &[Kind]) -> Result<Vec<Kind>, NoMemory>
    requires { length text.now + 1 < 2 ^ 32 }
    ensures { IfOk result (λ found. (before : List Token) → IsBehind text.now at before → AreStanding before all.now found.items) }
{
    let mut found = Vec::new(alloc);
    for kind in all {
        let stands = can_stand(alloc, text, at, *kind)?;
        add_if(&mut found, stands, *kind)?;
    }
    Ok(found)
}

/// The kinds of which a token can stand where the fault of a text stands, in the order of the grammar.
pub fn expected(alloc: Global, text: &[u8]) -> Result<Vec<Kind>, NoMemory>
    requires { length text.now + 1 < 2 ^ 32 }
    ensures { IfOk result (λ found. (before : List Token) → IsBehind text.now (length before) before → AreStanding before all_kinds found.items) }
{
    let all = tokens(alloc, text)?.tokens;
    let count = all.len();
    match parse_tokens(alloc, all) {
        Ok(_) => Ok(Vec::new(alloc)),
        Err(TokenFault::Syntax { left }) => standing(alloc, text, count - 1 - left, kinds()),
        Err(TokenFault::NoMemory) => Err(NoMemory),
    }
}
