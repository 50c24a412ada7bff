//! The options of a run.
ghost use Rattle.std.specs.Prelude.{◌≡◌, ◌↔◌, ℕ, Bool, List, [], ◌∷◌, ◌++◌, map, IsTrue, MatchOption, Option, codes, decimal, string_bytes};
ghost use Rattle.command_words.specs.Asking.{IsFromOneTo, IsInRange, is_option_of, MayStand, spelling, unnamed_workers, AreOptions};
ghost use Rattle.command_words.specs.Seen.{IsSeen, IsAgain};

use fut_base::limits::{MOST_ENTRIES, MOST_WORKERS};
use itoa::Buffer;

/// The greatest number of entries of a run whose words name none.
const UNNAMED_EVENTS: u32 = 100_000;

/// The number of workers of a run whose words name none.
const UNNAMED_WORKERS: u32 = 4;

/// How long a side of the grid of `load` may be.
pub const MOST_SIDE: u32 = 64;

/// The commands that make runs, each with its own options.
#[derive(Clone, Copy)]
pub enum Kind {
    /// `serial`: `--events`, `--brief`.
    Serial,
    /// `run`: the same, and `--workers`.
    Run,
    /// `load`: `--events`, `--workers`, and the side of the grid.
    Load,
}

/// An option as it was chosen.
#[derive(Clone, Copy)]
pub enum Choice {
    /// `--events` and a number: the run has at most so many entries.
    Events(u32),
    /// `--brief`: the brief text is due.
    Brief,
    /// `--workers` and a number.
    Workers(u32),
    /// A number alone: the side of the grid.
    Side(u32),
}

/// What some options say together.
#[derive(Clone, Copy)]
pub struct Seen {
    /// The greatest number of entries.
    pub bound: u32,
    /// Whether the bound was among them.
    pub events: bool,
    /// Whether the brief text is due.
    pub brief: bool,
    /// Whether the workers were among them.
    pub workers: bool,
    /// The number of workers.
    pub crew: u32,
    /// The side of the grid, where it was among them.
    pub side: Option<u32>,
}

impl Seen {
    /// What no options say, where so many workers make a run whose options name none.
    fn nothing(crew: u32) -> Seen
        ensures { IsSeen crew [] result }
    {
        Seen {
            bound: UNNAMED_EVENTS,
            events: false,
            brief: false,
            workers: false,
            crew,
            side: None,
        }
    }

    /// The same with one option more, where none of its kind was there.
    fn with(self, choice: Choice) -> Option<Seen>
        ensures { (unnamed : ℕ) (cs : List Choice) → IsSeen unnamed cs self
            → MatchOption result (IsAgain cs choice) (λ seen. IsSeen unnamed (cs ++ choice ∷ []) seen) }
    {
        match choice {
            Choice::Events(bound) => {
                if self.events {
                    return None;
                }
                Some(Seen {
                    bound,
                    events: true,
                    ..self
                })
            }
            Choice::Brief => {
                if self.brief {
                    return None;
                }
                Some(Seen {
                    brief: true,
                    ..self
                })
            }
            Choice::Workers(crew) => {
                if self.workers {
                    return None;
                }
                Some(Seen {
                    crew,
                    workers: true,
                    ..self
                })
            }
            Choice::Side(side) => {
                if self.side.is_some() {
                    return None;
                }
                Some(Seen {
                    side: Some(side),
                    ..self
                })
            }
        }
    }
}

/// What the words say, if they are options of such a command: each at most once, in any order.
pub fn options(words: &[String], kind: Kind) -> Option<Seen>
    ensures { MatchOption result
        ((events : ℕ) (brief : Bool) (crew : ℕ) (side : Option ℕ) → AreOptions kind (map string_bytes words.now) events brief crew side → ⊥)
        (λ seen. AreOptions kind (map string_bytes words.now) seen.bound seen.brief seen.crew seen.side) }
{
    let mut seen = Seen::nothing(unnamed(kind));
    let mut rest = words;
    while !rest.is_empty() {
        let (choice, more) = first_option(rest, kind)?;
        seen = seen.with(choice)?;
        rest = more;
    }
    Some(seen)
}

/// How many workers a run has whose words name none.
fn unnamed(kind: Kind) -> u32
    ensures { result ≡ unnamed_workers kind }
{
    match kind {
        Kind::Serial => 1,
        Kind::Run | Kind::Load => UNNAMED_WORKERS,
    }
}

/// Whether such a command has this option.
fn is_option(kind: Kind, choice: Choice) -> bool
    ensures { result ≡ is_option_of kind choice }
{
    match choice {
        Choice::Events(_) => true,
        Choice::Brief => match kind {
            Kind::Serial | Kind::Run => true,
            Kind::Load => false,
        },
        Choice::Workers(_) => match kind {
            Kind::Run | Kind::Load => true,
            Kind::Serial => false,
        },
        Choice::Side(_) => match kind {
            Kind::Load => true,
            Kind::Serial | Kind::Run => false,
        },
    }
}

/// The option of such a command that the words begin with, and the words behind it.
fn first_option(words: &[String], kind: Kind) -> Option<(Choice, &[String])>
    ensures { MatchOption result
        ((c : Choice) (more : List (List ℕ)) → MayStand kind c → map string_bytes words.now ≡ spelling c ++ more → ⊥)
        (λ p. MayStand kind p.0 × (map string_bytes words.now ≡ spelling p.0 ++ map string_bytes p.1.now)) }
{
    let (choice, more) = first_choice(words)?;
    if is_option(kind, choice) {
        Some((choice, more))
    } else {
        None
    }
}

/// The option of some command that the words begin with, its number in range, and the words behind it.
fn first_choice(words: &[String]) -> Option<(Choice, &[String])>
    ensures { MatchOption result
        ((c : Choice) (more : List (List ℕ)) → IsInRange c → map string_bytes words.now ≡ spelling c ++ more → ⊥)
        (λ p. IsInRange p.0 × (map string_bytes words.now ≡ spelling p.0 ++ map string_bytes p.1.now)) }
{
    if let Some(more) = behind(words, "--brief") {
        return Some((Choice::Brief, more));
    }
    if let Some(rest) = behind(words, "--events") {
        let (events, more) = first_number(rest, MOST_ENTRIES)?;
        return Some((Choice::Events(events), more));
    }
    if let Some(rest) = behind(words, "--workers") {
        let (crew, more) = first_number(rest, MOST_WORKERS)?;
        return Some((Choice::Workers(crew), more));
    }
    let (side, more) = first_number(words, MOST_SIDE)?;
    Some((Choice::Side(side), more))
}

/// The number from one to this one that the words begin with, and the words behind it.
fn first_number(words: &[String], most: u32) -> Option<(u32, &[String])>
    ensures { MatchOption result
        ((n : ℕ) (more : List (List ℕ)) → IsFromOneTo most n → map string_bytes words.now ≡ decimal n ∷ more → ⊥)
        (λ p. IsFromOneTo most p.0 × (map string_bytes words.now ≡ decimal p.0 ∷ map string_bytes p.1.now)) }
{
    let [number, more @ ..] = words else {
        return None;
    };
    let n = number_of(number, most)?;
    Some((n, more))
}

/// A number from one to this one, in decimal digits without leading zeros.
fn number_of(word: &String, most: u32) -> Option<u32>
    ensures { MatchOption result
        ((n : ℕ) → IsFromOneTo most n → string_bytes word.now ≡ decimal n → ⊥)
        (λ n. IsFromOneTo most n × (string_bytes word.now ≡ decimal n)) }
{
    let Ok(n) = word.as_str().parse::<u32>() else {
        return None;
    };
    if n == 0 || n > most {
        return None;
    }
    let mut digits = Buffer::new();
    if digits.format(n) == word.as_str() {
        Some(n)
    } else {
        None
    }
}

/// The words behind the first one, where that is this text.
pub fn behind<'a>(words: &'a [String], text: &str) -> Option<&'a [String]>
    ensures { MatchOption result
        ((more : List (List ℕ)) → map string_bytes words.now ≡ text.now ∷ more → ⊥)
        (λ more. map string_bytes words.now ≡ text.now ∷ map string_bytes more.now) }
{
    match words {
        [first, more @ ..] if is_text(first, text) => Some(more),
        _ => None,
    }
}

fn is_text(word: &String, text: &str) -> bool
    ensures { IsTrue result ↔ (string_bytes word.now ≡ text.now) }
{
    word.as_str() == text
}
