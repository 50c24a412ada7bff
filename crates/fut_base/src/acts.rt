//! Whether two acts are the same, and copies of them.
ghost use Rattle.std.specs.Prelude.{◌≡◌, ◌↔◌, IfOk, IsTrue};
ghost use Rattle.fut_base.specs.Events.{action_of, event_of};

use crate::list::NoMemory;
use crate::record::{Act, Args, Entry};
use std::alloc::Global;

fn same_args(a: &Args, b: &Args) -> bool
    ensures { IsTrue result ↔ (a.now.items ≡ b.now.items) }
{
    a.as_slice() == b.as_slice()
}

/// Whether two acts are equal, argument lists item by item.
pub fn same_act(a: &Act, b: &Act) -> bool
    ensures { IsTrue result ↔ (action_of a.now ≡ action_of b.now) }
{
    match (a, b) {
        (Act::Read { cell: c, value: v }, Act::Read { cell, value }) => c == cell && v == value,
        (Act::Write { cell: c, value: v }, Act::Write { cell, value }) => c == cell && v == value,
        (
            Act::Spawn {
                code: w,
                child: t,
                kid: k,
                cont: n,
                args: x,
            },
            Act::Spawn {
                code,
                child,
                kid,
                cont,
                args,
            },
        ) => w == code && t == child && k == kid && n == cont && same_args(x, args),
        (
            Act::Create {
                code: w,
                child: t,
                kid: k,
                cont: n,
                args: x,
            },
            Act::Create {
                code,
                child,
                kid,
                cont,
                args,
            },
        ) => w == code && t == child && k == kid && n == cont && same_args(x, args),
        (Act::Sync { strand: s }, Act::Sync { strand }) => s == strand,
        (
            Act::Get {
                future: f,
                value: v,
                strand: s,
            },
            Act::Get {
                future,
                value,
                strand,
            },
        ) => f == future && v == value && s == strand,
        (Act::End { value: v }, Act::End { value }) => v == value,
        _ => false,
    }
}

/// The entry of a task on a strand with an equal act.
pub fn copy_of(alloc: Global, task: u32, strand: u32, act: &Act) -> Result<Entry, NoMemory>
    ensures { IfOk result (λ e. event_of e ≡ record { task = task; strand = strand; action = action_of act.now }) }
{
    let act = match act {
        Act::Read { cell, value } => Act::Read {
            cell: *cell,
            value: *value,
        },
        Act::Write { cell, value } => Act::Write {
            cell: *cell,
            value: *value,
        },
        Act::Spawn {
            code,
            child,
            kid,
            cont,
            args,
        } => Act::Spawn {
            code: *code,
            child: *child,
            kid: *kid,
            cont: *cont,
            args: args.copy(alloc)?,
        },
        Act::Create {
            code,
            child,
            kid,
            cont,
            args,
        } => Act::Create {
            code: *code,
            child: *child,
            kid: *kid,
            cont: *cont,
            args: args.copy(alloc)?,
        },
        Act::Sync { strand } => Act::Sync { strand: *strand },
        Act::Get {
            future,
            value,
            strand,
        } => Act::Get {
            future: *future,
            value: *value,
            strand: *strand,
        },
        Act::End { value } => Act::End { value: *value },
    };
    Ok(Entry { task, strand, act })
}
