//! Tests: the code of short texts.
ghost use Rattle.std.specs.Prelude.{◌+◌, ◌<◌, ◌^◌, length};

use crate::code::Code;
use fut_base::list::NoMemory;
use fut_check::check;
use fut_syntax::parse;
use std::alloc::Global;
use std::process::Abort;
use std::test::Fail;

/// The code of a well-typed text; of another one it is want of memory.
fn code_of(alloc: Global, text: &[u8]) -> Result<Code, NoMemory>
    requires { length text.now + 1 < 2 ^ 32 }
{
    match parse(alloc, text) {
        Ok(program) => match check(alloc, &program) {
            Ok(checked) => Code::of(alloc, &checked),
            Err(_) => Err(NoMemory),
        },
        Err(_) => Err(NoMemory),
    }
}

/// The place of `main`, the number of cells, how many instructions the first task has, and how many variables.
fn row(rt: &impl Abort, alloc: Global, text: &str) -> Result<(u32, u32, usize, usize), NoMemory> {
    let bytes = text.as_bytes();
    assert!(rt; bytes.len() < 8192);
    let code = code_of(alloc, bytes)?;
    match code.task(0) {
        Some(task) => Ok((
            code.main(),
            code.cells(),
            task.instructions.len(),
            task.names.len(),
        )),
        None => Ok((code.main(), code.cells(), 0, 0)),
    }
}

// Each text is compiled: counts by hand. A body has one instruction a statement, and one more where it ends.
#[test]
fn texts_become_code(rt: HostRuntime) -> Result<(), Fail> {
    let alloc = rt.alloc();
    assert_eq!(rt;
        row(&rt, alloc, "task main() int { return 0; }")?,
        (0, 0, 2, 0)
    );
    assert_eq!(rt;
        row(
            &rt,
            alloc,
            "cells a[3]; cells b[2]; task f(x: int, r: fut int[2]) int { var y: int = x; if y { y = 1; } else { a[y] = 2; } while y { y = y - 1; b[-1] = y; } return y; } task main() int { return 0; }"
        )?,
        (1, 5, 9, 3)
    );
    Ok(())
}
