//! Kinds of tokens at fault places, worked out by hand from the grammar.
use crate::standing::expected;
use fut_base::list::NoMemory;
use std::alloc::Global;
use std::test::Fail;

/// The names of the kinds that can stand at the fault of a text, a space behind each.
fn names(alloc: Global, text: &[u8]) -> Result<String, NoMemory> {
    let mut out = String::new(alloc);
    if text.len() < 1000 {
        for kind in expected(alloc, text)? {
            out.push_str(std::str::from_utf8(kind.name()).unwrap_or("?"))?;
            out.push_str(" ")?;
        }
    }
    Ok(out)
}

#[test]
fn kinds_by_hand(rt: HostRuntime) -> Result<(), Fail> {
    let rows: [(&[u8], &str); 9] = [
        (b"", "cells task "),
        (b"cells a[4];\ncells b[];", "a number "),
        (b"cells a[4]; int", "cells task the end of the text "),
        (b"task f(", "a word ) "),
        (b"task f() fut }", "int fut "),
        (b"task f() int { x + 1; }", "[ = "),
        (
            b"task f() int { sync; } else { }",
            "cells task the end of the text ",
        ),
        (b"task f() int { return - - 1; }", "a word a number ( "),
        (b"task f() int { return 1 + 1 + 1; }", "; "),
    ];
    for (text, want) in rows {
        let got = names(rt.alloc(), text)?;
        assert_eq!(rt; got.as_str(), want);
    }
    Ok(())
}
