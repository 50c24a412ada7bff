//! Canonical texts and fault places, worked out by hand.
ghost use Rattle.std.specs.Prelude.{◌+◌, ◌^◌, ◌<◌, length};

use crate::printing::print;
use fut_base::list::NoMemory;
use fut_syntax::{ParseFault, parse};
use std::alloc::{AllocError, Global};
use std::test::Fail;

/// The canonical text of a text, or the place of its fault.
fn shown(alloc: Global, text: &[u8]) -> Result<String, NoMemory>
    requires { length text.now + 1 < 2 ^ 32 }
{
    match parse(alloc, text) {
        Ok(program) => {
            let printed = print(alloc, &program)?;
            let words = std::str::from_utf8(printed.as_slice()).unwrap_or("no text");
            Ok(format!(in alloc; "{words}")?)
        }
        Err(ParseFault::Syntax { line, column }) => Ok(format!(in alloc; "{line}:{column}")?),
        Err(ParseFault::NoMemory) => Err(NoMemory),
    }
}

fn push_times(out: &mut String, piece: &str, times: usize) -> Result<(), AllocError> {
    for _ in 0..times {
        out.push_str(piece)?;
    }
    Ok(())
}

/// A task with so many loops in one another, a line each, and within them a number in so many brackets.
fn nested(alloc: Global, loops: usize, brackets: usize) -> Result<String, AllocError> {
    let mut out = format!(in alloc; "task f() int {{\n")?;
    push_times(&mut out, "while 1 {\n", loops)?;
    out.push_str("return ")?;
    push_times(&mut out, "(", brackets)?;
    out.push_str("1")?;
    push_times(&mut out, ")", brackets)?;
    out.push_str("; }")?;
    push_times(&mut out, " }", loops)?;
    Ok(out)
}

#[test]
fn texts_by_hand(rt: HostRuntime) -> Result<(), Fail> {
    let rows: [(&[u8], &str); 11] = [
        (
            b"task main() int { return 0; }",
            "task main ( ) int { return 0 ; }\n",
        ),
        (
            b"cells a[10];// ten\r\ntask f(p:fut fut int,q:int[3])fut int{\n\tvar h:fut int=create f(-1,(p));spawn f();sync;var x:int;\n\tif x==q{x=!x;}else{a[-x]=x%2;}\n\tif 1{}while x!=0{x=get h;x=q[1];}return h;}//",
            "cells a [ 10 ] ;\ntask f ( p : fut fut int , q : int [ 3 ] ) fut int { var h : fut int = create f ( - 1 , ( p ) ) ; spawn f ( ) ; sync ; var x : int ; if x == q { x = ! x ; } else { a [ - x ] = x % 2 ; } if 1 { } while x != 0 { x = get h ; x = q [ 1 ] ; } return h ; }\n",
        ),
        (b"", "1:1"),
        (b" ", "1:2"),
        (b"// no item", "1:11"),
        (b"cells a[4];\ncells b[];", "2:9"),
        (b"task f() int { return 1 + 1 + 1; }", "1:29"),
        (b"task f() int {\n  x = a[0] + 1; }", "2:12"),
        (b"task f() int { return - - 1; }", "1:25"),
        (b"task f() int { sync; } else { }", "1:24"),
        (b"task f() int { sync;", "1:21"),
    ];
    for (text, want) in rows {
        assert!(rt; text.len() < 1000);
        let got = shown(rt.alloc(), text)?;
        assert_eq!(rt; got.as_str(), want);
    }
    Ok(())
}

#[test]
fn brackets_by_hand(rt: HostRuntime) -> Result<(), Fail> {
    // the task's own bracket is one more
    let rows = [
        (0, 62, None),
        (0, 63, None),
        (0, 64, Some("2:71")),
        (62, 0, None),
        (63, 0, None),
        (64, 0, Some("65:9")),
        (31, 31, None),
        (31, 32, None),
        (31, 33, Some("33:40")),
    ];
    for (loops, brackets, fault) in rows {
        let text = nested(rt.alloc(), loops, brackets)?;
        assert!(rt; text.len() < 1000);
        let got = shown(rt.alloc(), text.as_bytes())?;
        match fault {
            Some(place) => assert_eq!(rt; got.as_str(), place),
            None => assert!(rt; got.as_str().starts_with("task f ( ) int {")),
        }
    }
    Ok(())
}
