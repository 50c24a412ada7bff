//! Answers for short texts, worked out by hand from the rules.
ghost use Rattle.std.specs.Prelude.{◌+◌, ◌<◌, ◌^◌, length};

use crate::program::{CheckFault, check};
use fut_base::list::NoMemory;
use fut_syntax::{ParseFault, parse};
use std::alloc::Global;
use std::test::Fail;

/// What a text is answered.
#[derive(Clone, Copy, Debug, PartialEq, Eq)]
enum Answer {
    Accepted,
    Type { rule: u32, line: u32, column: u32 },
    Syntax,
    NoMemory,
}

fn answer_for(alloc: Global, text: &[u8]) -> Answer
    requires { length text.now + 1 < 2 ^ 32 }
{
    match parse(alloc, text) {
        Ok(program) => match check(alloc, &program) {
            Ok(_) => Answer::Accepted,
            Err(CheckFault::IllTyped { rule, line, column }) => Answer::Type { rule, line, column },
            Err(CheckFault::NoMemory) => Answer::NoMemory,
        },
        Err(ParseFault::Syntax { .. }) => Answer::Syntax,
        Err(ParseFault::NoMemory) => Answer::NoMemory,
    }
}

/// The answer for a text of at most 8,192 bytes.
fn short_answer(alloc: Global, text: &str) -> Answer {
    let bytes = text.as_bytes();
    if bytes.len() > 8192 {
        return Answer::Syntax;
    }
    answer_for(alloc, bytes)
}

/// An answer as it is written.
fn shown(alloc: Global, answer: Answer) -> Result<String, NoMemory> {
    let text = match answer {
        Answer::Accepted => "ok".to_string(alloc)?,
        Answer::Type { rule, line, column } => format!(in alloc; "type {rule} {line}:{column}")?,
        Answer::Syntax => "syntax".to_string(alloc)?,
        Answer::NoMemory => "no memory".to_string(alloc)?,
    };
    Ok(text)
}

/// Rows of a text and its answer: what is accepted, and then the rules in their order.
const ROWS: &str = "\
ok | task main() int { return 0; }
ok | task main() int { }
ok | task g() int { return 1; } task f(x: int, h: fut int, r: fut int[2]) fut int { var y: int = get h; h = r[0]; r[y] = h; return h; } task main() int { var h: fut int = create g(); var r: fut int[2] = h; var k: fut fut int = create f(1, h, r); h = get k; spawn f(-2, h, r); sync; return (1 + 2); }
ok | task f(x: int) int { return x; } task main() int { var x: int; return !x; }
ok | task main() int { if 1 { var x: int; x = 2; } else { var y: int; } while 0 { sync; } return 0; }
ok | task main() int { a[0] = 1; spawn f(); var x: int = a[7]; return x; } cells a[1]; task f() int { return 0; }
ok | task f(h: fut fut fut fut fut fut fut fut int) int { return 0; } task main() int { return 0; }
ok | task g() int { return 0; } task main() int { var h: fut int = create g(); var r: fut int[64] = h; var s: fut int[15] = h; return 0; }
ok | task f(a: int, b: int, c: int, d: int, e: int, g: int, h: int, i: int) int { return 0; } task main() int { return 0; }
ok | task f(a: fut int[15], b: int) int { return 0; } task main() int { return 0; }
ok | cells a[65535]; cells b[1]; task main() int { return 0; }
ok | task f(h: fut int) fut int { if 1 { } return h; } task main() int { return 0; }

type 1 1:19 | task main() int { x = 1; return 0; }
type 1 1:26 | task main() int { return x; }
type 1 1:32 | task main() int { var x: int = x; return 0; }
type 1 1:40 | task main() int { if 1 { var x: int; } x = 1; return 0; }
type 1 1:36 | task main() int { var x: int = get h; return 0; }
type 1 1:19 | task main() int { a[0] = 1; return 0; }
type 1 1:32 | task main() int { var x: int = a[0]; return x; }
type 1 1:25 | task main() int { spawn f(); return 0; }
type 1 1:43 | task main() int { var h: fut int = create f(); return 0; }
type 1 1:38 | cells a[1]; task main() int { return a; }
type 1 1:31 | cells a[1]; task main() int { a = 1; return 0; }
type 1 1:53 | task f() int { return 0; } task main() int { return f; }
type 1 1:46 | task f() int { return 0; } task main() int { f[0] = 1; return 0; }
type 1 1:37 | task main() int { var x: int; spawn x(); return 0; }
type 1 1:59 | task f(p: int) int { return 0; } task main() int { return p; }
type 1 1:37 | cells a[1]; task main() int { spawn a(); return 0; } task a() int { return 0; }
type 1 1:27 | task main() int { return (zz); }
type 1 1:30 | task main() int { return 1 + zz; }
type 1 1:19 | task main() int { x = y; return z; }

type 2 1:19 | cells a[1]; cells a[2]; task main() int { return 0; }
type 2 1:33 | task f() int { return 0; } task f() int { return 0; } task main() int { return 0; }
type 2 1:21 | cells main[1]; task main() int { return 0; }
type 2 1:16 | task f(p: int, p: int) int { return 0; } task main() int { return 0; }
type 2 1:35 | task main() int { var x: int; var x: int; return 0; }
type 2 1:35 | task main() int { var x: int; var x: fut int; return 0; }
type 2 1:26 | task f(p: int) int { var p: int; return 0; } task main() int { return 0; }
type 2 1:23 | task main() int { var a: int; return 0; } cells a[1];
type 2 1:8 | task f(main: int) int { return 0; } task main() int { return 0; }
type 2 1:8 | task f(f: int) int { return 0; } task main() int { return 0; }
type 2 1:44 | task main() int { if 1 { var x: int; } var x: int; return 0; }

type 3 1:52 | task f() int { return 0; } task main() int { spawn f(1); return 0; }
type 3 1:58 | task f(p: int) int { return 0; } task main() int { spawn f(); return 0; }
type 3 1:70 | task f(p: int, h: fut int) int { return 0; } task main() int { spawn f(1); return 0; }
type 3 1:80 | task f(h: fut int) int { return 0; } task main() int { var g: fut int = create f(1, 2); return 0; }

type 4 1:48 | task main() int { var x: int; var y: int = get x; return y; }
type 4 1:36 | task main() int { var h: fut int = 1; return 0; }
type 4 1:30 | task f(h: fut int) int { h = 1; return 0; } task main() int { return 0; }
type 4 1:39 | task main() int { var r: fut int[2] = 0; return 0; }
type 4 1:36 | task f(r: fut int[2]) int { r[0] = 5; return 0; } task main() int { return 0; }
type 4 1:67 | task f(r: fut int[2]) int { return 0; } task main() int { spawn f(1); return 0; }
type 4 1:64 | task f(h: fut int) int { return 0; } task main() int { spawn f(1 + 1); return 0; }
type 4 1:11 | task f(r: int[3]) int { return 0; } task main() int { return 0; }
type 4 1:27 | task main() int { spawn f(1); return 0; } task f(p: int[3]) int { return 0; }
type 4 1:30 | task f(h: fut int) int { h = 1 + zz; return 0; } task main() int { return 0; }
type 4 1:30 | task f(h: fut int) int { h = h + 1; return 0; } task main() int { return 0; }

type 5 1:37 | task f(h: fut int) int { return 1 + h; } task main() int { return 0; }
type 5 1:37 | task f(h: fut int) int { return 1 + (h); } task main() int { return 0; }
type 5 1:34 | task f(h: fut int) int { return -h; } task main() int { return 0; }
type 5 1:29 | task f(h: fut int) int { if h { } return 0; } task main() int { return 0; }
type 5 1:32 | task f(h: fut int) int { while h { } return 0; } task main() int { return 0; }
type 5 1:40 | cells a[1]; task f(h: fut int) int { a[h] = 1; return 0; } task main() int { return 0; }
type 5 1:45 | cells a[1]; task f(h: fut int) int { a[0] = h; return 0; } task main() int { return 0; }
type 5 1:53 | cells a[1]; task f(h: fut int) int { var x: int = a[h]; return 0; } task main() int { return 0; }
type 5 1:39 | task f(h: fut int) int { var x: int = h; return 0; } task main() int { return 0; }
type 5 1:67 | task f(x: int) int { return 0; } task g(h: fut int) int { spawn f(h); return 0; } task main() int { return 0; }
type 5 1:59 | task f() int { return 0; } task main() int { var x: int = create f(); return 0; }
type 5 1:59 | task f() int { return 0; } task main() int { var x: int = create f(1); return 0; }
type 5 1:43 | task f(h: fut fut int) int { var x: int = get h; return x; } task main() int { return 0; }
type 5 1:41 | task f(r: fut int[2], x: int) int { x = r[0]; return x; } task main() int { return 0; }

type 6 1:46 | task f(h: fut int, k: fut fut int) int { h = k; return 0; } task main() int { return 0; }
type 6 1:84 | task f(h: fut int) fut int { return h; } task g(h: fut int) int { var k: fut int = create f(h); return 0; } task main() int { return 0; }
type 6 1:81 | task f(r: fut int[2]) int { return 0; } task g(s: fut fut int[2]) int { spawn f(s); return 0; } task main() int { return 0; }
type 6 1:81 | task f(r: fut int[2]) int { return 0; } task g(s: fut fut int[3]) int { spawn f(s); return 0; } task main() int { return 0; }
type 6 1:75 | task f(h: fut int) int { return 0; } task g(k: fut fut int) int { spawn f(k); return 0; } task main() int { return 0; }
type 6 1:52 | task f(r: fut int[2], k: fut fut int) int { r[0] = k; return 0; } task main() int { return 0; }
type 6 1:49 | task f(r: fut fut int[2], h: fut int) int { h = r[0]; return 0; } task main() int { return 0; }
type 6 1:43 | task f(h: fut fut fut fut fut fut fut fut fut int) int { return 0; } task main() int { return 0; }
type 6 1:42 | task f() fut fut fut fut fut fut fut fut fut int { return 0; } task main() int { return 0; }
type 6 1:58 | task main() int { var h: fut fut fut fut fut fut fut fut fut int = 1; return 0; }

type 7 1:19 | task f(r: fut int[0]) int { return 0; } task main() int { return 0; }
type 7 1:41 | task f(h: fut int) int { var r: fut int[65] = h; return 0; } task main() int { return 0; }
type 7 1:22 | task f(x: int) int { x[0] = 1; return 0; } task main() int { return 0; }
type 7 1:35 | task f(x: int) int { var y: int = x[0]; return 0; } task main() int { return 0; }
type 7 1:26 | task f(h: fut int) int { h[0] = h; return 0; } task main() int { return 0; }
type 7 1:41 | task f(r: fut int[2], h: fut int) int { r = h; return 0; } task main() int { return 0; }
type 7 1:40 | task f(r: fut int[2]) int { return 1 + r; } task main() int { return 0; }
type 7 1:32 | task f(r: fut int[2]) int { if r { } return 0; } task main() int { return 0; }
type 7 1:45 | task f(r: fut int[2], h: fut int) int { h = r; return 0; } task main() int { return 0; }
type 7 1:46 | task f(r: fut int[2]) int { var x: int = get r; return 0; } task main() int { return 0; }
type 7 1:74 | task f(r: fut int[2]) int { return 0; } task g(h: fut int) int { spawn f(h); return 0; } task main() int { return 0; }
type 7 1:77 | task f(r: fut int[2]) int { return 0; } task g(s: fut int[3]) int { spawn f(s); return 0; } task main() int { return 0; }
type 7 1:74 | task f(h: fut int) int { return 0; } task g(r: fut int[2]) int { spawn f(r); return 0; } task main() int { return 0; }

type 8 1:27 | task f() fut int { return 0; } task main() int { return 0; }
type 8 1:33 | task f(h: fut int) int { return h; } task main() int { return 0; }
type 8 1:41 | task f(k: fut fut int) fut int { return k; } task main() int { return 0; }
type 8 1:40 | task f(r: fut int[2]) fut int { return r; } task main() int { return 0; }
type 8 1:37 | task f(h: fut int) fut int { h = h; } task main() int { return 0; }
type 8 1:30 | task f(h: fut int) fut int { } task main() int { return 0; }
type 8 1:49 | task f(h: fut int) fut int { if 1 { return h; } } task main() int { return 0; }

type 9 1:27 | task f() int { return 0; }
type 9 1:12 | cells a[1];
type 9 1:15 | cells main[1];

type 10 1:11 | task main(x: int) int { return 0; }
type 10 1:11 | task main(h: fut int, y: int) int { return 0; }
type 10 1:11 | task main(r: fut int[17]) int { return 0; }
type 2 1:11 | task main(main: int) int { return 0; }

type 11 1:23 | task main() int { var h: fut int; return 0; }
type 11 1:23 | task main() int { var k: fut fut int; return 0; }
type 11 1:23 | task main() int { var r: fut int[2]; return 0; }
type 11 1:23 | task main() int { var x: int[3]; return 0; }

type 12 1:9 | cells a[0]; task main() int { return 0; }
type 12 1:9 | cells a[65537]; task main() int { return 0; }
type 12 1:25 | cells a[65536]; cells b[1]; task main() int { return 0; }
type 12 1:9 | cells a[9223372036854775807]; cells b[9223372036854775807]; cells c[3]; task main() int { return 0; }
type 12 1:72 | task f(a: int, b: int, c: int, d: int, e: int, g: int, h: int, i: int, j: int) int { return 0; } task main() int { return 0; }
type 12 1:24 | task f(a: fut int[16], b: int) int { return 0; } task main() int { return 0; }
type 12 1:8 | task f(r: fut int[65]) int { return 0; } task main() int { return 0; }
type 12 1:103 | task g() int { return 0; } task main() int { var h: fut int = create g(); var r: fut int[64] = h; var s: fut int[16] = h; return 0; }
type 12 1:119 | task g() int { return 0; } task main() int { var h: fut int = create g(); if 1 { var r: fut int[64] = h; } if 1 { var s: fut int[16] = h; } return 0; }
";

#[test]
fn each_rule_has_its_place(rt: HostRuntime) -> Result<(), Fail> {
    assert_eq!(rt; ROWS.lines().count(), 133);
    for row in ROWS.lines() {
        match row.split_once(" | ") {
            Some((want, text)) => {
                let got = shown(rt.alloc(), short_answer(rt.alloc(), text))?;
                assert_eq!(rt; got.as_str(), want, "at {text}");
            }
            None => assert_eq!(rt; row, ""),
        }
    }
    Ok(())
}

#[test]
fn a_fault_on_a_later_line(rt: HostRuntime) -> Result<(), Fail> {
    let got = shown(
        rt.alloc(),
        short_answer(rt.alloc(), "task main() int {\n  x = 1;\n}\n"),
    )?;
    assert_eq!(rt; got.as_str(), "type 1 2:3");
    let got = shown(
        rt.alloc(),
        short_answer(rt.alloc(), "task f() int { return 0; } // end\n"),
    )?;
    assert_eq!(rt; got.as_str(), "type 9 2:1");
    Ok(())
}

#[test]
fn the_257th_task_is_a_fault(rt: HostRuntime) -> Result<(), Fail> {
    let alloc = rt.alloc();
    let mut text = String::new(alloc);
    for i in 0..256 {
        text.push_str(format!(in alloc; "task t{i}() int {{ }}\n")?.as_str())?;
    }
    text.push_str("task main() int { return 0; }")?;
    let got = shown(alloc, short_answer(alloc, text.as_str()))?;
    assert_eq!(rt; got.as_str(), "type 12 257:6");
    Ok(())
}
