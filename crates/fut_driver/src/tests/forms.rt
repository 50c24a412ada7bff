//! Each form of statement in each form of block, programs at the limits of the language, and a long record.
use super::{REPLAY, SERIAL, ask};
use crate::status::Status;
use std::alloc::Global;
use std::test::Fail;

/// What stands before and behind the statements of a block, and how often they are done.
struct Block {
    open: &'static str,
    close: &'static str,
    times: u32,
}

const OUTER: [Block; 4] = [
    Block {
        open: "",
        close: "",
        times: 1,
    },
    Block {
        open: "if 1 { ",
        close: "} else { x = 9; } ",
        times: 1,
    },
    Block {
        open: "if 0 { x = 9; x = x; } else { ",
        close: "} ",
        times: 1,
    },
    Block {
        open: "while i < 2 { i = i + 1; ",
        close: "} ",
        times: 2,
    },
];

const INNER: [Block; 4] = [
    Block {
        open: "",
        close: "",
        times: 1,
    },
    Block {
        open: "if 1 { ",
        close: "} ",
        times: 1,
    },
    Block {
        open: "if 0 { } else { ",
        close: "} ",
        times: 1,
    },
    Block {
        open: "j = 0; while j < 2 { ",
        close: "j = j + 1; } ",
        times: 2,
    },
];

/// Each form of statement but `return`. Done once it adds 5 + 10 + 200 to `x`, and 1 to the cell `a[1]`.
const BODY: &str =
    "var n: int = 2; n = n + 1; a[0] = n; var k: int = a[0]; spawn inc(); sync; var h: fut int = create leaf(k); var g: fut int[2] = h; g[1] = h; h = g[1]; var v: int = get h; h = create leaf(v); v = get h; var z: int; x = (x + v) + z; if v == 5 { x = x + 10; } else { x = x + 1000; } while z < 2 { z = z + 1; x = x + 100; } ";

/// The statements in an inner block, in an outer one; more statements stand around both.
fn nested(alloc: Global, outer: &Block, inner: &Block) -> Result<String, Fail> {
    let mut text = String::from_str(
        alloc,
        "cells a[2]; task leaf(n: int) int { return n + 1; } task inc() int { var t: int = a[1]; a[1] = t + 1; return 0; } task main() int { var x: int; var i: int; var j: int; ",
    )?;
    text.push_str(outer.open)?;
    text.push_str("x = x + 0; ")?;
    text.push_str(inner.open)?;
    text.push_str(BODY)?;
    text.push_str(inner.close)?;
    text.push_str("x = x + 0; ")?;
    text.push_str(outer.close)?;
    text.push_str("var c: int = a[1]; return (c * 1000) + x; }")?;
    Ok(text)
}

#[test]
fn statements_in_blocks(rt: HostRuntime) -> Result<(), Fail> {
    let alloc = rt.alloc();
    let due = [" end 1215", " end 2430", " end 4860"];
    for outer in &OUTER {
        for inner in &INNER {
            let text = nested(alloc, outer, inner)?;
            let answer = ask(&rt, &SERIAL, text.as_bytes())?;
            let end = match outer.times * inner.times {
                1 => due[0],
                2 => due[1],
                _ => due[2],
            };
            assert_eq!(rt; answer.status, Status::Clean, "{text}");
            assert!(rt; has_end(answer.text.as_slice(), end), "{text}");
        }
    }
    Ok(())
}

/// Whether one of the lines of a text ends so.
fn has_end(text: &[u8], end: &str) -> bool {
    text.split(|byte| *byte == b'\n')
        .any(|part| part.ends_with(end.as_bytes()))
}

/// A text with a part that is repeated with the numbers from 0 on, what it is asked, and what comes of it.
struct Case {
    words: &'static [&'static str],
    front: &'static str,
    before: &'static str,
    behind: &'static str,
    count: u32,
    back: &'static str,
    status: u8,
    end: &'static str,
}

impl Case {
    fn text(&self, alloc: Global) -> Result<String, Fail> {
        let mut text = String::from_str(alloc, self.front)?;
        for number in 0..self.count {
            text.push_str(self.before)?;
            let digits = format!(in alloc; "{number}")?;
            text.push_str(digits.as_str())?;
            text.push_str(self.behind)?;
        }
        text.push_str(self.back)?;
        Ok(text)
    }
}

const CASES: [Case; 13] = [
    // an array of 64 handles
    Case {
        words: &SERIAL,
        front: "task f() int { return 7; } task main() int { var h: fut int = create f(); var g: fut int[64] = h; g[63] = h; h = g[127]; ",
        before: "",
        behind: "",
        count: 0,
        back: "var x: int = get h; return x; }",
        status: 0,
        end: " end 7",
    },
    // 80 slots, and one more
    Case {
        words: &SERIAL,
        front: "task f() int { return 7; } task main() int { var h: fut int = create f(); var g: fut int[64] = h; ",
        before: "var x",
        behind: ": int = 1; ",
        count: 15,
        back: "x14 = x14 + x0; return x14; }",
        status: 0,
        end: " end 2",
    },
    Case {
        words: &SERIAL,
        front: "task f() int { return 7; } task main() int { var h: fut int = create f(); var g: fut int[64] = h; ",
        before: "var x",
        behind: ": int = 1; ",
        count: 16,
        back: "return x0; }",
        status: 3,
        end: "type 12 1:363",
    },
    Case {
        words: &SERIAL,
        front: "task main() int { ",
        before: "var x",
        behind: ": int = 1; ",
        count: 80,
        back: "x79 = x79 + x0; return x79; }",
        status: 0,
        end: " end 2",
    },
    // eight parameters, and 16 argument values
    Case {
        words: &SERIAL,
        front: "task v() int { return 5; } task f(a: int, b: int, c: int, d: int, e: int, k: int, l: fut int, g: fut int[9]) int { l = g[8]; var x: int = get l; return (((((a + b) + c) + d) + e) + k) + x; } task main() int { var h: fut int = create v(); var g: fut int[9] = h; var r: fut int = create f(1, 2, 3, 4, 5, 6, h, g); ",
        before: "",
        behind: "",
        count: 0,
        back: "var x: int = get r; return x; }",
        status: 0,
        end: " end 26",
    },
    Case {
        words: &SERIAL,
        front: "task v() int { return 5; } task f(g: fut int[16]) int { var l: fut int = g[15]; var x: int = get l; return x; } task main() int { var h: fut int = create v(); var g: fut int[16] = h; var r: fut int = create f(g); ",
        before: "",
        behind: "",
        count: 0,
        back: "var x: int = get r; return x; }",
        status: 0,
        end: " end 5",
    },
    // 256 arrays of cells, and more
    Case {
        words: &SERIAL,
        front: "",
        before: "cells a",
        behind: "[256]; ",
        count: 256,
        back: "task main() int { a255[255] = 1; var x: int = a255[-1]; return x; }",
        status: 0,
        end: " read 65535 1",
    },
    Case {
        words: &SERIAL,
        front: "",
        before: "cells a",
        behind: "[1]; ",
        count: 3000,
        back: "task main() int { a2999[1] = 1; var x: int = a2999[-1]; return x; }",
        status: 0,
        end: " read 2999 1",
    },
    // 65,536 cells
    Case {
        words: &SERIAL,
        front: "cells a[65535]; cells b[1]; task main() int { b[0] = 1; a[-1] = 2; var x: int = b[7]; return x; }",
        before: "",
        behind: "",
        count: 0,
        back: "",
        status: 0,
        end: " read 65535 1",
    },
    // 256 tasks
    Case {
        words: &SERIAL,
        front: "task main() int { spawn t254(); sync; return 0; } ",
        before: "task t",
        behind: "() int { return 3; } ",
        count: 255,
        back: "",
        status: 0,
        end: " spawn 255 t1 s1 s2",
    },
    // eight `fut`, and the greatest number
    Case {
        words: &["serial", "--events", "10"],
        front: "task f() fut fut fut fut fut fut fut int { var h: fut fut fut fut fut fut fut fut int = create f(); var g: fut fut fut fut fut fut fut int = get h; return g; } task main() int { var h: fut fut fut fut fut fut fut fut int = create f(); return 0; }",
        before: "",
        behind: "",
        count: 0,
        back: "",
        status: 4,
        end: "finish events 10",
    },
    Case {
        words: &SERIAL,
        front: "task main() int { return 9223372036854775807; }",
        before: "",
        behind: "",
        count: 0,
        back: "",
        status: 0,
        end: " end 9223372036854775807",
    },
    // more than 65,536 statements in a block
    Case {
        words: &["serial", "--brief"],
        front: "cells a[1]; task main() int { var i: int; while i < 1 { i = 1; ",
        before: "a[",
        behind: "] = 1; ",
        count: 70000,
        back: "} return i; }",
        status: 0,
        end: "events 70001",
    },
];

#[test]
fn programs_at_the_limits(rt: HostRuntime) -> Result<(), Fail> {
    for case in &CASES {
        let text = case.text(rt.alloc())?;
        let answer = ask(&rt, case.words, text.as_bytes())?;
        assert_eq!(rt; answer.status.number(), case.status, "{}", case.end);
        assert!(rt; has_end(answer.text.as_slice(), case.end), "{}", case.end);
    }
    Ok(())
}

#[test]
fn returns_in_blocks(rt: HostRuntime) -> Result<(), Fail> {
    let cases = [
        ("if 1 { return 1; }", " end 1"),
        ("if 0 { } else { return 2; }", " end 2"),
        ("while 1 { return 3; }", " end 3"),
        ("while 1 { if 0 { } else { return 4; } }", " end 4"),
        (
            "while 1 { if 1 { return 5; } else { return 9; } }",
            " end 5",
        ),
        ("while 1 { while 1 { return 6; } }", " end 6"),
        ("if 1 { if 1 { return 7; } }", " end 7"),
        ("if 1 { while 1 { return 8; } }", " end 8"),
        (
            "if 0 { return 9; } else { if 0 { } else { return 10; } }",
            " end 10",
        ),
        (
            "if 0 { return 9; } else { while 1 { return 11; } }",
            " end 11",
        ),
        ("if 0 { return 9; }", " end 12"),
    ];
    for (block, end) in cases {
        let text = format!(in rt.alloc(); "task main() int {{ {block} return 12; }}")?;
        let answer = ask(&rt, &SERIAL, text.as_bytes())?;
        assert_eq!(rt; answer.status, Status::Clean, "{text}");
        assert!(rt; has_end(answer.text.as_slice(), end), "{text}");
    }
    Ok(())
}

#[test]
fn the_last_create(rt: HostRuntime) -> Result<(), Fail> {
    let text =
        "task f() int { return 0; }\ntask main() int { var h: fut int = create f(); while 1 { h = create f(); } return 0; }\n";
    let answer = ask(&rt, &SERIAL, text.as_bytes())?;
    assert_eq!(rt; answer.status.number(), 4);
    assert_eq!(rt; answer.entries, 8192);
    assert!(rt; answer.ends_in("races 0\nfinish futures 0\nend\n"));
    Ok(())
}

/// The run of 600,000 entries whose record is replayed.
const LONG: &str = "cells a[1]; task main() int { while 1 { a[0] = 1; } return 0; }";

#[test]
fn a_long_record(rt: HostRuntime) -> Result<(), Fail> {
    let words = ["serial", "--events", "600000"];
    let answer = ask(&rt, &words, LONG.as_bytes())?;
    assert_eq!(rt; answer.entries, 600_000);
    let replayed = ask(&rt, &REPLAY, answer.text.as_slice())?;
    assert_eq!(rt; replayed.status.number(), 4);
    assert_eq!(rt; replayed.entries, 600_000);
    assert_eq!(rt;
        replayed.text.as_slice(),
        b"legal entries 600000 races 0\n".as_slice()
    );
    Ok(())
}
