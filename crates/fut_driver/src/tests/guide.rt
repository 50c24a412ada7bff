//! The texts of the guide and the examples, with what is said of them there. `tools/guide_cases --write` makes this table.
use super::ask;
use std::test::Fail;

/// A text, the words that it is given with, and what comes of it.
struct Case {
    words: &'static [&'static str],
    text: &'static str,
    status: u8,
    line: &'static str,
}

/// Whether one of the lines of a text is this one.
fn has_line(text: &[u8], line: &str) -> bool {
    text.split(|byte| *byte == b'\n')
        .any(|part| part == line.as_bytes())
}

const CASES: [Case; 32] = [
    Case {
        words: &["serial", "--brief"],
        text: "cells sum[1];\ntask count(n: int) int {\n  var old: int = sum[0];\n  sum[0] = old + n;\n  return 0;\n}\ntask main() int {\n  spawn count(1);\n  spawn count(2);\n  sync;\n  return 0;\n}\n",
        status: 1,
        line: "race sum[0] 2 5",
    },
    Case {
        words: &["serial", "--brief"],
        text: "cells part[2];\ntask fill(i: int, n: int) int {\n  part[i] = n;\n  return 0;\n}\ntask main() int {\n  spawn fill(0, 1);\n  spawn fill(1, 2);\n  sync;\n  var x: int = part[0];\n  var y: int = part[1];\n  return x + y;\n}\n",
        status: 0,
        line: "races 0",
    },
    Case {
        words: &["check"],
        text: "cells a[4];\ncells total[1];\ntask leaf(n: int) int { a[n] = n * n; return n; }\ntask pass(h: fut int) fut int { return h; }\ntask main() int {\n  var i: int;\n  while i < 4 { spawn leaf(i); i = i + 1; }\n  sync;\n  var h: fut int = create leaf(5);\n  var row: fut int[3] = h;\n  row[1] = create leaf(6);\n  return 0;\n}\n",
        status: 2,
        line: "syntax 11:12",
    },
    Case {
        words: &["serial", "--brief"],
        text: "cells a[4];\ncells total[1];\ntask leaf(n: int) int { a[n] = n * n; return n; }\ntask pass(h: fut int) fut int { return h; }\ntask main() int {\n  var i: int;\n  while i < 4 { spawn leaf(i); i = i + 1; }\n  sync;\n  var h: fut int = create leaf(5);\n  var row: fut int[3] = h;\n  var v: int = get h;\n  h = create leaf(6);\n  row[1] = h;\n  var again: fut fut int = create pass(h);\n  var same: fut int = get again;\n  v = get same;\n  h = row[1];\n  var w: int = get h;\n  if v == w { v = -v; } else { v = !(v + w); }\n  var x: int = a[(2 * 1) + 1];\n  total[0] = x + v;\n  return (x + v) / 0;\n}\n",
        status: 0,
        line: "races 0",
    },
    Case {
        words: &["check"],
        text: "cells a[2];\ntask main() int {\n  var x: int = a[0] + 1;\n  return x;\n}\n",
        status: 2,
        line: "syntax 3:21",
    },
    Case {
        words: &["check"],
        text: "cells a[2];\ntask main() int {\n  a[0] = a[1];\n  return 0;\n}\n",
        status: 2,
        line: "syntax 3:11",
    },
    Case {
        words: &["check"],
        text: "task f() int { return 1; }\ntask main() int {\n  var x: int = f();\n  return x;\n}\n",
        status: 2,
        line: "syntax 3:17",
    },
    Case {
        words: &["check"],
        text: "task main() int { if 1 { var x: int; } return x; }\n",
        status: 3,
        line: "type 1 1:47",
    },
    Case {
        words: &["check"],
        text: "task main() int { if 1 { var x: int; } var x: int; return 0; }\n",
        status: 3,
        line: "type 2 1:44",
    },
    Case {
        words: &["check"],
        text: "task f(n: int) int { return n; } task main() int { spawn f(); return 0; }\n",
        status: 3,
        line: "type 3 1:58",
    },
    Case {
        words: &["check"],
        text: "task main() int { var h: fut int = 1; return 0; }\n",
        status: 3,
        line: "type 4 1:36",
    },
    Case {
        words: &["check"],
        text: "task f() int { return 1; } task main() int { var h: fut int = create f(); return h + 1; }\n",
        status: 3,
        line: "type 5 1:82",
    },
    Case {
        words: &["check"],
        text: "task f() int { return 1; } task main() int { var h: fut fut int = create f(); return 0; }\n",
        status: 3,
        line: "type 6 1:67",
    },
    Case {
        words: &["check"],
        text: "task f() int { return 1; }\ntask main() int { var h: fut int = create f(); var row: fut int[65] = h; return 0; }\n",
        status: 3,
        line: "type 7 2:65",
    },
    Case {
        words: &["check"],
        text: "task f(h: fut int) fut int { return 1; } task main() int { return 0; }\n",
        status: 3,
        line: "type 8 1:37",
    },
    Case {
        words: &["check"],
        text: "task f() int { return 0; }\n",
        status: 3,
        line: "type 9 2:1",
    },
    Case {
        words: &["check"],
        text: "task main(n: int) int { return 0; }\n",
        status: 3,
        line: "type 10 1:11",
    },
    Case {
        words: &["check"],
        text: "task main() int { var h: fut int; return 0; }\n",
        status: 3,
        line: "type 11 1:23",
    },
    Case {
        words: &["check"],
        text: "cells a[65537]; task main() int { return 0; }\n",
        status: 3,
        line: "type 12 1:9",
    },
    Case {
        words: &["serial", "--brief"],
        text: "task main() int { while 1 { } return 0; }\n",
        status: 4,
        line: "finish local 0",
    },
    Case {
        words: &["serial", "--events", "10", "--brief"],
        text: "task main() int { spawn main(); return 0; }\n",
        status: 4,
        line: "finish events 10",
    },
    Case {
        words: &["run", "--workers", "4", "--brief"],
        text: "cells a[2];\ntask set(i: int) int { a[i] = i; return 0; }\ntask main() int {\n  spawn set(0);\n  spawn set(1);\n  sync;\n  var x: int = a[0];\n  var y: int = a[1];\n  return x + y;\n}\n",
        status: 0,
        line: "events 10",
    },
    Case {
        words: &["serial"],
        text: "cells a[1];\ntask kid() int { a[0] = 1; return 0; }\ntask main() int { spawn kid(); a[0] = 2; sync; return 0; }\n",
        status: 1,
        line: "race 0 1 3",
    },
    Case {
        words: &["serial", "--events", "1000"],
        text: "// Each task spawns another one, without end.\n// Verdict of `serial --events 1000`: status 4, `finish events 1000`. The run was stopped after 1,000 entries.\ntask main() int { spawn main(); return 0; }\n",
        status: 4,
        line: "finish events 1000",
    },
    Case {
        words: &["serial"],
        text: "// A sync waits for spawned children only, and not for a future: what the future writes races with what `main` writes.\n// Verdict of `serial`: status 1, `race 0 1 4`. A `get h` before the last write would mend it.\ncells a[1];\ntask work() int { a[0] = 1; return 7; }\ntask main() int { var h: fut int = create work(); sync; a[0] = 2; return 0; }\n",
        status: 1,
        line: "race 0 1 4",
    },
    Case {
        words: &["serial"],
        text: "// A future is created, its handle is passed down, and its value is got twice.\n// Verdict of `serial`: status 0, `races 0`.\ncells sum[1];\ntask work(n: int) int { return n + 1; }\ntask twice(h: fut int) int { var v: int = get h; return v + v; }\ntask main() int {\n  var h: fut int = create work(41);\n  spawn twice(h);\n  var v: int = get h;\n  sum[0] = v;\n  sync;\n  return v;\n}\n",
        status: 0,
        line: "races 0",
    },
    Case {
        words: &["serial"],
        text: "// Children that are spawned in a loop each fill a cell of their own, and after the sync `main` adds the cells up.\n// Verdict of `serial`: status 0, `races 0`.\ncells a[8];\ncells sum[1];\ntask square(i: int) int { a[i] = i * i; return 0; }\ntask main() int {\n  var i: int;\n  while i < 8 { spawn square(i); i = i + 1; }\n  sync;\n  var total: int;\n  i = 0;\n  while i < 8 { var x: int = a[i]; total = total + x; i = i + 1; }\n  sum[0] = total;\n  return total;\n}\n",
        status: 0,
        line: "races 0",
    },
    Case {
        words: &["check"],
        text: "// A handle is used as a number.\n// Verdict of `check`: status 3, `type 5 5:60`. Rule 5: a handle stands where a number is due.\ncells sum[1];\ntask work(n: int) int { return n + 1; }\ntask main() int { var h: fut int = create work(41); return h + 1; }\n",
        status: 3,
        line: "type 5 5:60",
    },
    Case {
        words: &["serial"],
        text: "// A child and its parent write one cell, and the parent does not wait first.\n// Verdict of `serial`: status 1, `race 0 1 3`. Entries 1 and 3 of the record race on cell 0.\ncells a[1];\ntask kid() int { a[0] = 1; return 0; }\ntask main() int { spawn kid(); a[0] = 2; sync; return 0; }\n",
        status: 1,
        line: "race 0 1 3",
    },
    Case {
        words: &["serial"],
        text: "// Two children run in parallel. Each has a cell of its own, and both write cell 2.\n// Verdict of `serial`: status 1, `race 2 2 6`.\ncells a[4];\ntask first() int { a[0] = 1; a[2] = 3; return 0; }\ntask second() int { a[1] = 2; a[2] = 4; return 0; }\ntask main() int { spawn first(); spawn second(); sync; a[3] = 5; return 0; }\n",
        status: 1,
        line: "race 2 2 6",
    },
    Case {
        words: &["serial"],
        text: "// The parent waits for its child before it writes.\n// Verdict of `serial`: status 0, `races 0`.\ncells a[1];\ntask kid() int { a[0] = 1; return 0; }\ntask main() int { spawn kid(); sync; a[0] = 2; return 0; }\n",
        status: 0,
        line: "races 0",
    },
    Case {
        words: &["serial"],
        text: "// A grid of futures. Each gets the futures above it and on its left, adds up their cells and fills its own.\n// Verdict of `serial`: status 0, `races 0`.\ncells a[9];\ntask corner() int { a[0] = 1; return 0; }\ntask top(j: int, left: fut int) int {\n  var g: int = get left;\n  var q: int = a[j - 1];\n  a[j] = q + 1;\n  return 0;\n}\ntask side(i: int, up: fut int) int {\n  var g: int = get up;\n  var p: int = a[(i - 1) * 3];\n  a[i * 3] = p + 1;\n  return 0;\n}\ntask inner(i: int, j: int, up: fut int, left: fut int) int {\n  var g: int = get up;\n  g = get left;\n  var p: int = a[((i - 1) * 3) + j];\n  var q: int = a[(i * 3) + (j - 1)];\n  a[(i * 3) + j] = (p + q) + 1;\n  return 0;\n}\ntask main() int {\n  var h: fut int = create corner();\n  var row: fut int[3] = h;\n  var up: fut int = h;\n  var i: int = 1;\n  var j: int = 1;\n  while j < 3 { h = create top(j, h); row[j] = h; j = j + 1; }\n  while i < 3 {\n    up = row[0];\n    h = create side(i, up);\n    row[0] = h;\n    j = 1;\n    while j < 3 {\n      up = row[j];\n      h = create inner(i, j, up, h);\n      row[j] = h;\n      j = j + 1;\n    }\n    i = i + 1;\n  }\n  var x: int = get h;\n  return x;\n}\n",
        status: 0,
        line: "races 0",
    },
];

#[test]
fn guide_and_examples_say_what_comes(rt: HostRuntime) -> Result<(), Fail> {
    for case in &CASES {
        let answer = ask(&rt, case.words, case.text.as_bytes())?;
        assert_eq!(rt; answer.status.number(), case.status);
        assert!(rt; has_line(answer.text.as_slice(), case.line));
    }
    Ok(())
}
