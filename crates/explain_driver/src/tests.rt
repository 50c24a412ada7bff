//! Calls over a source and a sink in memory. What is told of a text, byte for byte, is tested in `fut_explain`.
ghost use Rattle.std.specs.Prelude.{◌≡◌, None};

use crate::process::carry_out;
use fut_base::memory::{MemSink, MemSource};
use fut_base::ports::{Source, Took};
use std::alloc::Global;
use std::env::Args;
use std::io;
use std::process::ExitCode;
use std::test::Fail;

/// The command line with these words.
fn line(alloc: Global, words: &[&str]) -> Result<Args, Fail> {
    let mut all = Vec::new(alloc);
    for word in words {
        all.push(String::from_str(alloc, word)?)?;
    }
    Ok(all.into_iter())
}

/// The number that the process ends with, and what it wrote. Takes and puts of seven bytes at most fail at these calls.
fn ended(
    alloc: Global,
    given: io::Result<Args>,
    text: &str,
    take_fails: &[u64],
    put_fails: &[u64],
) -> Result<(ExitCode, Vec<u8>), Fail> {
    let mut source = MemSource::make(alloc, text.as_bytes(), 7, take_fails)?;
    let mut out = MemSink::make(alloc, 1000, 7, put_fails)?;
    let code = carry_out(alloc, given, &mut source, &mut out);
    Ok((code, Vec::from_slice(alloc, out.bytes())?))
}

/// Texts, the number that the process ends with, and how what it writes begins. The twelve rules come first.
const TEXTS: [(&str, u8, &str); 23] = [
    (
        "task main() int { return x; }",
        3,
        "line 1, column 26: type rule 1: unknown name",
    ),
    (
        "task main() int { var x: int = 1; var x: int = 2; }",
        3,
        "line 1, column 39: type rule 2: doubled name",
    ),
    (
        "task kid(a: int) int { }\ntask main() int { spawn kid(); }",
        3,
        "line 2, column 25: type rule 3: wrong number of arguments\n",
    ),
    (
        "task main() int { var h: fut int = 1; }",
        3,
        "line 1, column 36: type rule 4: a number where a handle is due\n",
    ),
    (
        "task work(n: int) int { return n; }\ntask main() int { var h: fut int = create work(41); return h + 1; }",
        3,
        "line 2, column 60: type rule 5: a handle where a number is due\n",
    ),
    (
        "task f(h: fut fut fut fut fut fut fut fut fut int) int { }\ntask main() int { }",
        3,
        "line 1, column 43: type rule 6: the handle has another depth",
    ),
    (
        "task f(r: fut int[0]) int { }\ntask main() int { }",
        3,
        "line 1, column 19: type rule 7: array of handles",
    ),
    (
        "task kid() int { }\ntask f() fut int { var h: fut int = create kid(); }\ntask main() int { }",
        3,
        "line 2, column 51: type rule 8: the value returned",
    ),
    (
        "cells a[1];",
        3,
        "line 1, column 12: type rule 9: no task is named main\ncells a[1];\n           ^\n",
    ),
    (
        "task main(x: int) int { }",
        3,
        "line 1, column 11: type rule 10: main has parameters\n",
    ),
    (
        "task main() int { var h: fut int; }",
        3,
        "line 1, column 23: type rule 11: a handle is declared without a value\n",
    ),
    (
        "cells a[1048577];\ntask main() int { }",
        3,
        "line 1, column 9: type rule 12: a limit",
    ),
    (
        "",
        2,
        "line 1, column 1: no program goes on so\n\n^\nwhat can stand here:\n    cells\n    task\n",
    ),
    (
        "main",
        2,
        "line 1, column 1: no program goes on so\nmain\n^^^^\n",
    ),
    (
        "task main() int { return 1 }",
        2,
        "line 1, column 28: no program goes on so\n",
    ),
    (
        "task main() int {\n  a[0] = ;\n}",
        2,
        "line 2, column 10: no program goes on so\n  a[0] = ;\n         ^\nwhat can stand here:\n",
    ),
    (
        "task main() int { $ }",
        2,
        "line 1, column 19: no program goes on so\n",
    ),
    (
        "task main() int { return 0; }",
        0,
        "a program that breaks no type rule\n",
    ),
    (
        "// nothing\ncells a[2];\ntask main() int { }\n",
        0,
        "a program that breaks no type rule\n",
    ),
    (
        "forder 1\nprogram 29\n",
        5,
        "a record: records are not explained yet\n",
    ),
    ("forder 1\n", 5, "a record: records are not explained yet\n"),
    (
        "forder 1",
        2,
        "line 1, column 1: no program goes on so\nforder 1\n^^^^^^\n",
    ),
    (
        "\nforder 1\n",
        2,
        "line 2, column 1: no program goes on so\nforder 1\n^^^^^^\n",
    ),
];

#[test]
fn texts(rt: HostRuntime) -> Result<(), Fail> {
    let alloc = rt.alloc();
    for (text, number, begins) in TEXTS {
        let (code, told) = ended(alloc, Ok(line(alloc, &["explain"])?), text, &[], &[])?;
        assert_eq!(rt; code, ExitCode::from(number));
        assert!(rt; told.as_slice().starts_with(begins.as_bytes()));
    }
    Ok(())
}

#[test]
fn command_lines(rt: HostRuntime) -> Result<(), Fail> {
    let alloc = rt.alloc();
    let usage: &str = "usage: explain, with a program text on standard input\n";
    let bare = ended(alloc, Ok(line(alloc, &[])?), "main", &[], &[])?;
    assert_eq!(rt; bare.0, ExitCode::from(2));
    // the source fails at its first call, and the answer shows that there was none
    let words = ended(
        alloc,
        Ok(line(alloc, &["explain", "check"])?),
        "",
        &[0],
        &[],
    )?;
    assert_eq!(rt; words.0, ExitCode::from(9));
    assert_eq!(rt; words.1.as_slice(), usage.as_bytes());
    let cases = [
        (io::ErrorKind::InvalidData, 9, usage),
        (io::ErrorKind::OutOfMemory, 8, "no memory\n"),
    ];
    for (kind, number, told) in cases {
        let none = ended(alloc, Err(io::Error::from(kind)), "", &[0], &[])?;
        assert_eq!(rt; none.0, ExitCode::from(number));
        assert_eq!(rt; none.1.as_slice(), told.as_bytes());
    }
    Ok(())
}

#[test]
fn faults_of_source_and_sink(rt: HostRuntime) -> Result<(), Fail> {
    let alloc = rt.alloc();
    let program = "task main() int { return 0; }";
    let failed = ended(alloc, Ok(line(alloc, &["explain"])?), program, &[2], &[])?;
    assert_eq!(rt; failed.0, ExitCode::from(6));
    assert_eq!(rt; failed.1.as_slice(), b"read fault\n".as_slice());
    let cut_off = ended(alloc, Ok(line(alloc, &["explain"])?), program, &[], &[1])?;
    assert_eq!(rt; cut_off.0, ExitCode::from(7));
    assert_eq!(rt; cut_off.1.as_slice(), b"a progr".as_slice());
    Ok(())
}

/// Gives a text and then spaces, so many bytes in all. It does not hold them.
#[derive(Drop)]
struct Padded<'a> {
    text: &'a [u8],
    left: usize,
    ended: bool,
}

impl Source for Padded<'_> {
    ghost left = { λ _. None };

    ghost ended = { λ s. s.ended };

    ghost faults = { λ _. 0 };

    fn take(&mut self, buf: &mut [u8]) -> Took {
        self.ended = self.left == 0;
        if self.left == 0 {
            return Took::End;
        }
        let mut count = buf.len().min(self.left);
        if self.text.is_empty() {
            buf[..count].fill(b' ');
        } else {
            count = count.min(self.text.len());
            buf[..count].copy_from_slice(&self.text[..count]);
            self.text = &self.text[count..];
        }
        self.left -= count;
        Took::Bytes(count)
    }
}

#[test]
fn the_longest_texts(rt: HostRuntime) -> Result<(), Fail> {
    let alloc = rt.alloc();
    let cases: [(&[u8], usize, u8); 4] = [
        (b"task main() int { return 0; }", 1_048_576, 0),
        (b"task main() int { return 0; }", 1_048_577, 10),
        (b"forder 1\n", 1_048_576, 5),
        (b"forder 1\n", 1_048_577, 5),
    ];
    for (text, left, number) in cases {
        let mut source = Padded {
            text,
            left,
            ended: false,
        };
        let mut out = MemSink::make(alloc, 1000, 1000, &[])?;
        let code = carry_out(alloc, Ok(line(alloc, &["explain"])?), &mut source, &mut out);
        assert_eq!(rt; code, ExitCode::from(number));
    }
    Ok(())
}
