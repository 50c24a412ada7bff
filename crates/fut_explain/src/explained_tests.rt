//! What is told of texts, written out by hand.
use crate::explained::explain;
use fut_base::list::NoMemory;
use std::alloc::Global;
use std::test::Fail;

/// What is told of a short text.
fn told(alloc: Global, text: &[u8]) -> Result<Vec<u8>, NoMemory> {
    if text.len() < 1000 {
        Ok(explain(alloc, text)?.text)
    } else {
        Ok(Vec::new(alloc))
    }
}

#[test]
fn no_programs(rt: HostRuntime) -> Result<(), Fail> {
    let rows: [(&[u8], &[u8]); 6] = [
        (
            b"",
            b"line 1, column 1: no program goes on so\n\n^\nwhat can stand here:\n    cells\n    task\n",
        ),
        (
            b"cells a[4];\ncells b[];\n",
            b"line 2, column 9: no program goes on so\ncells b[];\n        ^\nwhat can stand here:\n    a number\n",
        ),
        (
            b"task f() int { xx 123; }",
            b"line 1, column 19: no program goes on so\ntask f() int { xx 123; }\n                  ^^^\nwhat can stand here:\n    [\n    =\n",
        ),
        (
            b"task f()\tint {\r\n\twhile }\n",
            b"line 2, column 8: no program goes on so\n\twhile }\n\t      ^\nwhat can stand here:\n    a word\n    a number\n    (\n    -\n    !\n",
        ),
        (
            b"// \xc3\xa9\ncells a /* \xc3\xa9 */",
            b"line 2, column 9: no program goes on so\ncells a /* \xc3\xa9 */\n        ^\nwhat can stand here:\n    [\n",
        ),
        (
            b"task f(",
            b"line 1, column 8: no program goes on so\ntask f(\n       ^\nwhat can stand here:\n    a word\n    )\n",
        ),
    ];
    for (text, want) in rows {
        let got = told(rt.alloc(), text)?;
        assert_eq!(rt; got.as_slice(), want);
    }
    Ok(())
}

/// Texts that break a type rule each, and what is told of them.
#[test]
fn type_rules(rt: HostRuntime) -> Result<(), Fail> {
    let rows: [(&[u8], &[u8]); 16] = [
        (
            b"task main() int { return foo; }",
            b"line 1, column 26: type rule 1: unknown name: no visible variable, array or task of the kind that is due here\n\
              task main() int { return foo; }\n                         ^^^\n",
        ),
        (
            b"cells a[1];\ncells a[2];\ntask main() int { }",
            b"line 2, column 7: type rule 2: doubled name: this name is declared already\ncells a[2];\n      ^\n",
        ),
        (
            b"task f() int { }\ntask main() int { spawn f(1); }",
            b"line 2, column 25: type rule 3: wrong number of arguments\n\
              task main() int { spawn f(1); }\n                        ^\narguments found: 1\narguments due: 0\n",
        ),
        (
            b"task main() int { var h: fut int = 10; }",
            b"line 1, column 36: type rule 4: a number where a handle is due\n\
              task main() int { var h: fut int = 10; }\n                                   ^^\nfound: int\ndue: fut int\n",
        ),
        (
            b"task f(h: fut int) int { return -h; }\ntask main() int { }",
            b"line 1, column 34: type rule 5: a handle where a number is due\n\
              task f(h: fut int) int { return -h; }\n                                 ^\nfound: fut int\ndue: int\n",
        ),
        (
            b"task f(h: fut int, k: fut fut int) int { h = k; }\ntask main() int { }",
            b"line 1, column 46: type rule 6: the handle has another depth than its place needs, or more than eight fut\n\
              task f(h: fut int, k: fut fut int) int { h = k; }\n                                             ^\nfound: fut fut int\ndue: fut int\n",
        ),
        (
            b"task f(r: fut int[2]) int { }\ntask g(s: fut int[3]) int { spawn f(s); }\ntask main() int { }",
            b"line 2, column 37: type rule 7: array of handles: its length is not from 1 to 64, or an array stands where none is due, or the other way round\n\
              task g(s: fut int[3]) int { spawn f(s); }\n                                    ^\nfound: fut int[3]\ndue: fut int[2]\n",
        ),
        (
            b"task f(n: int) int { var x: int = get n; }\ntask main() int { }",
            b"line 1, column 39: type rule 4: a number where a handle is due\n\
              task f(n: int) int { var x: int = get n; }\n                                      ^\nfound: int\ndue: a handle\n",
        ),
        (
            b"task f(h: fut int) int { return (h); }\ntask main() int { }",
            b"line 1, column 33: type rule 8: the value returned is not of the task's result type, or a task that gives a handle does not end with return\n\
              task f(h: fut int) int { return (h); }\n                                ^\nfound: fut int\ndue: int\n",
        ),
        (
            b"task f(r: fut int[0]) int { }\ntask main() int { }",
            b"line 1, column 19: type rule 7: array of handles: its length is not from 1 to 64, or an array stands where none is due, or the other way round\n\
              task f(r: fut int[0]) int { }\n                  ^\n",
        ),
        (
            b"task f(h: fut int) fut int {\n}\ntask main() int { }",
            b"line 2, column 1: type rule 8: the value returned is not of the task's result type, or a task that gives a handle does not end with return\n\
              }\n^\n",
        ),
        (
            b"task f() int { }",
            b"line 1, column 17: type rule 9: no task is named main\ntask f() int { }\n                ^\n",
        ),
        (
            b"task main(x: int) int { }",
            b"line 1, column 11: type rule 10: main has parameters\ntask main(x: int) int { }\n          ^\n",
        ),
        (
            b"task main() int { var h: fut int; }",
            b"line 1, column 23: type rule 11: a handle is declared without a value\ntask main() int { var h: fut int; }\n                      ^\n",
        ),
        (
            b"cells a[0];\ntask main() int { }",
            b"line 1, column 9: type rule 12: a limit of cells, tasks, parameters, arguments or slots is exceeded\ncells a[0];\n        ^\n",
        ),
        (
            b"task main() int { }",
            b"a program that breaks no type rule\n",
        ),
    ];
    for (text, want) in rows {
        let got = told(rt.alloc(), text)?;
        assert_eq!(rt; got.as_slice(), want);
    }
    Ok(())
}
