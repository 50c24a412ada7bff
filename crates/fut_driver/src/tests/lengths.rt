//! Texts at the greatest lengths that are read.
ghost use Rattle.std.specs.Prelude.{◌≡◌, None};

use crate::status::Status;
use crate::tests::{CHECK, REPLAY, RUN, SERIAL};
use crate::top::forder;
use command_words::words::Words;
use fut_base::gate::FreeGate;
use fut_base::memory::MemSink;
use fut_base::ports::{Source, Took};
use std::test::Fail;

/// Gives a text and then spaces, so many bytes in all. It does not hold them.
#[derive(Drop)]
struct Padded<'a> {
    text: &'a [u8],
    left: usize,
    ended: bool,
}

impl Source for Padded<'_> {
    ghost left = { λ _. None };

    ghost ended = { λ s. s.ended };

    ghost faults = { λ _. 0 };

    fn take(&mut self, buf: &mut [u8]) -> Took {
        self.ended = self.left == 0;
        if self.left == 0 {
            return Took::End;
        }
        let mut count = buf.len().min(self.left);
        if self.text.is_empty() {
            buf[..count].fill(b' ');
        } else {
            count = count.min(self.text.len());
            buf[..count].copy_from_slice(&self.text[..count]);
            self.text = &self.text[count..];
        }
        self.left -= count;
        Took::Bytes(count)
    }
}

const PROGRAM: &[u8] = b"task main() int { return 0; }";

/// A record of 99 bytes.
const RECORD: &[u8] =
    b"forder 1\nprogram 29\ntask main() int { return 0; }\nentries 1\n0 t0 s0 end 0\nraces 0\nfinish whole\nend\n";

#[test]
fn the_longest_texts(rt: HostRuntime) -> Result<(), Fail> {
    let alloc = rt.alloc();
    // what is read one byte below the limit, at it and one above it
    let cases: [(&[&str], &[u8], usize, Status); 12] = [
        (&CHECK, PROGRAM, 1_048_575, Status::Accepted),
        (&CHECK, PROGRAM, 1_048_576, Status::Accepted),
        (&CHECK, PROGRAM, 1_048_577, Status::TooLong),
        (&SERIAL, PROGRAM, 1_048_575, Status::Clean),
        (&SERIAL, PROGRAM, 1_048_576, Status::Clean),
        (&SERIAL, PROGRAM, 1_048_577, Status::TooLong),
        (&RUN, PROGRAM, 1_048_577, Status::TooLong),
        (
            &CHECK,
            b"",
            1_048_576,
            Status::Syntax {
                line: 1,
                column: 1_048_577,
            },
        ),
        (&REPLAY, RECORD, 1_048_577, Status::NotRun { byte: 99 }),
        (&REPLAY, RECORD, 67_108_863, Status::NotRun { byte: 99 }),
        (&REPLAY, RECORD, 67_108_864, Status::NotRun { byte: 99 }),
        (&REPLAY, RECORD, 67_108_865, Status::TooLong),
    ];
    for (words, text, left, status) in cases {
        let mut given = Words::make(alloc);
        for word in words {
            given.push(word)?;
        }
        let mut source = Padded {
            text,
            left,
            ended: false,
        };
        let mut out = MemSink::make(alloc, 2_000_000, 2_000_000, &[])?;
        let answer = forder(&rt, alloc, &given, &mut source, &mut out, &FreeGate);
        assert_eq!(rt; answer.status, status, "{left}");
        assert_eq!(rt; source.left, 0);
    }
    Ok(())
}
