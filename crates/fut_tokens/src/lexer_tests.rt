//! Tokens and places of short texts, worked out by hand.
use crate::lexer::{Lexed, tokens};
use crate::spelling::{fixed_spelling, push_line};
use crate::token::Token;
use std::alloc::{AllocError, Global};
use std::test::Fail;

/// A token by its spelling, or by what it is.
fn name_of(alloc: Global, token: &Token) -> Result<String, AllocError> {
    match token {
        Token::Word(word) => format!(in alloc; "word{}", word.len()),
        Token::Number(number) => format!(in alloc; "{number}"),
        Token::Scrap => format!(in alloc; "scrap"),
        Token::End => format!(in alloc; "end"),
        other => format!(in alloc;
            "{}",
            std::str::from_utf8(fixed_spelling(other)).unwrap_or("")
        ),
    }
}

/// The tokens with their places, each by a space before it, and `//` where there is a comment.
fn shown(alloc: Global, lexed: &Lexed) -> Result<String, AllocError> {
    let mut out = String::new(alloc);
    for (token, place) in lexed.tokens.iter().zip(lexed.places.iter()) {
        let name = name_of(alloc, token)?;
        let line = place.line;
        let column = place.column;
        out.push_str(format!(in alloc; " {name}@{line}:{column}")?.as_str())?;
    }
    if lexed.comments {
        out.push_str(" //")?;
    }
    Ok(out)
}

#[test]
fn texts_by_hand(rt: HostRuntime) -> Result<(), Fail> {
    let rows: [(&[u8], &str); 16] = [
        (b"", " end@1:1"),
        (b"1//2", " 1@1:1 end@1:5 //"),
        (b"1/2", " 1@1:1 /@1:2 2@1:3 end@1:4"),
        (b"a//b\xff\n/c", " word1@1:1 /@2:1 word1@2:2 end@2:3 //"),
        (b"01 0", " scrap@1:1 0@1:4 end@1:5"),
        (b"12ab", " 12@1:1 word2@1:3 end@1:5"),
        (
            b"a2345678901234567890123456789012 b",
            " word32@1:1 word1@1:34 end@1:35",
        ),
        (
            b"a23456789012345678901234567890123 b",
            " scrap@1:1 word1@1:35 end@1:36",
        ),
        (
            b"9223372036854775807 9223372036854775808",
            " 9223372036854775807@1:1 scrap@1:21 end@1:40",
        ),
        (
            b"<=< =<== ===",
            " <=@1:1 <@1:3 =@1:5 <=@1:6 =@1:8 ==@1:10 =@1:12 end@1:13",
        ),
        (b"if\r\n\tiff\r\n", " if@1:1 word3@2:2 end@3:1"),
        (b"a\x0cb", " word1@1:1 scrap@1:2 word1@1:3 end@1:4"),
        (
            b"!a!=b|&\xc3\xa9",
            " !@1:1 word1@1:2 !=@1:3 word1@1:5 |@1:6 &@1:7 scrap@1:8 scrap@1:9 end@1:10",
        ),
        (b"_Zz9 add ADD", " word4@1:1 add@1:6 word3@1:10 end@1:13"),
        (
            b"task f(p: fut int[3])",
            " task@1:1 word1@1:6 (@1:7 word1@1:8 :@1:9 fut@1:11 int@1:15 [@1:18 3@1:19 ]@1:20 )@1:21 end@1:22",
        ),
        (b"//", " end@1:3 //"),
    ];
    for (text, want) in rows {
        assert!(rt; text.len() < 100);
        let lexed = tokens(rt.alloc(), text)?;
        let got = shown(rt.alloc(), &lexed)?;
        assert_eq!(rt; got.as_str(), want);
    }
    Ok(())
}

#[test]
fn a_line_is_written_as_it_was_read(rt: HostRuntime) -> Result<(), Fail> {
    let text =
        b"cells task int fut var if else while spawn sync create get return add a_1 0 907 ( ) [ ] { } , ; : = + - * / % & | ! == != < <= > >=\n";
    let mut lexed = tokens(rt.alloc(), text)?;
    assert_eq!(rt; lexed.tokens.len(), 42);
    lexed.tokens.truncate(41);
    let mut out = Vec::new(rt.alloc());
    push_line(rt.alloc(), &mut out, lexed.tokens.as_slice())?;
    assert_eq!(rt; out.as_slice(), text.as_slice());
    Ok(())
}
