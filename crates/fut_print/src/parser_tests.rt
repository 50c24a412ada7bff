//! Trees and faults of short token lists, worked out by hand.
use crate::write_items::item_tokens;
use fut_syntax::parser::{TokenFault, parse_tokens};
use fut_syntax::tree::Item;
use fut_tokens::token::Token;
use sqlite_items::Items;
use std::test::Fail;

#[test]
fn cells_are_read(rt: HostRuntime) -> Result<(), Fail> {
    let alloc = rt.alloc();
    let name = Items::from_slice(alloc, b"a".as_slice())?;
    let tokens = vec![in alloc;
        Token::Cells,
        Token::Word(name),
        Token::LeftSquare,
        Token::Number(4),
        Token::RightSquare,
        Token::Semicolon,
        Token::End,
    ]?;
    let items = parse_tokens(alloc, tokens)?;
    match items.as_slice() {
        [item @ Item::Cells(name, length)] => {
            assert_eq!(rt; name.as_slice(), b"a".as_slice());
            assert_eq!(rt; *length, 4);
            assert_eq!(rt; item_tokens(alloc, item)?.len(), 6);
        }
        _ => assert!(rt; false, "one array of cells"),
    }
    Ok(())
}

#[test]
fn the_fault_is_placed(rt: HostRuntime) -> Result<(), Fail> {
    let alloc = rt.alloc();
    let name = Items::from_slice(alloc, b"a".as_slice())?;
    let tokens = vec![in alloc;
        Token::Cells,
        Token::Word(name),
        Token::Semicolon,
        Token::End,
    ]?;
    match parse_tokens(alloc, tokens) {
        Err(TokenFault::Syntax { left }) => assert_eq!(rt; left, 1),
        _ => assert!(rt; false, "a fault at the semicolon"),
    }
    Ok(())
}
