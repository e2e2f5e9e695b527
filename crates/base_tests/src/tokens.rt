//! Tokens with their places.
use amdl_lexer::{LexRefusal, lex};
use amdl_tree::{Lexed, List, Name, Reserved, Sign, Token};
use std::alloc::Global;

const WIRE: &[u8] =
    b"network wire;\ntype Addr = {a, b};\nfield src : Addr;\nfield dst : Addr;\nhost p;\nhost q;\nlink p -- q;\nsends p : src = a;\nforbid q : src = a, dst = b;\n";

// Each sign, and where it starts with a blank behind each.
const SIGNS: [(Sign, u32); 16] = [
    (Sign::Semicolon, 0),
    (Sign::Colon, 2),
    (Sign::Becomes, 4),
    (Sign::Comma, 7),
    (Sign::Point, 9),
    (Sign::OpenBrace, 11),
    (Sign::CloseBrace, 13),
    (Sign::OpenParen, 15),
    (Sign::CloseParen, 17),
    (Sign::OpenBracket, 19),
    (Sign::CloseBracket, 21),
    (Sign::Equals, 23),
    (Sign::Differs, 25),
    (Sign::Arrow, 28),
    (Sign::Dashes, 31),
    (Sign::Bar, 34),
];

// A short text's tokens.
fn tokens_of(alloc: Global, bytes: &[u8]) -> Result<List<Lexed>, LexRefusal> {
    if bytes.len() > 4_194_304 {
        return Err(LexRefusal::NoMemory);
    }
    lex(alloc, bytes)
}

// How many tokens there are, or why there are none.
fn count_of(alloc: Global, bytes: &[u8]) -> Result<usize, LexRefusal> {
    let tokens = tokens_of(alloc, bytes)?;
    Ok(tokens.as_slice().len())
}

fn at(tokens: &List<Lexed>, index: usize) -> Option<Lexed> {
    tokens.as_slice().get(index).copied()
}

// Whether this token stands at the index, or none.
fn is_at(tokens: &List<Lexed>, index: usize, token: Option<Lexed>) -> bool {
    at(tokens, index) == token
}

fn placed(token: Token, start: u32, end: u32) -> Option<Lexed> {
    Some(Lexed { token, start, end })
}

fn named(name: &[u8], start: u32, end: u32) -> Option<Lexed> {
    let name = Name::new(name)?;
    placed(Token::Word(name), start, end)
}

#[test]
fn tokens_of_a_network(rt: HostRuntime) -> Result<(), LexRefusal> {
    let tokens = tokens_of(rt.alloc(), WIRE)?;
    assert!(rt; tokens.as_slice().len() == 51);
    let places = [
        (0, placed(Token::Key(Reserved::Network), 0, 7)),
        (1, named(b"wire", 8, 12)),
        (2, placed(Token::Sign(Sign::Semicolon), 12, 13)),
        (3, placed(Token::Key(Reserved::Kind), 14, 18)),
        (6, placed(Token::Sign(Sign::OpenBrace), 26, 27)),
        (7, named(b"a", 27, 28)),
        (30, placed(Token::Sign(Sign::Dashes), 93, 95)),
        (49, named(b"b", 144, 145)),
        (50, placed(Token::Sign(Sign::Semicolon), 145, 146)),
    ];
    for (index, token) in &places {
        assert!(rt; is_at(&tokens, *index, *token), "token {index}");
    }
    Ok(())
}

// Whether the sign is the token at the index, and starts there.
fn is_sign_from(tokens: &List<Lexed>, index: usize, sign: Sign, start: u32) -> bool {
    let end = start.saturating_add(sign.spelling().len() as u32);
    is_at(tokens, index, placed(Token::Sign(sign), start, end))
}

#[test]
fn every_sign(rt: HostRuntime) -> Result<(), LexRefusal> {
    let apart = tokens_of(rt.alloc(), b"; : := , . { } ( ) [ ] = != -> -- |")?;
    assert!(rt; apart.as_slice().len() == 16);
    for (index, (sign, start)) in SIGNS.iter().enumerate() {
        assert!(rt; is_sign_from(&apart, index, *sign, *start), "sign {index}");
    }
    Ok(())
}

// Whether the sign is the token at the index.
fn is_sign(tokens: &List<Lexed>, index: usize, sign: Sign) -> bool {
    match at(tokens, index) {
        Some(lexed) => lexed.token == Token::Sign(sign),
        None => false,
    }
}

#[test]
fn every_sign_without_blanks(rt: HostRuntime) -> Result<(), LexRefusal> {
    let close = tokens_of(rt.alloc(), b";::=,.{}()[]=!=->--|")?;
    assert!(rt; close.as_slice().len() == 16);
    for (index, (sign, _)) in SIGNS.iter().enumerate() {
        assert!(rt; is_sign(&close, index, *sign), "sign {index}");
    }
    Ok(())
}

#[test]
fn tokens_side_by_side(rt: HostRuntime) -> Result<(), LexRefusal> {
    let tokens = tokens_of(rt.alloc(), b"a--b 12ab f:=a!=b->c 000000007")?;
    let places = [
        named(b"a", 0, 1),
        placed(Token::Sign(Sign::Dashes), 1, 3),
        named(b"b", 3, 4),
        placed(Token::Number(12), 5, 7),
        named(b"ab", 7, 9),
        named(b"f", 10, 11),
        placed(Token::Sign(Sign::Becomes), 11, 13),
        named(b"a", 13, 14),
        placed(Token::Sign(Sign::Differs), 14, 16),
        named(b"b", 16, 17),
        placed(Token::Sign(Sign::Arrow), 17, 19),
        named(b"c", 19, 20),
        placed(Token::Number(7), 21, 30),
        None,
    ];
    for (index, token) in places.iter().enumerate() {
        assert!(rt; is_at(&tokens, index, *token), "token {index}");
    }
    Ok(())
}

#[test]
fn blanks_and_comments(rt: HostRuntime) -> Result<(), LexRefusal> {
    let tokens = tokens_of(rt.alloc(), b"\r\t#\xff @\r!\n host#p;")?;
    assert!(rt; tokens.as_slice().len() == 1);
    assert!(rt; is_at(&tokens, 0, placed(Token::Key(Reserved::Host), 10, 14)));
    assert!(rt; count_of(rt.alloc(), b"") == Ok(0));
    assert!(rt; count_of(rt.alloc(), b" \t\r\n##\n#") == Ok(0));
    Ok(())
}
