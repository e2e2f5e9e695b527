//! Texts that are refused: their tokens, their productions, each with a token too few and with a wrong token, and their
//! depth.
use crate::texts::replies;
use std::alloc::{AllocError, Global};
use std::test::Fail;

/// Whether a text is refused with these words.
pub(crate) fn is_refused(alloc: Global, text: &[u8], why: &str) -> Result<bool, Fail> {
    let line = format!(in alloc; "refused network {why}\n")?;
    replies(alloc, "format", text, 3, line.as_bytes())
}

// Two parts of a text.
fn joined(alloc: Global, front: &str, text: &str) -> Result<Vec<u8>, AllocError> {
    let mut bytes = Vec::from_slice(alloc, front.as_bytes())?;
    bytes.extend_from_slice(text.as_bytes())?;
    Ok(bytes)
}

// Whether the token of this number is the first fault of a text behind a front.
fn is_no_tree(alloc: Global, front: &str, text: &str, place: u32) -> Result<bool, Fail> {
    let bytes = joined(alloc, front, text)?;
    let why = format!(in alloc; "token {place} Syntax")?;
    is_refused(alloc, bytes.as_slice(), why.as_str())
}

const FILES: [(&str, u32); 7] = [
    ("", 0),
    ("net x;", 0),
    ("network ;", 1),
    ("network x", 2),
    ("network x host h;", 2),
    ("network 9;", 1),
    ("network x; host h; }", 6),
];

#[test]
fn faulty_files(rt: HostRuntime) -> Result<(), Fail> {
    for (text, place) in &FILES {
        assert!(rt; is_no_tree(rt.alloc(), "", text, *place)?, "{text}");
    }
    Ok(())
}

const ITEMS: [(&str, u32); 34] = [
    ("on i : { }", 3),
    ("swap host h;", 3),
    ("type T = {a}", 9),
    ("type T : {a};", 5),
    ("type T = {};", 7),
    ("type T = {a,};", 9),
    ("field f : T", 7),
    ("field f T;", 5),
    ("host h", 5),
    ("host type;", 4),
    ("box b : c", 7),
    ("box b = c;", 5),
    ("box b : c with r(a)", 12),
    ("box b : c with ;", 8),
    ("link a -- b", 7),
    ("link a -> b;", 5),
    ("link a. -- b;", 6),
    ("link a.b.c -- d;", 7),
    ("sends h : true", 7),
    ("sends h true;", 5),
    ("forbid h : f = a", 9),
    ("forbid h : ;", 6),
    ("sends h : f = a,;", 10),
    ("sends h : true, f = a;", 7),
    ("sends h : f = ;", 8),
    ("sends h : f := a;", 7),
    ("middlebox m { port i;", 9),
    ("middlebox m { relation r(T); }", 6),
    ("middlebox m { port i; relation r(T) }", 14),
    ("middlebox m { port i; relation r[T]; }", 11),
    ("middlebox m { port i; on i { } }", 11),
    ("middlebox m { port i; on in : { } }", 10),
    ("middlebox m { port i; on i : { } relation r(T); }", 14),
    ("middlebox m { port i; on i : { ", 13),
];

#[test]
fn faulty_items(rt: HostRuntime) -> Result<(), Fail> {
    for (text, place) in &ITEMS {
        assert!(rt;
            is_no_tree(rt.alloc(), "network x; ", text, *place)?,
            "{text}"
        );
    }
    Ok(())
}

const HANDLER: &str = "network x; middlebox m { port i; on i : { ";

const STATEMENTS: [(&str, u32); 36] = [
    ("f = a; } }", 13),
    ("insert r(a) } }", 18),
    ("insert has r(a); } }", 14),
    ("insert r(); } }", 16),
    ("insert r(a; } }", 17),
    ("remove r(a) } }", 18),
    ("remove r a; } }", 15),
    ("output i } }", 15),
    ("output ; } }", 14),
    ("output i [f := a; } }", 19),
    ("output i []; } }", 16),
    ("output i [f :=]; } }", 18),
    ("output i [f = a]; } }", 17),
    ("abort } }", 14),
    ("abort i; } }", 14),
    ("if true -> { } } }", 18),
    ("if fi } }", 14),
    ("if true -> fi } }", 16),
    ("if true { } fi } }", 15),
    ("if true -> { } | fi } }", 19),
    ("pick y : T in } }", 18),
    ("pick y : T { } } }", 17),
    ("if true or -> { } fi } }", 16),
    ("if true, true -> { } fi } }", 15),
    ("if true and -> { } fi } }", 16),
    ("if true and and true -> { } fi } }", 16),
    ("if has r -> { } fi } }", 16),
    ("if has (a) -> { } fi } }", 15),
    ("if a = -> { } fi } }", 16),
    ("if a := b -> { } fi } }", 15),
    ("if a != -> { } fi } }", 16),
    ("if a != true -> { } fi } }", 16),
    ("if not -> { } fi } }", 15),
    ("if not and true -> { } fi } }", 15),
    ("if (true -> { } fi } }", 16),
    ("if () -> { } fi } }", 15),
];

#[test]
fn faulty_statements(rt: HostRuntime) -> Result<(), Fail> {
    for (text, place) in &STATEMENTS {
        assert!(rt; is_no_tree(rt.alloc(), HANDLER, text, *place)?, "{text}");
    }
    Ok(())
}

// A text behind so many `if`s, each in the block of the one before it.
fn nested(alloc: Global, ifs: u32, text: &str) -> Result<Vec<u8>, AllocError> {
    let mut nest = Vec::from_slice(alloc, HANDLER.as_bytes())?;
    for _ in 0..ifs {
        nest.extend_from_slice(b"if true -> { ")?;
    }
    nest.extend_from_slice(text.as_bytes())?;
    Ok(nest)
}

const LEVELS: [(u32, &str, &str); 9] = [
    (0, "if not and", "token 15 Syntax"),
    (31, "if not", "token 138 Deep"),
    (31, "if (", "token 138 Deep"),
    (31, "if and", "token 138 Syntax"),
    (31, "if has r(", "token 141 Syntax"),
    (32, "if", "token 141 Deep"),
    (32, "pick", "token 141 Deep"),
    (32, "not", "token 141 Syntax"),
    (32, "fi", "token 141 Syntax"),
];

#[test]
fn the_thirty_third_level(rt: HostRuntime) -> Result<(), Fail> {
    for (ifs, text, why) in &LEVELS {
        let bytes = nested(rt.alloc(), *ifs, text)?;
        assert!(rt;
            is_refused(rt.alloc(), bytes.as_slice(), why)?,
            "{text} within {ifs}"
        );
    }
    Ok(())
}

const BYTES: [(&[u8], &str); 18] = [
    (b"network x;\n@", "byte 11 BadByte"),
    (b"---", "byte 2 BadByte"),
    (b"!", "byte 0 BadByte"),
    (b"- >", "byte 0 BadByte"),
    (b"a! =", "byte 1 BadByte"),
    (b"a\x80", "byte 1 BadByte"),
    (b"\xef\xbb\xbfa", "byte 0 BadByte"),
    (b"a \x00", "byte 2 BadByte"),
    (b"\x0b", "byte 0 BadByte"),
    (b"\x0c", "byte 0 BadByte"),
    (b"\x7f", "byte 0 BadByte"),
    (b"#@\n@", "byte 3 BadByte"),
    (b"#\r@\n $", "byte 5 BadByte"),
    (b"\"", "byte 0 BadByte"),
    (b"network abcdefghijklmnopqrstuvwxy;@", "byte 8 WordTooLong"),
    (b"0000000000", "byte 0 WordTooLong"),
    (b"a 1234567890b", "byte 2 WordTooLong"),
    (
        b"# x\nabcdefghijklmnopqrstuvwxyz0123456789",
        "byte 4 WordTooLong",
    ),
];

#[test]
fn faulty_bytes(rt: HostRuntime) -> Result<(), Fail> {
    for (text, why) in &BYTES {
        assert!(rt; is_refused(rt.alloc(), text, why)?, "{text:?}");
    }
    Ok(())
}

const BEHIND_A_MILLION: [(&str, &str); 5] = [
    (" # all\n", "token 0 Syntax"),
    (" # all\n@", "byte 1000007 BadByte"),
    ("1234567890;", "byte 1000000 WordTooLong"),
    (";@", "TooManyTokens"),
    ("x", "TooManyTokens"),
];

#[test]
fn behind_a_million_tokens(rt: HostRuntime) -> Result<(), Fail> {
    for (more, why) in &BEHIND_A_MILLION {
        let mut text = vec![in rt.alloc(); b';'; 1_000_000]?;
        text.extend_from_slice(more.as_bytes())?;
        assert!(rt; is_refused(rt.alloc(), text.as_slice(), why)?, "{more}");
    }
    Ok(())
}
