//! Each limit of a network, at its value and one above.
use crate::texts::{put_pieces, reply_of};
use std::alloc::{AllocError, Global};
use std::test::Fail;

/// A text that is at a limit, and with `more` one above it.
struct Limit {
    label: &'static str,
    front: &'static str,
    // stands so many times behind the front, each time with its number in place of `@`
    piece: &'static str,
    count: u32,
    // what is one too many
    more: &'static str,
    end: &'static str,
    // the item and the rule by which the text with more is refused
    item: u32,
    rule: &'static str,
}

const LIMITS: [Limit; 22] = [
    Limit {
        label: "32 types",
        front: "network x;type A={a,b};field f:A;",
        piece: "type T@={v@};",
        count: 31,
        more: "type Z={z};",
        end: "",
        item: 33,
        rule: "TooMany",
    },
    Limit {
        label: "256 values of a type",
        front: "network x;type A={a",
        piece: ",v@",
        count: 255,
        more: ",z",
        end: "};field f:A;",
        item: 0,
        rule: "TooMany",
    },
    Limit {
        label: "8 fields",
        front: "network x;type A={a};",
        piece: "field f@:A;",
        count: 8,
        more: "field z:A;",
        end: "",
        item: 9,
        rule: "TooMany",
    },
    Limit {
        label: "64 classes",
        front: "network x;type A={a,b};field f:A;",
        piece: "middlebox m@{port i;}",
        count: 64,
        more: "middlebox z{port i;}",
        end: "",
        item: 66,
        rule: "TooMany",
    },
    Limit {
        label: "32 ports",
        front: "network x;type A={a,b};field f:A;middlebox m{port i",
        piece: ",p@",
        count: 31,
        more: ",z",
        end: ";}",
        item: 2,
        rule: "TooMany",
    },
    Limit {
        label: "16 relations",
        front: "network x;type A={a,b};field f:A;middlebox m{port i;",
        piece: "relation r@(A);",
        count: 16,
        more: "relation z(A);",
        end: "}",
        item: 2,
        rule: "TooMany",
    },
    Limit {
        label: "4 arguments",
        front: "network x;type A={a,b};field f:A;middlebox m{port i;relation r(A",
        piece: ",A",
        count: 3,
        more: ",A",
        end: ");}",
        item: 2,
        rule: "TooMany",
    },
    Limit {
        label: "1,024 statements",
        front: "network x;type A={a,b};field f:A;middlebox m{port i;on i:{",
        piece: "abort;",
        count: 1024,
        more: "abort;",
        end: "}}",
        item: 2,
        rule: "TooMany",
    },
    Limit {
        label: "4,096 literals",
        front: "network x;type A={a,b};field f:A;middlebox m{port i;on i:{if true",
        piece: " or true",
        count: 4095,
        more: " or true",
        end: "->{}fi}}",
        item: 2,
        rule: "TooMany",
    },
    Limit {
        label: "4,096 literals, half of them denials",
        front: "network x;type A={a,b};field f:A;middlebox m{port i;on i:{if not true",
        piece: " or not true",
        count: 2047,
        more: " or true",
        end: "->{}fi}}",
        item: 2,
        rule: "TooMany",
    },
    Limit {
        label: "4,096 literals, half of them groups",
        front: "network x;type A={a,b};field f:A;middlebox m{port i;on i:{if (true)",
        piece: " or (true)",
        count: 2047,
        more: " or true",
        end: "->{}fi}}",
        item: 2,
        rule: "TooMany",
    },
    Limit {
        label: "256 hosts",
        front: "network x;type A={a,b};field f:A;",
        piece: "host h@;",
        count: 256,
        more: "host z;",
        end: "",
        item: 258,
        rule: "TooMany",
    },
    Limit {
        label: "256 boxes",
        front: "network x;type A={a,b};field f:A;middlebox m{port i;}",
        piece: "box b@:m;",
        count: 256,
        more: "box z:m;",
        end: "",
        item: 259,
        rule: "TooMany",
    },
    Limit {
        label: "1,024 first tuples",
        front: "network x;type A={a,b};field f:A;middlebox m{port i;relation r(A);}box b:m with r(a)",
        piece: ",r(a)",
        count: 1023,
        more: ",r(b)",
        end: ";",
        item: 3,
        rule: "TooMany",
    },
    Limit {
        label: "1,024 sends items",
        front: "network x;type A={v0,v1,v2,v3,v4,v5,v6,v7};field f:A;",
        piece: "host h@;sends h@:f=v0;sends h@:f=v1;sends h@:f=v2;sends h@:f=v3;sends h@:f=v4;sends h@:f=v5;sends h@:f=v6;sends h@:f=v7;",
        count: 128,
        more: "sends h0:true;",
        end: "",
        item: 1154,
        rule: "TooMany",
    },
    Limit {
        label: "1,024 forbid items",
        front: "network x;type A={v0,v1,v2,v3,v4,v5,v6,v7};field f:A;",
        piece: "host h@;forbid h@:f=v0;forbid h@:f=v1;forbid h@:f=v2;forbid h@:f=v3;forbid h@:f=v4;forbid h@:f=v5;forbid h@:f=v6;forbid h@:f=v7;",
        count: 128,
        more: "forbid h0:true;",
        end: "",
        item: 1154,
        rule: "TooMany",
    },
    Limit {
        label: "65,536 packets",
        front: "network x;type A={v0,v1,v2,v3,v4,v5,v6,v7,v8,v9,v10,v11,v12,v13,v14,v15};",
        piece: "field f@:A;",
        count: 4,
        more: "field z:A;",
        end: "",
        item: 5,
        rule: "HeaderTooLarge",
    },
    Limit {
        label: "1,024 paths of alternatives",
        front: "network x;type A={a,b};field f:A;middlebox m{port i;on i:{if true->{}",
        piece: "|true->{}",
        count: 1022,
        more: "|true->{}",
        end: "fi}}",
        item: 2,
        rule: "TooManyPaths",
    },
    Limit {
        label: "1,024 paths of picks",
        front: "network x;type A={a,b};field f:A;middlebox m{port i;on i:{",
        piece: "pick x:A in{}",
        count: 10,
        more: "pick x:A in{}",
        end: "}}",
        item: 2,
        rule: "TooManyPaths",
    },
    Limit {
        label: "12 queries",
        front: "network x;type A={v0,v1,v2,v3,v4,v5,v6,v7,v8,v9,v10,v11,v12,v13,v14,v15};field f:A;middlebox m{port i;relation r(A);on i:{if true",
        piece: " and has r(v@)",
        count: 12,
        more: " and has r(v12)",
        end: "->{}fi}}",
        item: 2,
        rule: "TooManyQueries",
    },
    Limit {
        label: "4,194,304 cells",
        front: "network x;type A={v0,v1,v2,v3,v4,v5,v6,v7,v8,v9,v10,v11,v12,v13,v14,v15};field f:A;field g:A;field k:A;field l:A;",
        piece: "host h@;",
        count: 64,
        more: "host z;",
        end: "",
        item: 69,
        rule: "TooManyCells",
    },
    Limit {
        label: "4,194,304 cells with boxes",
        front: "network x;type A={v0,v1,v2,v3,v4,v5,v6,v7,v8,v9,v10,v11,v12,v13,v14,v15};field f:A;field g:A;field k:A;field l:A;middlebox m{port i;}host h;",
        piece: "box b@:m;",
        count: 21,
        more: "host z;",
        end: "",
        item: 28,
        rule: "TooManyCells",
    },
];

// The text of a limit with this behind its pieces.
fn text_of(alloc: Global, limit: &Limit, more: &str) -> Result<String, AllocError> {
    let mut text = String::from_str(alloc, limit.front)?;
    put_pieces(alloc, &mut text, limit.piece, limit.count)?;
    text.push_str(more)?;
    text.push_str(limit.end)?;
    Ok(text)
}

#[test]
fn at_each_limit(rt: HostRuntime) -> Result<(), Fail> {
    for limit in &LIMITS {
        let text = text_of(rt.alloc(), limit, "")?;
        let (status, out) = reply_of(rt.alloc(), "check", text.as_bytes())?;
        let lines = out.bytes().iter().filter(|byte| **byte == b'\n').count();
        assert!(rt; status == 0 && lines == 3, "{}", limit.label);
    }
    Ok(())
}

#[test]
fn above_each_limit(rt: HostRuntime) -> Result<(), Fail> {
    for limit in &LIMITS {
        let text = text_of(rt.alloc(), limit, limit.more)?;
        let (status, out) = reply_of(rt.alloc(), "check", text.as_bytes())?;
        let line = format!(in rt.alloc(); "refused network item {} {}\n", limit.item, limit.rule)?;
        assert!(rt;
            status == 3 && out.bytes() == line.as_bytes(),
            "{}",
            limit.label
        );
    }
    Ok(())
}

// A class with a relation of four arguments, of a type with these values.
fn wide_relation(alloc: Global, values: &str) -> Result<String, AllocError> {
    format!(in alloc;
        "network x;type A={{{values}}};field f:A;middlebox m{{port i;relation r(A,A,A,A);}}"
    )
}

const VALUES: [(&str, u8); 2] = [
    ("v0,v1,v2,v3,v4,v5,v6,v7,v8,v9,v10,v11,v12,v13,v14,v15", 0),
    (
        "v0,v1,v2,v3,v4,v5,v6,v7,v8,v9,v10,v11,v12,v13,v14,v15,v16",
        3,
    ),
];

#[test]
fn tuples_of_a_relation(rt: HostRuntime) -> Result<(), Fail> {
    for (values, expected) in &VALUES {
        let text = wide_relation(rt.alloc(), values)?;
        let (status, out) = reply_of(rt.alloc(), "check", text.as_bytes())?;
        let refused = out.bytes() == b"refused network item 2 RelationTooLarge\n".as_slice();
        assert!(rt; status == *expected && refused == (status == 3), "{values}");
    }
    Ok(())
}
