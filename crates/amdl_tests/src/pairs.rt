//! Of two rules that hold of one item the earlier one counts: each pair that can meet in one item.
use crate::texts::{put_pieces, refuses};
use std::alloc::{AllocError, Global};
use std::test::Fail;

// The first four items of each text; the last type has 17 values.
const BASE: &str =
    "network x;type A={a,b};type B={c};type T={d,e,h,i,j,l,m,n,o,p,q,r,s,t,u,v,w};field f:A;";

/// Items behind those, with the item and the rule at which they are refused.
type Pair = (&'static str, &'static str, u32, &'static str);

const CLASSES: [Pair; 36] = [
    (
        "a taken name before an unknown name",
        "middlebox m{port i,i;on i:{output z;}}",
        4,
        "NameTaken",
    ),
    (
        "a taken name before too many arguments",
        "middlebox m{port i,i;relation w(A,A,A,A,A);on i:{}}",
        4,
        "NameTaken",
    ),
    (
        "a taken name before an arity",
        "middlebox m{port i,i;relation r(A);on i:{insert r(f,f);}}",
        4,
        "NameTaken",
    ),
    (
        "a taken name before a type",
        "middlebox m{port i,i;relation r(A);on i:{insert r(c);}}",
        4,
        "NameTaken",
    ),
    (
        "a taken name before a large relation",
        "middlebox m{port i,i;relation q(T,T,T,T);on i:{}}",
        4,
        "NameTaken",
    ),
    (
        "a taken name before a handler twice",
        "middlebox m{port i,i;on i:{}on i:{}}",
        4,
        "NameTaken",
    ),
    (
        "a taken name before too many paths",
        "middlebox m{port i,i;on i:{pick x:T in{pick y:T in{pick z:T in{}}}}}",
        4,
        "NameTaken",
    ),
    (
        "a taken name before too many queries",
        "middlebox m{port i,i;relation s(T);on i:{pick x:T in{if has s(x)->{}fi}}}",
        4,
        "NameTaken",
    ),
    (
        "an unknown name before too many arguments",
        "middlebox m{port i;relation w(A,A,A,A,A);on i:{output z;}}",
        4,
        "UnknownName",
    ),
    (
        "an unknown name before an arity",
        "middlebox m{port i;relation r(A);on i:{output z;insert r(f,f);}}",
        4,
        "UnknownName",
    ),
    (
        "an unknown name before a type",
        "middlebox m{port i;relation r(A);on i:{output z;insert r(c);}}",
        4,
        "UnknownName",
    ),
    (
        "an unknown name before a large relation",
        "middlebox m{port i;relation q(T,T,T,T);on i:{output z;}}",
        4,
        "UnknownName",
    ),
    (
        "an unknown name before a handler twice",
        "middlebox m{port i;on i:{output z;}on i:{}}",
        4,
        "UnknownName",
    ),
    (
        "an unknown name before too many paths",
        "middlebox m{port i;on i:{output z;pick x:T in{pick y:T in{pick z:T in{}}}}}",
        4,
        "UnknownName",
    ),
    (
        "an unknown name before too many queries",
        "middlebox m{port i;relation s(T);on i:{output z;pick x:T in{if has s(x)->{}fi}}}",
        4,
        "UnknownName",
    ),
    (
        "too many arguments before an arity",
        "middlebox m{port i;relation r(A);relation w(A,A,A,A,A);on i:{insert r(f,f);}}",
        4,
        "TooMany",
    ),
    (
        "too many arguments before a type",
        "middlebox m{port i;relation r(A);relation w(A,A,A,A,A);on i:{insert r(c);}}",
        4,
        "TooMany",
    ),
    (
        "too many arguments before a large relation",
        "middlebox m{port i;relation w(A,A,A,A,A);relation q(T,T,T,T);on i:{}}",
        4,
        "TooMany",
    ),
    (
        "too many arguments before a handler twice",
        "middlebox m{port i;relation w(A,A,A,A,A);on i:{}on i:{}}",
        4,
        "TooMany",
    ),
    (
        "too many arguments before too many paths",
        "middlebox m{port i;relation w(A,A,A,A,A);on i:{pick x:T in{pick y:T in{pick z:T in{}}}}}",
        4,
        "TooMany",
    ),
    (
        "too many arguments before too many queries",
        "middlebox m{port i;relation s(T);relation w(A,A,A,A,A);on i:{pick x:T in{if has s(x)->{}fi}}}",
        4,
        "TooMany",
    ),
    (
        "an arity before a type",
        "middlebox m{port i;relation r(A);on i:{insert r(f,f);insert r(c);}}",
        4,
        "Arity",
    ),
    (
        "an arity before a large relation",
        "middlebox m{port i;relation r(A);relation q(T,T,T,T);on i:{insert r(f,f);}}",
        4,
        "Arity",
    ),
    (
        "an arity before a handler twice",
        "middlebox m{port i;relation r(A);on i:{insert r(f,f);}on i:{}}",
        4,
        "Arity",
    ),
    (
        "an arity before too many paths",
        "middlebox m{port i;relation r(A);on i:{insert r(f,f);pick x:T in{pick y:T in{pick z:T in{}}}}}",
        4,
        "Arity",
    ),
    (
        "an arity before too many queries",
        "middlebox m{port i;relation r(A);relation s(T);on i:{insert r(f,f);pick x:T in{if has s(x)->{}fi}}}",
        4,
        "Arity",
    ),
    (
        "a type before a large relation",
        "middlebox m{port i;relation r(A);relation q(T,T,T,T);on i:{insert r(c);}}",
        4,
        "KindMismatch",
    ),
    (
        "a type before a handler twice",
        "middlebox m{port i;relation r(A);on i:{insert r(c);}on i:{}}",
        4,
        "KindMismatch",
    ),
    (
        "a type before too many paths",
        "middlebox m{port i;relation r(A);on i:{insert r(c);pick x:T in{pick y:T in{pick z:T in{}}}}}",
        4,
        "KindMismatch",
    ),
    (
        "a type before too many queries",
        "middlebox m{port i;relation r(A);relation s(T);on i:{insert r(c);pick x:T in{if has s(x)->{}fi}}}",
        4,
        "KindMismatch",
    ),
    (
        "a large relation before a handler twice",
        "middlebox m{port i;relation q(T,T,T,T);on i:{}on i:{}}",
        4,
        "RelationTooLarge",
    ),
    (
        "a large relation before too many paths",
        "middlebox m{port i;relation q(T,T,T,T);on i:{pick x:T in{pick y:T in{pick z:T in{}}}}}",
        4,
        "RelationTooLarge",
    ),
    (
        "a large relation before too many queries",
        "middlebox m{port i;relation s(T);relation q(T,T,T,T);on i:{pick x:T in{if has s(x)->{}fi}}}",
        4,
        "RelationTooLarge",
    ),
    (
        "a handler twice before too many paths",
        "middlebox m{port i;on i:{pick x:T in{pick y:T in{pick z:T in{}}}}on i:{}}",
        4,
        "HandlerTwice",
    ),
    (
        "a handler twice before too many queries",
        "middlebox m{port i;relation s(T);on i:{pick x:T in{if has s(x)->{}fi}}on i:{}}",
        4,
        "HandlerTwice",
    ),
    (
        "too many paths before too many queries",
        "middlebox m{port i;relation s(T);on i:{pick x:T in{pick y:T in{pick z:T in{if has s(x)->{}fi}}}}}",
        4,
        "TooManyPaths",
    ),
];

const FIELDS: [Pair; 9] = [
    (
        "a taken name before an unknown type",
        "field f:Z;",
        4,
        "NameTaken",
    ),
    (
        "a taken name before a ninth field",
        "field g0:B;field g1:B;field g2:B;field g3:B;field g4:B;field g5:B;field g6:B;field f:B;",
        11,
        "NameTaken",
    ),
    (
        "a taken name before too many packets",
        "field g0:T;field g1:T;field g2:T;field f:T;",
        7,
        "NameTaken",
    ),
    (
        "a taken name before a late field",
        "host h;field f:A;",
        5,
        "NameTaken",
    ),
    (
        "an unknown type before a ninth field",
        "field g0:B;field g1:B;field g2:B;field g3:B;field g4:B;field g5:B;field g6:B;field k:Z;",
        11,
        "UnknownName",
    ),
    (
        "an unknown type before a late field",
        "host h;field k:Z;",
        5,
        "UnknownName",
    ),
    (
        "a ninth field before too many packets",
        "field g0:T;field g1:T;field g2:T;field g3:B;field g4:B;field g5:B;field g6:B;field k:T;",
        11,
        "TooMany",
    ),
    (
        "a ninth field before a late one",
        "field g0:B;field g1:B;field g2:B;field g3:B;field g4:B;field g5:B;field g6:B;host h;field k:B;",
        12,
        "TooMany",
    ),
    (
        "too many packets before a late field",
        "field g0:T;field g1:T;field g2:T;host h;field k:T;",
        8,
        "HeaderTooLarge",
    ),
];

const OTHERS: [Pair; 12] = [
    (
        "a taken name before an unknown class",
        "host h;box h:z;",
        5,
        "NameTaken",
    ),
    (
        "a taken name before an arity",
        "middlebox m{port i;relation r(A);}host h;box h:m with r(a,a);",
        6,
        "NameTaken",
    ),
    (
        "a taken name before a type",
        "middlebox m{port i;relation r(A);}host h;box h:m with r(c);",
        6,
        "NameTaken",
    ),
    (
        "an unknown value before an arity",
        "middlebox m{port i;relation r(A);}box n:m with r(z,a);",
        5,
        "UnknownName",
    ),
    (
        "an unknown value before a type",
        "middlebox m{port i;relation r(A);}box n:m with r(z),r(c);",
        5,
        "UnknownName",
    ),
    (
        "an arity before a type",
        "middlebox m{port i;relation r(A);}box n:m with r(c),r(a,a);",
        5,
        "Arity",
    ),
    (
        "an unknown end before one that is itself",
        "link z -- z;",
        4,
        "UnknownName",
    ),
    (
        "an unknown end before one that is taken",
        "host h;host k;link h -- k;link h -- z;",
        7,
        "UnknownName",
    ),
    (
        "an end that is itself before one that is taken",
        "host h;host k;link h -- k;link h -- h;",
        7,
        "EndToItself",
    ),
    (
        "a taken name before an unknown value of a pattern",
        "host h;sends h:f=a,f=z;",
        5,
        "NameTaken",
    ),
    (
        "a taken name before a type of a pattern",
        "host h;forbid h:f=a,f=c;",
        5,
        "NameTaken",
    ),
    (
        "an unknown value before a type of a pattern",
        "field g:A;host h;sends h:g=z,f=c;",
        6,
        "UnknownName",
    ),
];

// Whether these items behind the first four are refused so.
fn is_refused(alloc: Global, pair: &Pair) -> Result<bool, Fail> {
    let (_, items, item, rule) = pair;
    let mut text = String::from_str(alloc, BASE)?;
    text.push_str(items)?;
    refuses(alloc, text.as_str(), *item, rule)
}

#[test]
fn rules_of_a_class(rt: HostRuntime) -> Result<(), Fail> {
    for pair in &CLASSES {
        assert!(rt; is_refused(rt.alloc(), pair)?, "{}", pair.0);
    }
    Ok(())
}

#[test]
fn rules_of_a_field(rt: HostRuntime) -> Result<(), Fail> {
    for pair in &FIELDS {
        assert!(rt; is_refused(rt.alloc(), pair)?, "{}", pair.0);
    }
    Ok(())
}

#[test]
fn rules_of_other_items(rt: HostRuntime) -> Result<(), Fail> {
    for pair in &OTHERS {
        assert!(rt; is_refused(rt.alloc(), pair)?, "{}", pair.0);
    }
    Ok(())
}

/// A text with many pieces.
struct Crowd {
    label: &'static str,
    // how many values the third type has beside `t`
    values: u32,
    front: &'static str,
    // stands so many times behind the front, each time with its number in place of `@`
    piece: &'static str,
    count: u32,
    end: &'static str,
    // the item and the rule by which the text is refused
    item: u32,
    rule: &'static str,
}

const CROWDS: [Crowd; 15] = [
    Crowd {
        label: "a taken name before a 257th value",
        values: 0,
        front: "type A={d",
        piece: ",v@",
        count: 256,
        end: "};",
        item: 3,
        rule: "NameTaken",
    },
    Crowd {
        label: "a taken name before a 257th host",
        values: 0,
        front: "field f:A;",
        piece: "host h@;",
        count: 256,
        end: "host h0;",
        item: 260,
        rule: "NameTaken",
    },
    Crowd {
        label: "a taken name before a 257th box",
        values: 0,
        front: "field f:A;middlebox m{port i;}",
        piece: "box n@:m;",
        count: 256,
        end: "box n0:m;",
        item: 261,
        rule: "NameTaken",
    },
    Crowd {
        label: "an unknown class before a 257th box",
        values: 0,
        front: "field f:A;middlebox m{port i;}",
        piece: "box n@:m;",
        count: 256,
        end: "box k:z;",
        item: 261,
        rule: "UnknownName",
    },
    Crowd {
        label: "an unknown value before a 1,025th tuple",
        values: 0,
        front: "field f:A;middlebox m{port i;relation r(A);}box n:m with r(z)",
        piece: ",r(a)",
        count: 1024,
        end: ";",
        item: 5,
        rule: "UnknownName",
    },
    Crowd {
        label: "a 1,025th tuple before an arity",
        values: 0,
        front: "field f:A;middlebox m{port i;relation r(A);}box n:m with r(a,a)",
        piece: ",r(a)",
        count: 1024,
        end: ";",
        item: 5,
        rule: "TooMany",
    },
    Crowd {
        label: "a 1,025th tuple before a type",
        values: 0,
        front: "field f:A;middlebox m{port i;relation r(A);}box n:m with r(c)",
        piece: ",r(a)",
        count: 1024,
        end: ";",
        item: 5,
        rule: "TooMany",
    },
    Crowd {
        label: "a taken name before a 1,025th pattern",
        values: 0,
        front: "field f:A;field g:A;",
        piece: "host h@;sends h@:f=a;sends h@:f=b;sends h@:g=a;sends h@:g=b;",
        count: 256,
        end: "sends h0:f=a,f=b;",
        item: 1285,
        rule: "NameTaken",
    },
    Crowd {
        label: "an unknown host before a 1,025th pattern",
        values: 0,
        front: "field f:A;field g:A;",
        piece: "host h@;sends h@:f=a;sends h@:f=b;sends h@:g=a;sends h@:g=b;",
        count: 256,
        end: "sends z:f=a;",
        item: 1285,
        rule: "UnknownName",
    },
    Crowd {
        label: "a 1,025th pattern before a type",
        values: 0,
        front: "field f:A;field g:A;",
        piece: "host h@;sends h@:f=a;sends h@:f=b;sends h@:g=a;sends h@:g=b;",
        count: 256,
        end: "sends h0:f=c;",
        item: 1285,
        rule: "TooMany",
    },
    Crowd {
        label: "a 1,025th pattern before the same one",
        values: 0,
        front: "field f:A;field g:A;",
        piece: "host h@;sends h@:f=a;sends h@:f=b;sends h@:g=a;sends h@:g=b;",
        count: 256,
        end: "sends h0:f=a;",
        item: 1285,
        rule: "TooMany",
    },
    Crowd {
        label: "a 257th host before too many cells",
        values: 127,
        front: "field f:T;field g:T;",
        piece: "host h@;",
        count: 256,
        end: "host k;",
        item: 261,
        rule: "TooMany",
    },
    Crowd {
        label: "a taken name before too many cells",
        values: 255,
        front: "field f:T;field g:T;",
        piece: "host h@;",
        count: 64,
        end: "host h0;",
        item: 69,
        rule: "NameTaken",
    },
    Crowd {
        label: "an unknown value before too many cells",
        values: 255,
        front: "field f:T;field g:T;middlebox m{port i;relation r(T);}",
        piece: "host h@;",
        count: 64,
        end: "box n:m with r(z);",
        item: 70,
        rule: "UnknownName",
    },
    Crowd {
        label: "an arity before too many cells",
        values: 255,
        front: "field f:T;field g:T;middlebox m{port i;relation r(T);}",
        piece: "host h@;",
        count: 64,
        end: "box n:m with r(t,t);",
        item: 70,
        rule: "Arity",
    },
];

fn crowded(alloc: Global, crowd: &Crowd) -> Result<String, AllocError> {
    let mut text = String::from_str(alloc, "network x;type A={a,b};type B={c};type T={t")?;
    put_pieces(alloc, &mut text, ",t@", crowd.values)?;
    text.push_str("};")?;
    text.push_str(crowd.front)?;
    put_pieces(alloc, &mut text, crowd.piece, crowd.count)?;
    text.push_str(crowd.end)?;
    Ok(text)
}

#[test]
fn rules_of_many_items(rt: HostRuntime) -> Result<(), Fail> {
    for crowd in &CROWDS {
        let text = crowded(rt.alloc(), crowd)?;
        assert!(rt;
            refuses(rt.alloc(), text.as_str(), crowd.item, crowd.rule)?,
            "{}",
            crowd.label
        );
    }
    Ok(())
}
