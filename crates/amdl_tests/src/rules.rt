//! Each rule that a network keeps, broken by itself: the item and the rule that `check` and `analyse` tell.
use crate::texts::{refuses, replies};
use std::alloc::{AllocError, Global};
use std::test::Fail;

// The first two items of each text.
const BASE: &str = "network x;type A={a,b};field f:A;";

const NAME_TAKEN: [(&str, &str, u32); 20] = [
    ("a type twice", "type A={c};", 2),
    ("a value of another type", "type B={a};", 2),
    ("a value twice in a type", "type B={c,c};", 2),
    ("a type with a field for a value", "type B={f};", 2),
    ("a field named as a value", "field a:A;", 2),
    ("a field twice", "field f:A;", 2),
    (
        "a class twice",
        "middlebox m{port i;}middlebox m{port i;}",
        3,
    ),
    ("a port twice", "middlebox m{port i,i;}", 2),
    (
        "a relation twice",
        "middlebox m{port i;relation r(A);relation r(A);}",
        2,
    ),
    (
        "a pick named as a field",
        "middlebox m{port i;on i:{pick f:A in{}}}",
        2,
    ),
    (
        "a pick named as a value",
        "middlebox m{port i;on i:{pick a:A in{}}}",
        2,
    ),
    (
        "a pick within one of its name",
        "middlebox m{port i;on i:{pick x:A in{if true->{pick x:A in{}}fi}}}",
        2,
    ),
    (
        "a field twice in an output",
        "middlebox m{port i;on i:{output i[f:=a,f:=b];}}",
        2,
    ),
    ("a host twice", "host h;host h;", 3),
    ("a box twice", "middlebox m{port i;}box b:m;box b:m;", 4),
    (
        "a box named as a host",
        "middlebox m{port i;}host h;box h:m;",
        4,
    ),
    (
        "a host named as a box",
        "middlebox m{port i;}box h:m;host h;",
        4,
    ),
    ("a field twice in a pattern", "host h;sends h:f=a,f=b;", 3),
    (
        "a field twice in a forbidden pattern",
        "host h;forbid h:f=a,f=a;",
        3,
    ),
    ("before an unknown name", "field f:B;", 2),
];

const UNKNOWN_NAME: [(&str, &str, u32); 31] = [
    ("the type of a field", "field g:B;", 2),
    (
        "the type of an argument",
        "middlebox m{port i;relation r(B);}",
        2,
    ),
    (
        "the type of a pick",
        "middlebox m{port i;on i:{pick x:B in{}}}",
        2,
    ),
    ("a type behind it", "field g:B;type B={c};", 2),
    ("the class of a box", "box b:m;", 2),
    ("the host of a pattern", "sends h:f=a;", 2),
    ("the host of a forbidden pattern", "forbid h:f=a;", 2),
    (
        "a sender that is a box",
        "middlebox m{port i;}box b:m;sends b:true;",
        4,
    ),
    ("the host of an end", "host h;link h -- g;", 3),
    ("the box of an end", "host h;link b.i -- h;", 3),
    (
        "the port of an end",
        "middlebox m{port i;}box b:m;host h;link h -- b.o;",
        5,
    ),
    (
        "a box as the host of an end",
        "middlebox m{port i;}box b:m;host h;link h -- b;",
        5,
    ),
    (
        "a host as the box of an end",
        "host h;host g;link h -- g.i;",
        4,
    ),
    ("the port of a handler", "middlebox m{port i;on o:{}}", 2),
    (
        "the port of an output",
        "middlebox m{port i;on i:{output o;}}",
        2,
    ),
    (
        "the relation of an insertion",
        "middlebox m{port i;on i:{insert r(a);}}",
        2,
    ),
    (
        "the relation of a removal",
        "middlebox m{port i;on i:{remove r(a);}}",
        2,
    ),
    (
        "the relation of a test",
        "middlebox m{port i;on i:{if not(has r(a))->{}fi}}",
        2,
    ),
    (
        "the relation of a first tuple",
        "middlebox m{port i;}box b:m with r(a);",
        3,
    ),
    ("the field of a pattern", "host h;sends h:g=a;", 3),
    (
        "a value as the field of a pattern",
        "host h;sends h:a=a;",
        3,
    ),
    ("the value of a pattern", "host h;sends h:f=c;", 3),
    (
        "a field as the value of a pattern",
        "host h;sends h:f=f;",
        3,
    ),
    (
        "the field of an output",
        "middlebox m{port i;on i:{output i[g:=a];}}",
        2,
    ),
    (
        "the value of an output",
        "middlebox m{port i;on i:{output i[f:=c];}}",
        2,
    ),
    (
        "a first value",
        "middlebox m{port i;relation r(A);}box b:m with r(c);",
        3,
    ),
    (
        "a field as a first value",
        "middlebox m{port i;relation r(A);}box b:m with r(f);",
        3,
    ),
    (
        "a side of an equation",
        "middlebox m{port i;on i:{if f=c->{}fi}}",
        2,
    ),
    (
        "a side of a difference",
        "middlebox m{port i;on i:{if c!=f->{}fi}}",
        2,
    ),
    (
        "a pick that is closed",
        "middlebox m{port i;on i:{pick x:A in{} if f=x->{}fi}}",
        2,
    ),
    (
        "before another arity",
        "middlebox m{port i;relation r(A);on i:{insert r(f,c);}}",
        2,
    ),
];

const FIELD_LATE: [(&str, &str, u32); 4] = [
    ("behind a class", "middlebox m{port i;}field g:A;", 3),
    ("behind a host", "host h;field g:A;", 3),
    ("behind a box", "middlebox m{port i;}box b:m;field g:A;", 4),
    (
        "behind a type behind a host",
        "host h;type B={c};field g:B;",
        4,
    ),
];

const ARITY: [(&str, &str, u32); 4] = [
    (
        "of an insertion",
        "middlebox m{port i;relation r(A);on i:{insert r(f,f);}}",
        2,
    ),
    (
        "of a removal",
        "middlebox m{port i;relation r(A,A);on i:{remove r(f);}}",
        2,
    ),
    (
        "of a test",
        "middlebox m{port i;relation r(A,A);on i:{if true or has r(f)->{}fi}}",
        2,
    ),
    (
        "of a first tuple",
        "middlebox m{port i;relation r(A);}box b:m with r(a),r(a,b);",
        3,
    ),
];

const KIND_MISMATCH: [(&str, &str, u32); 9] = [
    ("of a pattern", "type B={c};host h;sends h:f=c;", 4),
    (
        "of a forbidden pattern",
        "type B={c};host h;forbid h:f=c;",
        4,
    ),
    (
        "of an equation",
        "type B={c};middlebox m{port i;on i:{if f=c->{}fi}}",
        3,
    ),
    (
        "of a difference",
        "type B={c};middlebox m{port i;on i:{if not c!=a->{}fi}}",
        3,
    ),
    (
        "of a pick",
        "type B={c};middlebox m{port i;on i:{pick x:B in{if x=f->{}fi}}}",
        3,
    ),
    (
        "of an output",
        "type B={c};middlebox m{port i;on i:{output i[f:=c];}}",
        3,
    ),
    (
        "of an argument",
        "type B={c};middlebox m{port i;relation r(B);on i:{insert r(f);}}",
        3,
    ),
    (
        "of a second argument",
        "type B={c};middlebox m{port i;relation r(A,B);on i:{if has r(f,f)->{}fi}}",
        3,
    ),
    (
        "of a first value",
        "type B={c};middlebox m{port i;relation r(B);}box b:m with r(a);",
        4,
    ),
];

const HANDLER_TWICE: [(&str, &str, u32); 2] = [
    (
        "behind one another",
        "middlebox m{port i;on i:{} on i:{}}",
        2,
    ),
    (
        "with one between",
        "middlebox m{port i,o;on i:{} on o:{} on i:{}}",
        2,
    ),
];

const END_TO_ITSELF: [(&str, &str, u32); 2] = [
    ("of a host", "host h;link h -- h;", 3),
    (
        "of a port",
        "middlebox m{port i;}box b:m;link b.i -- b.i;",
        4,
    ),
];

const END_TAKEN: [(&str, &str, u32); 4] = [
    (
        "the first end",
        "host h;host i;host j;link h -- i;link h -- j;",
        6,
    ),
    (
        "the second end",
        "host h;host i;host j;link h -- i;link j -- h;",
        6,
    ),
    (
        "both ends turned",
        "host h;host i;link h -- i;link i -- h;",
        5,
    ),
    (
        "a port",
        "middlebox m{port i;}box b:m;host h;host i;link b.i -- h;link i -- b.i;",
        7,
    ),
];

const SAME_ITEM: [(&str, &str, u32); 3] = [
    ("sent", "host h;sends h:f=a;sends h:f=a;", 4),
    ("forbidden", "host h;forbid h:true;forbid h:true;", 4),
    (
        "with one between",
        "host h;sends h:f=a;sends h:f=b;sends h:f=a;",
        5,
    ),
];

// Whether both verbs refuse these items behind the first two so.
fn is_broken(alloc: Global, items: &str, item: u32, rule: &str) -> Result<bool, Fail> {
    let mut text = String::from_str(alloc, BASE)?;
    text.push_str(items)?;
    refuses(alloc, text.as_str(), item, rule)
}

#[test]
fn names_taken(rt: HostRuntime) -> Result<(), Fail> {
    for (label, items, item) in &NAME_TAKEN {
        assert!(rt;
            is_broken(rt.alloc(), items, *item, "NameTaken")?,
            "{label}"
        );
    }
    Ok(())
}

#[test]
fn unknown_names(rt: HostRuntime) -> Result<(), Fail> {
    for (label, items, item) in &UNKNOWN_NAME {
        assert!(rt;
            is_broken(rt.alloc(), items, *item, "UnknownName")?,
            "{label}"
        );
    }
    Ok(())
}

#[test]
fn late_fields(rt: HostRuntime) -> Result<(), Fail> {
    for (label, items, item) in &FIELD_LATE {
        assert!(rt;
            is_broken(rt.alloc(), items, *item, "FieldLate")?,
            "{label}"
        );
    }
    Ok(())
}

#[test]
fn arities(rt: HostRuntime) -> Result<(), Fail> {
    for (label, items, item) in &ARITY {
        assert!(rt; is_broken(rt.alloc(), items, *item, "Arity")?, "{label}");
    }
    Ok(())
}

#[test]
fn types_that_differ(rt: HostRuntime) -> Result<(), Fail> {
    for (label, items, item) in &KIND_MISMATCH {
        assert!(rt;
            is_broken(rt.alloc(), items, *item, "KindMismatch")?,
            "{label}"
        );
    }
    Ok(())
}

#[test]
fn handlers_twice(rt: HostRuntime) -> Result<(), Fail> {
    for (label, items, item) in &HANDLER_TWICE {
        assert!(rt;
            is_broken(rt.alloc(), items, *item, "HandlerTwice")?,
            "{label}"
        );
    }
    Ok(())
}

#[test]
fn ends_to_themselves(rt: HostRuntime) -> Result<(), Fail> {
    for (label, items, item) in &END_TO_ITSELF {
        assert!(rt;
            is_broken(rt.alloc(), items, *item, "EndToItself")?,
            "{label}"
        );
    }
    Ok(())
}

#[test]
fn ends_taken(rt: HostRuntime) -> Result<(), Fail> {
    for (label, items, item) in &END_TAKEN {
        assert!(rt; is_broken(rt.alloc(), items, *item, "EndTaken")?, "{label}");
    }
    Ok(())
}

#[test]
fn same_items(rt: HostRuntime) -> Result<(), Fail> {
    for (label, items, item) in &SAME_ITEM {
        assert!(rt; is_broken(rt.alloc(), items, *item, "SameItem")?, "{label}");
    }
    Ok(())
}

const NO_FIELD: [(&str, &str, u32); 3] = [
    ("no item", "network x;", 0),
    ("a type and a host", "network x;type A={a};host h;", 2),
    (
        "a class that names no field",
        "network x;type A={a};middlebox m{port i;on i:{if a=a->{}fi}}",
        2,
    ),
];

#[test]
fn no_field(rt: HostRuntime) -> Result<(), Fail> {
    for (label, text, items) in &NO_FIELD {
        assert!(rt; refuses(rt.alloc(), text, *items, "NoField")?, "{label}");
    }
    Ok(())
}

const FIRST: [(&str, &str, u32, &str); 4] = [
    (
        "the first item of two",
        "host h;host h;type A={a};",
        3,
        "NameTaken",
    ),
    (
        "the first rule of two",
        "middlebox m{port i;relation r(A);on i:{insert r(f,c);}}",
        2,
        "UnknownName",
    ),
    (
        "a name taken before an unknown one",
        "field f:B;",
        2,
        "NameTaken",
    ),
    (
        "another rule before one on all items",
        "host h;link h -- h;host h;",
        3,
        "EndToItself",
    ),
];

#[test]
fn the_first_item_and_rule(rt: HostRuntime) -> Result<(), Fail> {
    for (label, items, item, rule) in &FIRST {
        assert!(rt; is_broken(rt.alloc(), items, *item, rule)?, "{label}");
    }
    Ok(())
}

// What comes close to a rule and keeps it, with what is told behind the name.
const KEPT: [(&str, &str, &str); 9] = [
    (
        "a class, a host and a port of one name",
        "middlebox h{port h;}host h;",
        "hosts 1 boxes 0 packets 2\ntypes 1 fields 1 classes 1 links 0\nends 1 cells 2\n",
    ),
    (
        "a type named as a field",
        "type f={c};",
        "hosts 0 boxes 0 packets 2\ntypes 2 fields 1 classes 0 links 0\nends 0 cells 0\n",
    ),
    (
        "two picks of one name behind one another",
        "middlebox m{port i;on i:{pick x:A in{} pick x:A in{}}}",
        "hosts 0 boxes 0 packets 2\ntypes 1 fields 1 classes 1 links 0\nends 0 cells 0\n",
    ),
    (
        "a field behind a type",
        "type B={c};field g:B;",
        "hosts 0 boxes 0 packets 2\ntypes 2 fields 2 classes 0 links 0\nends 0 cells 0\n",
    ),
    (
        "a port without a handler",
        "middlebox m{port i,o;on o:{output i;}}box b:m;",
        "hosts 0 boxes 1 packets 2\ntypes 1 fields 1 classes 1 links 0\nends 2 cells 8\n",
    ),
    (
        "one pattern sent and forbidden",
        "host h;sends h:f=a;forbid h:f=a;",
        "hosts 1 boxes 0 packets 2\ntypes 1 fields 1 classes 0 links 0\nends 1 cells 2\n",
    ),
    (
        "one pattern in two orders",
        "field g:A;host h;sends h:f=a,g=a;sends h:g=a,f=a;",
        "hosts 1 boxes 0 packets 4\ntypes 1 fields 2 classes 0 links 0\nends 1 cells 4\n",
    ),
    (
        "one first tuple twice",
        "middlebox m{port i;relation r(A);}box b:m with r(a),r(a);",
        "hosts 0 boxes 1 packets 2\ntypes 1 fields 1 classes 1 links 0\nends 1 cells 6\n",
    ),
    (
        "two ports of one box linked",
        "middlebox m{port i,o;}box b:m;link b.i -- b.o;",
        "hosts 0 boxes 1 packets 2\ntypes 1 fields 1 classes 1 links 1\nends 2 cells 8\n",
    ),
];

// Whether these items behind the first two have these counts.
fn is_counted(alloc: Global, items: &str, counts: &str) -> Result<bool, Fail> {
    let mut text = String::from_str(alloc, BASE)?;
    text.push_str(items)?;
    let told = format!(in alloc; "network x {counts}")?;
    replies(alloc, "check", text.as_bytes(), 0, told.as_bytes())
}

#[test]
fn kept_rules(rt: HostRuntime) -> Result<(), Fail> {
    for (label, items, counts) in &KEPT {
        assert!(rt; is_counted(rt.alloc(), items, counts)?, "{label}");
    }
    Ok(())
}
