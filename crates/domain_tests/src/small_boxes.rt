//! Small boxes, of which the facts are compared.
use crate::comparing::{Verdict, compare};
use std::alloc::{AllocError, Global};
use std::test::Fail;

/// A network, as its types and fields, its classes, and what stands behind them.
struct Case {
    label: &'static str,
    fields: &'static str,
    classes: &'static str,
    net: &'static str,
}

const TWO: &str = "network n;
type Addr = {a, b};
field src : Addr;
field dst : Addr;
";

const THREE: &str = "network n;
type Addr = {a, b, c};
field src : Addr;
field dst : Addr;
";

// The third field is of a type of its own.
const KINDS: &str = "network n;
type Addr = {a, b};
type Kind = {x, y};
field src : Addr;
field dst : Addr;
field kind : Kind;
";

const ONE: &str = "host h;
host k;
box n : m;
link h -- n.i;
link k -- n.o;
sends h : true;
sends k : true;
";

const FILLED: &str = "host h;
host k;
box n : m with r(a), r(b);
link h -- n.i;
link k -- n.o;
sends h : true;
sends k : true;
";

// Of two classes, in a row.
const ROW: &str = "host h;
host k;
box n : m with r(a);
box e : w;
link h -- n.i;
link n.o -- e.i;
link e.o -- k;
sends h : true;
sends k : dst = a;
";

// What the box puts out at one port comes in at another.
const LOOP: &str = "host h;
box n : m;
link h -- n.i;
link n.o -- n.p;
sends h : src = a;
";

const READERS: [Case; 6] = [
    Case {
        label: "three values, of which each is put in and taken out",
        fields: THREE,
        classes: "middlebox m { port i, o; relation r(Addr);
            on i : { if has r(dst) -> { output o; } fi insert r(src); }
            on o : { remove r(dst); } }",
        net: ONE,
    },
    Case {
        label: "tuples that other packets ask for are put in and taken out",
        fields: TWO,
        classes: "middlebox m { port i, o; relation r(Addr); relation s(Addr);
            on i : { if has r(src) -> { insert s(src); } | has s(src) -> { output o; } fi insert r(dst); }
            on o : { remove r(dst); } }",
        net: ONE,
    },
    Case {
        label: "tuples that other packets ask for are taken out and put in",
        fields: TWO,
        classes: "middlebox m { port i, o; relation r(Addr); relation s(Addr);
            on i : { if not has r(src) -> { insert s(src); } | has s(src) -> { output o; } fi remove r(dst); }
            on o : { insert r(dst); } }",
        net: FILLED,
    },
    Case {
        label: "a constant that all packets ask for, put in behind a removal",
        fields: TWO,
        classes: "middlebox m { port i, o; relation r(Addr); relation s(Addr);
            on i : { if has s(a) -> { output o; } | has r(src) and src = a -> { insert s(a); } fi }
            on o : { remove r(dst); } }",
        net: FILLED,
    },
    Case {
        label: "single removals at one port and double ones at the other",
        fields: TWO,
        classes: "middlebox m { port i, o; relation r(Addr);
            on i : { if has r(src) and has r(dst) -> { output o; } fi remove r(src); }
            on o : { remove r(src); remove r(dst); } }",
        net: FILLED,
    },
    Case {
        label: "twins are put in together and taken out one by one",
        fields: THREE,
        classes: "middlebox m { port i, o; relation r(Addr);
            on i : { if has r(src) and not has r(dst) -> { remove r(src); insert r(dst); output o; }
                | not has r(src) and not has r(dst) -> { insert r(src); insert r(dst); } fi }
            on o : { if has r(dst) -> { remove r(dst); output i; } fi } }",
        net: ONE,
    },
];

const GUARDS: [Case; 5] = [
    Case {
        label: "two alternatives with one guard",
        fields: TWO,
        classes: "middlebox m { port i, o; relation r(Addr); relation s(Addr);
            on i : { if has r(src) -> { remove r(src); insert s(dst); }
                | has r(src) -> { insert r(dst); remove s(src); output o; }
                | not has s(dst) -> { insert r(src); remove s(dst); } fi }
            on o : { if has s(src) -> { output i [dst := src]; } fi } }",
        net: ONE,
    },
    Case {
        label: "guards that ask for constants and fields of one relation",
        fields: TWO,
        classes: "middlebox m { port i, o; relation r(Addr);
            on i : { if has r(src) and not has r(a) -> { remove r(src); insert r(a); }
                | not has r(dst) -> { insert r(dst); output o; }
                | has r(a) and has r(b) -> { remove r(a); remove r(b); output o; } fi }
            on o : { if has r(a) -> { remove r(src); } fi } }",
        net: ONE,
    },
    Case {
        label: "five queries of three relations",
        fields: TWO,
        classes: "middlebox m { port i, o; relation r(Addr); relation s(Addr); relation t(Addr);
            on i : { if has r(src) and not has s(dst) -> { insert s(dst); remove t(src); }
                | has s(src) and has t(src) -> { remove s(src); insert r(dst); output o; } fi
                insert t(dst); }
            on o : { if has r(dst) -> { remove r(src); remove s(src); } | src = dst -> { insert r(src); } fi } }",
        net: ONE,
    },
    Case {
        label: "an abort behind writes and outputs",
        fields: KINDS,
        classes: "middlebox m { port i, o; relation r(Addr); relation s(Kind);
            on i : { insert r(src); output o; if has r(dst) and not has s(kind) -> { abort; }
                | has s(kind) -> { remove r(dst); output i [kind := x]; } fi }
            on o : { if src != dst -> { insert s(kind); } | has r(dst) -> { remove s(kind); remove r(src); } fi } }",
        net: ONE,
    },
    Case {
        label: "a write to a tuple that its packet asks for, and one to another",
        fields: THREE,
        classes: "middlebox m { port i, o; relation r(Addr);
            on i : { if has r(src) -> { remove r(src); insert r(dst); output o; }
                | not has r(src) -> { remove r(dst); insert r(src); } fi }
            on o : { insert r(b); remove r(src); } }",
        net: ONE,
    },
];

const LINKS: [Case; 3] = [
    Case {
        label: "a box that is linked to itself",
        fields: TWO,
        classes: "middlebox m { port i, o, p; relation r(Addr); relation s(Addr);
            on i : { insert r(src); output o [src := dst]; output o [dst := b]; }
            on p : { if has r(src) -> { remove r(dst); insert s(dst); output i; }
                | not has s(src) -> { insert r(dst); output o [src := dst, dst := src]; } fi } }",
        net: LOOP,
    },
    Case {
        label: "two boxes in a row",
        fields: TWO,
        classes: "middlebox m { port i, o; relation r(Addr);
            on i : { if has r(src) -> { output o; insert r(dst); } fi }
            on o : { if not has r(src) or has r(dst) -> { remove r(dst); output i; } fi } }
            middlebox w { port i, o; relation s(Addr);
            on i : { if has s(dst) -> { remove s(src); output o; } | true -> { insert s(src); } fi }
            on o : { if has s(a) -> { output i [src := b]; } fi } }",
        net: ROW,
    },
    Case {
        label: "picks over a relation of two arguments, in boxes in a row",
        fields: TWO,
        classes: "middlebox m { port i, o; relation r(Addr); relation p(Addr, Addr);
            on i : { pick u : Addr in { if has p(u, dst) -> { remove p(u, dst); output o [src := u]; }
                | not has r(u) -> { insert p(dst, u); insert p(src, dst); } fi } }
            on o : { insert r(src); remove p(src, src); } }
            middlebox w { port i, o; relation s(Addr, Addr);
            on i : { if has s(src, dst) -> { remove s(dst, src); output i; } | true -> { insert s(dst, src); } fi } }",
        net: ROW,
    },
];

fn text_of(alloc: Global, case: &Case) -> Result<String, AllocError> {
    let mut text = String::from_str(alloc, case.fields)?;
    text.push_str(case.classes)?;
    text.push_str(case.net)?;
    Ok(text)
}

#[test]
fn what_readers_find_is_the_same(rt: HostRuntime) -> Result<(), Fail> {
    for case in &READERS {
        let text = text_of(rt.alloc(), case)?;
        let verdict = compare(rt.alloc(), text.as_str());
        assert!(rt;
            verdict == Ok(Verdict::Same),
            "{}: {:?}",
            case.label,
            verdict
        );
    }
    Ok(())
}

#[test]
fn what_guards_find_is_the_same(rt: HostRuntime) -> Result<(), Fail> {
    for case in &GUARDS {
        let text = text_of(rt.alloc(), case)?;
        let verdict = compare(rt.alloc(), text.as_str());
        assert!(rt;
            verdict == Ok(Verdict::Same),
            "{}: {:?}",
            case.label,
            verdict
        );
    }
    Ok(())
}

#[test]
fn what_links_find_is_the_same(rt: HostRuntime) -> Result<(), Fail> {
    for case in &LINKS {
        let text = text_of(rt.alloc(), case)?;
        let verdict = compare(rt.alloc(), text.as_str());
        assert!(rt;
            verdict == Ok(Verdict::Same),
            "{}: {:?}",
            case.label,
            verdict
        );
    }
    Ok(())
}
