//! Small boxes, of which each step is compared with all executions.
ghost use Rattle.std.specs.Prelude.{◌≡◌, ◌<◌};

use crate::comparing::is_exact;
use crate::texts::{Planned, planned_of};
use amdl_tree::NoMemory;
use std::alloc::{AllocError, Global};
use std::marker::Brand;
use std::sync::ledger::{Blank, Ledger};
use std::test::Fail;
use step_count::Steps;

// A box of another class stands before the box of the handler.
const FRONT: &str = "network n;
type Addr = {a, b};
type Kind = {x, y, z};
field src : Addr;
field dst : Addr;
middlebox plain {
  port j;
  relation seen(Addr);
  on j : {
    if has seen(dst) -> {
      output j;
    } fi
    insert seen(src);
  }
}
middlebox m {
  port i, o;
";

const END: &str = "}
host h;
host k;
box first : plain;
box n : m;
link h -- n.i;
link k -- n.o;
sends h : true;
";

/// The relations of a class and the handler of its port `i`.
struct Case {
    label: &'static str,
    relations: &'static str,
    handler: &'static str,
}

const CASES: [Case; 10] = [
    Case {
        label: "an if within an if, with alternatives that are open together",
        relations: "relation r(Addr); relation s(Addr);",
        handler: "if has r(src) -> { if has s(dst) -> { output o; } | true -> { insert s(dst); } fi output i; }
            | not has r(src) or has s(dst) -> { insert r(src); if has s(dst) -> { remove s(dst); } fi } fi
            output o [dst := src];",
    },
    Case {
        label: "an if that opens no alternative",
        relations: "relation r(Addr);",
        handler: "if has r(src) and src = dst -> { output o; } | has r(dst) and dst = a -> { remove r(dst); } fi
            output i; insert r(src);",
    },
    Case {
        label: "a pick within a pick",
        relations: "relation p(Addr, Addr);",
        handler: "pick u : Addr in { pick w : Addr in {
            if has p(u, w) -> { remove p(u, w); output o [dst := w]; } | not u = w -> { insert p(w, u); } fi }
            output i [src := u]; }",
    },
    Case {
        label: "picks side by side",
        relations: "relation r(Addr);",
        handler: "pick u : Addr in { insert r(u); output o [src := u]; }
            pick w : Kind in { if has r(dst) -> { output i; } | src = a -> { remove r(dst); } fi }",
    },
    Case {
        label: "a pick of three values",
        relations: "relation q(Kind);",
        handler: "pick u : Kind in { if has q(u) -> { remove q(u); output o; }
            | not has q(u) -> { insert q(u); } fi }",
    },
    Case {
        label: "an insertion before a test of its tuple",
        relations: "relation r(Addr);",
        handler: "insert r(src); if has r(dst) -> { output o; } | not has r(dst) -> { output i; } fi
            if has r(src) -> { output o [src := dst]; } | not has r(src) -> { abort; } fi",
    },
    Case {
        label: "a removal of what was inserted",
        relations: "relation r(Addr);",
        handler: "insert r(src); output o; remove r(src);
            if has r(src) -> { abort; } | not has r(dst) -> { output i; insert r(dst); } fi",
    },
    Case {
        label: "an insertion of what was removed",
        relations: "relation r(Addr);",
        handler: "if has r(src) -> { remove r(src); if has r(src) -> { abort; } | true -> { insert r(dst); } fi }
            | has r(dst) -> { remove r(dst); insert r(dst); output o; } fi",
    },
    Case {
        label: "an abort behind an output",
        relations: "relation r(Addr);",
        handler: "insert r(dst); output o; if has r(src) -> { abort; } | true -> { output i; } fi output o;",
    },
    Case {
        label: "two queries with one tuple",
        relations: "relation r(Addr);",
        handler: "if has r(src) and has r(dst) -> { output o; } fi insert r(src);",
    },
];

fn text_of(alloc: Global, case: &Case) -> Result<String, AllocError> {
    let mut text = String::from_str(alloc, FRONT)?;
    text.push_str(case.relations)?;
    text.push_str(" on i : {")?;
    text.push_str(case.handler)?;
    text.push_str("}")?;
    text.push_str(END)?;
    Ok(text)
}

// Whether the text is a network whose boxes step as their executions do.
fn steps_so(alloc: Global, text: &str) -> Result<bool, NoMemory> {
    match planned_of(alloc, text)? {
        Some(planned) => is_exact_there(alloc, &planned),
        None => Ok(false),
    }
}

// The same of a network with its plan, with steps that are counted in a ledger of the call's own.
fn is_exact_there(alloc: Global, planned: &Planned) -> Result<bool, NoMemory>
    requires { planned.now.net ≡ planned.now.plan }
{
    counted::<Brand>(alloc, planned, Blank::new(1))
}

fn counted<L: Ledger>(alloc: Global, planned: &Planned, blank: Blank) -> Result<bool, NoMemory>
    requires name { blank.name ≡ L.name }
    requires parts { blank.parts ≡ L.parts }
    requires some { 0 < blank.parts }
    requires plan { planned.now.net ≡ planned.now.plan }
{
    let mut steps: Steps<L> = Steps::new(blank);
    is_exact(alloc, planned, &mut steps)
}

#[test]
fn small_boxes_step(rt: HostRuntime) -> Result<(), Fail> {
    for case in &CASES {
        let text = text_of(rt.alloc(), case)?;
        let exact = steps_so(rt.alloc(), text.as_str());
        assert!(rt; exact == Ok(true), "{}", case.label);
    }
    Ok(())
}
