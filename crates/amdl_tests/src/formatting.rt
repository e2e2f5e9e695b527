//! `format` over files that are sure.
use crate::networks;
use crate::refusals::is_refused;
use crate::texts::{misses, replies};
use std::alloc::{AllocError, Global};
use std::test::Fail;

#[test]
fn networks_are_their_own_layout(rt: HostRuntime) -> Result<(), Fail> {
    for text in &networks::ALL {
        let bytes = text.as_bytes();
        assert!(rt; replies(rt.alloc(), "format", bytes, 0, bytes)?, "{text}");
    }
    Ok(())
}

// Every form of an item, a statement and a literal.
const FORMS: &str = "network x;
type A = {a, b};
field f : A;
middlebox c {
  port i, o;
  relation r(A, A);
  on i : {
    if has r(f, g) and not (f = a or true) -> {
      insert r(a);
      pick y : A in {
      }
    } | f != g -> {
      abort;
    } fi
    remove r(b);
    output o [f := g, g := a];
    output o;
  }
}
host p;
box g : c with r(a, b), r(b, a);
box h : c;
link p -- g.i;
sends p : f = a, g = b;
forbid p : true;
";

const LAYOUTS: [(&str, &str, &str); 5] = [
    ("each form", FORMS, FORMS),
    ("a name alone", "network x;", "network x;\n"),
    (
        "close together, with a comment, tab and CR",
        "network x;type A={a,b};field f:A; # no more\r\n\t",
        "network x;\ntype A = {a, b};\nfield f : A;\n",
    ),
    (
        "a network that isn't well formed",
        "network expire; host h; host h; link h -- h; sends g : z = y, z = y;",
        "network expire;\nhost h;\nhost h;\nlink h -- h;\nsends g : z = y, z = y;\n",
    ),
    (
        "an empty class",
        "network x; middlebox m { port i; on i : { } }",
        "network x;\nmiddlebox m {\n  port i;\n  on i : {\n  }\n}\n",
    ),
];

#[test]
fn layouts(rt: HostRuntime) -> Result<(), Fail> {
    for (label, text, layout) in &LAYOUTS {
        let laid = replies(rt.alloc(), "format", text.as_bytes(), 0, layout.as_bytes())?;
        assert!(rt; laid, "{label}");
    }
    Ok(())
}

// A handler with so many `not` in a guard.
fn denied(alloc: Global, nots: u32) -> Result<String, AllocError> {
    let mut text = String::from_str(
        alloc,
        "network x;\nmiddlebox m {\n  port i;\n  on i : {\n    if ",
    )?;
    for _ in 0..nots {
        text.push_str("not ")?;
    }
    text.push_str("true -> {\n    } fi\n  }\n}\n")?;
    Ok(text)
}

// Whether a handler with so many `not` is its own layout.
fn is_laid(alloc: Global, nots: u32) -> Result<bool, Fail> {
    let text = denied(alloc, nots)?;
    replies(alloc, "format", text.as_bytes(), 0, text.as_bytes())
}

// Whether it is refused with these words.
fn is_too_deep(alloc: Global, nots: u32, why: &str) -> Result<bool, Fail> {
    let text = denied(alloc, nots)?;
    is_refused(alloc, text.as_bytes(), why)
}

#[test]
fn the_thirty_third_level(rt: HostRuntime) -> Result<(), Fail> {
    assert!(rt; is_laid(rt.alloc(), 31)?, "31 not within an if");
    assert!(rt;
        is_too_deep(rt.alloc(), 32, "token 45 Deep")?,
        "32 not within an if"
    );
    Ok(())
}

const LIMITS: [(&str, usize, &str); 2] = [
    ("4,194,304 blanks", 4_194_304, "token 0 Syntax"),
    ("4,194,305 blanks", 4_194_305, "TooLong"),
];

#[test]
fn the_limits(rt: HostRuntime) -> Result<(), Fail> {
    for (label, count, why) in &LIMITS {
        let text = vec![in rt.alloc(); b' '; *count]?;
        assert!(rt; is_refused(rt.alloc(), text.as_slice(), why)?, "{label}");
    }
    Ok(())
}

#[test]
fn no_such_file(rt: HostRuntime) -> Result<(), Fail> {
    assert!(rt; misses(rt.alloc(), "format")?, "no such file");
    Ok(())
}
