//! Boxes with single writes at one port and two writes together at the other, written by hand.
use std::alloc::{AllocError, Global};

// Single writes at the port i, double ones at the port o.
const PAIRS: [&str; 12] = [
    "on i : { if has r(src) and has r(dst) -> { output o; } fi remove r(src); }
    on o : { remove r(src); remove r(dst); }",
    "on i : { if has r(src) and has r(dst) -> { output o; } fi remove r(dst); }
    on o : { remove r(src); remove r(dst); }",
    "on i : { if has r(src) and has r(dst) -> { remove r(src); } fi output o; }
    on o : { if has r(dst) -> { remove r(dst); remove r(src); } fi }",
    "on i : { if has r(src) and has s(src) -> { output o; } fi remove r(src); }
    on o : { remove r(src); remove s(src); }",
    "on i : { if has r(src) and has s(dst) -> { output o; } fi remove s(dst); }
    on o : { remove s(dst); remove r(src); }",
    "on i : { if has r(src) and has s(dst) -> { output o; } fi remove s(src); }
    on o : { remove r(dst); remove s(src); }",
    "on i : { if has r(src) and has r(a) -> { output o; } fi remove r(src); }
    on o : { remove r(src); remove r(a); }",
    "on i : { if has r(src) and has r(a) -> { output o; } fi remove r(a); }
    on o : { if has r(src) -> { remove r(a); remove r(src); } fi }",
    "on i : { if has r(src) and has r(dst) -> { output o; } fi insert r(src); }
    on o : { insert r(src); insert r(dst); }",
    "on i : { if has r(src) and not has s(dst) -> { output o; } fi remove r(src); }
    on o : { remove r(src); insert s(dst); }",
    "on i : { if has r(src) and has r(dst) and has s(a) -> { output o; } fi remove r(src); }
    on o : { remove r(src); remove r(dst); remove s(a); }",
    "on i : { if has r(src) or has r(dst) -> { remove r(src); output o; } | has r(b) -> { output o; } fi }
    on o : { remove r(dst); remove r(b); }",
];

const FIRSTS: [&str; 2] = [
    "box n : m with r(a), r(b), s(a), s(b);",
    "box n : m with s(a), r(b);",
];

/// The network of a number. The last half of the first forty-eight numbers has three values a field.
pub(crate) fn pair_text(alloc: Global, number: u32) -> Result<String, AllocError> {
    let values = if number < 24 { "{a, b}" } else { "{a, b, c}" };
    let mut text = String::from_str(alloc, "network n;\ntype Addr = ")?;
    text.push_str(values)?;
    text.push_str(
        ";\nfield src : Addr;\nfield dst : Addr;\nmiddlebox m { port i, o; relation r(Addr); relation s(Addr);\n",
    )?;
    text.push_str(PAIRS[(number % 12) as usize])?;
    text.push_str(" }\nhost h;\nhost k;\n")?;
    text.push_str(FIRSTS[(number / 12 % 2) as usize])?;
    text.push_str("\nlink h -- n.i;\nlink k -- n.o;\nsends h : true;\nsends k : true;\n")?;
    Ok(text)
}
