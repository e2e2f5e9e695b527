//! Networks of one box, made of pieces by a seeded generator.
//!
//! A handler has an alternative or two, the second often with the guard of the first. A guard asks one query or two.
//! An alternative writes first to the tuple that its guard asked for, then to others that the box may ask for.
use crate::dice::Dice;
use std::alloc::{AllocError, Global};

/// What the networks of one kind have alike.
struct Kind {
    /// Types and fields.
    fields: &'static str,
    /// The relations of the class.
    relations: &'static str,
    /// What may be asked for and written.
    atoms: [&'static str; 8],
    /// What packets that are put out have changed.
    changes: [&'static str; 4],
}

const KINDS: [Kind; 16] = [
    Kind {
        fields: "type Addr = {a, b}; field src : Addr; field dst : Addr;",
        relations: "relation r(Addr); relation s(Addr);",
        atoms: [
            "r(src)", "r(dst)", "s(src)", "s(dst)", "r(a)", "r(src)", "s(src)", "r(dst)",
        ],
        changes: [
            "",
            " [src := dst]",
            " [dst := a]",
            " [src := dst, dst := src]",
        ],
    },
    Kind {
        fields: "type Addr = {a, b, c}; field src : Addr; field dst : Addr;",
        relations: "relation r(Addr); relation s(Addr);",
        atoms: [
            "r(src)", "r(dst)", "s(src)", "r(src)", "s(dst)", "r(src)", "r(dst)", "s(src)",
        ],
        changes: ["", "", " [src := dst]", " [dst := a]"],
    },
    Kind {
        fields: "type Addr = {a, b}; field src : Addr; field dst : Addr;",
        relations: "relation r(Addr); relation s(Addr);",
        atoms: [
            "r(src)", "r(dst)", "r(a)", "r(b)", "s(src)", "r(src)", "r(dst)", "r(a)",
        ],
        changes: ["", "", " [dst := src]", " [src := b]"],
    },
    Kind {
        fields: "type Addr = {a, b, c}; field src : Addr; field dst : Addr;",
        relations: "relation r(Addr); relation s(Addr);",
        atoms: [
            "r(src)", "r(dst)", "r(a)", "r(src)", "r(dst)", "s(dst)", "r(dst)", "r(a)",
        ],
        changes: ["", "", " [src := dst]", " [dst := c]"],
    },
    Kind {
        fields: "type Addr = {a, b}; field src : Addr; field dst : Addr;",
        relations: "relation r(Addr); relation s(Addr); relation t(Addr);",
        atoms: [
            "r(src)", "s(src)", "t(src)", "r(dst)", "s(dst)", "r(src)", "s(src)", "t(src)",
        ],
        changes: ["", "", "", " [src := dst]"],
    },
    Kind {
        fields: "type Addr = {a, b, c}; field src : Addr; field dst : Addr;",
        relations: "relation r(Addr); relation s(Addr);",
        atoms: [
            "r(src)", "s(dst)", "s(src)", "r(dst)", "r(src)", "s(dst)", "s(src)", "r(dst)",
        ],
        changes: ["", "", " [dst := src]", " [src := dst, dst := src]"],
    },
    Kind {
        fields: "type Addr = {a, b}; field src : Addr; field dst : Addr;",
        relations: "relation r(Addr); relation s(Addr); relation t(Addr);",
        atoms: [
            "r(src)", "r(dst)", "s(a)", "s(src)", "t(dst)", "r(src)", "r(dst)", "t(dst)",
        ],
        changes: [
            "",
            " [dst := a]",
            " [dst := b]",
            " [src := dst, dst := src]",
        ],
    },
    Kind {
        fields: "type Addr = {a, b, c}; field src : Addr; field dst : Addr;",
        relations: "relation r(Addr); relation s(Addr);",
        atoms: [
            "r(src)", "r(dst)", "s(src)", "s(a)", "r(src)", "r(dst)", "s(src)", "s(a)",
        ],
        changes: ["", "", " [src := b]", " [dst := c]"],
    },
    Kind {
        fields: "type Addr = {a, b}; field src : Addr; field dst : Addr;",
        relations: "relation r(Addr); relation s(Addr); relation t(Addr, Addr);",
        atoms: [
            "t(src, dst)",
            "t(dst, src)",
            "r(src)",
            "r(dst)",
            "t(a, b)",
            "t(src, dst)",
            "t(dst, src)",
            "r(src)",
        ],
        changes: ["", "", " [src := dst]", " [src := dst, dst := src]"],
    },
    Kind {
        fields: "type Addr = {a, b, c}; field src : Addr; field dst : Addr;",
        relations: "relation r(Addr); relation s(Addr); relation t(Addr);",
        atoms: [
            "r(src)", "s(src)", "t(dst)", "r(src)", "s(src)", "t(dst)", "r(dst)", "r(dst)",
        ],
        changes: ["", "", " [src := dst]", " [dst := b]"],
    },
    Kind {
        fields: "type Addr = {a, b}; field src : Addr; field dst : Addr;",
        relations: "relation r(Addr); relation s(Addr); relation t(Addr, Addr);",
        atoms: [
            "t(src, src)",
            "t(src, dst)",
            "t(a, dst)",
            "r(dst)",
            "s(dst)",
            "t(a, dst)",
            "t(src, dst)",
            "r(dst)",
        ],
        changes: ["", "", " [dst := src]", " [src := a]"],
    },
    Kind {
        fields: "type Addr = {a, b, c}; field src : Addr; field dst : Addr;",
        relations: "relation r(Addr); relation s(Addr); relation t(Addr, Addr);",
        atoms: [
            "t(src, dst)",
            "t(dst, src)",
            "r(src)",
            "r(dst)",
            "t(src, dst)",
            "t(dst, src)",
            "r(src)",
            "r(dst)",
        ],
        changes: ["", "", " [src := dst, dst := src]", " [src := a]"],
    },
    Kind {
        fields: "type Addr = {a, b}; type Kind = {x, y}; field src : Addr; field kind : Kind;",
        relations: "relation r(Addr); relation s(Addr); relation t(Addr, Kind);",
        atoms: [
            "r(src)",
            "t(src, kind)",
            "t(a, kind)",
            "s(src)",
            "t(src, x)",
            "t(src, kind)",
            "t(a, kind)",
            "r(src)",
        ],
        changes: ["", "", " [kind := y]", " [src := a, kind := x]"],
    },
    Kind {
        fields: "type Addr = {a, b, c}; type Kind = {x, y}; field src : Addr; field kind : Kind;",
        relations: "relation r(Addr); relation s(Addr); relation t(Addr, Kind);",
        atoms: [
            "r(src)",
            "t(src, kind)",
            "t(a, kind)",
            "s(src)",
            "r(src)",
            "t(src, kind)",
            "t(a, kind)",
            "t(src, x)",
        ],
        changes: ["", "", " [kind := x]", " [src := b]"],
    },
    Kind {
        fields: "type Addr = {a, b, c, d}; field src : Addr;",
        relations: "relation r(Addr); relation s(Addr);",
        atoms: [
            "r(src)", "r(a)", "r(b)", "s(src)", "s(c)", "r(src)", "s(src)", "r(a)",
        ],
        changes: ["", "", " [src := a]", " [src := d]"],
    },
    Kind {
        fields: "type Addr = {a, b, c}; type Kind = {x, y}; field src : Addr; field kind : Kind;",
        relations: "relation r(Addr); relation s(Addr); relation t(Kind);",
        atoms: [
            "r(src)", "r(a)", "r(b)", "s(src)", "t(kind)", "r(src)", "t(kind)", "s(src)",
        ],
        changes: ["", "", " [kind := x]", " [src := b]"],
    },
];

const ASKS: [&str; 4] = ["has ", "has ", "not has ", "not has "];

const JOINS: [&str; 8] = [
    "",
    " and has ",
    " and has ",
    " and not has ",
    " and not has ",
    " and not has ",
    " or has ",
    " or not has ",
];

const VERBS: [&str; 4] = ["insert ", "insert ", "remove ", "remove "];

const ENDS: [&str; 8] = [
    "; }",
    "; }",
    "; output o; }",
    "; output o; }",
    "; output i; }",
    "; output o; output i; }",
    "; output p; }",
    "; abort; }",
];

const FIRSTS: [&str; 8] = [
    "box n : m;\n",
    "box n : m;\n",
    "box n : m with r(a);\n",
    "box n : m with r(a), r(b);\n",
    "box n : m with r(a), s(b);\n",
    "box n : m with s(a), s(b);\n",
    "box n : m with r(a), r(b), s(a), s(b);\n",
    "box n : m with s(a);\n",
];

const SENDERS: [&str; 4] = [
    "link h -- n.i; link k -- n.o; sends h : true; sends k : true;",
    "link h -- n.i; link k -- n.o; host g; link g -- n.p; sends h : true; sends k : true; sends g : true;",
    "link h -- n.i; link k -- n.o; host g; link g -- n.p; sends h : true; sends k : true; sends g : src = b;",
    "link h -- n.i; link k -- n.o; host g; link g -- n.p; sends h : true; sends k : src = b; sends g : true;",
];

/// What a guard asks: a query, and perhaps another behind it.
#[derive(Clone, Copy)]
struct Guard {
    ask: &'static str,
    atom: &'static str,
    join: &'static str,
    other: &'static str,
}

/// The network of a number.
pub(crate) fn made_text(alloc: Global, number: u32) -> Result<String, AllocError> {
    let place = (number % 16) as usize;
    text_of_kind(alloc, &KINDS[place], Dice::new(number))
}

// A network of a kind.
fn text_of_kind(alloc: Global, kind: &Kind, mut dice: Dice) -> Result<String, AllocError> {
    let mut text = String::from_str(alloc, "network n;\n")?;
    text.push_str(kind.fields)?;
    text.push_str("\nmiddlebox m { port i, o, p; ")?;
    text.push_str(kind.relations)?;
    push_first_handler(kind, &mut dice, &mut text)?;
    push_second_handler(kind, &mut dice, &mut text)?;
    push_third_handler(kind, &mut dice, &mut text)?;
    push_net(&mut dice, &mut text)?;
    Ok(text)
}

// What stands behind the handlers.
fn push_net(dice: &mut Dice, text: &mut String) -> Result<(), AllocError> {
    text.push_str(" }\nhost h;\nhost k;\n")?;
    text.push_str(dice.of_eight(&FIRSTS))?;
    text.push_str(dice.of_four(&SENDERS))
}

// Two alternatives, and perhaps a write behind them.
fn push_first_handler(kind: &Kind, dice: &mut Dice, text: &mut String) -> Result<(), AllocError> {
    let guard = guard_of(kind, dice);
    let next = guard_of(kind, dice);
    let same = dice.roll() % 2 == 0;
    text.push_str("\non i : { if ")?;
    push_alternative(kind, guard, dice, text)?;
    text.push_str("\n| ")?;
    push_alternative(kind, if same { guard } else { next }, dice, text)?;
    text.push_str(" fi")?;
    if dice.roll() % 2 == 0 {
        push_write(kind, dice, text)?;
        text.push_str(";")?;
    }
    text.push_str(" }")
}

// One alternative, or another and two writes behind it.
fn push_second_handler(kind: &Kind, dice: &mut Dice, text: &mut String) -> Result<(), AllocError> {
    let guard = guard_of(kind, dice);
    text.push_str("\non o : { if ")?;
    push_alternative(kind, guard, dice, text)?;
    text.push_str(" fi")?;
    if dice.roll() % 2 == 0 {
        push_write(kind, dice, text)?;
        text.push_str(";")?;
        push_write(kind, dice, text)?;
        text.push_str(";")?;
    }
    text.push_str(" }")
}

// An alternative and a write.
fn push_third_handler(kind: &Kind, dice: &mut Dice, text: &mut String) -> Result<(), AllocError> {
    let guard = guard_of(kind, dice);
    text.push_str("\non p : { if ")?;
    push_alternative(kind, guard, dice, text)?;
    text.push_str(" fi")?;
    push_write(kind, dice, text)?;
    text.push_str("; }")
}

fn guard_of(kind: &Kind, dice: &mut Dice) -> Guard {
    Guard {
        ask: dice.of_four(&ASKS),
        atom: dice.of_eight(&kind.atoms),
        join: dice.of_eight(&JOINS),
        other: dice.of_eight(&kind.atoms),
    }
}

// A guard with what is done where it holds: writes, the first of them to what was asked for, and outputs.
fn push_alternative(
    kind: &Kind,
    guard: Guard,
    dice: &mut Dice,
    text: &mut String,
) -> Result<(), AllocError> {
    text.push_str(guard.ask)?;
    text.push_str(guard.atom)?;
    text.push_str(guard.join)?;
    if !guard.join.is_empty() {
        text.push_str(guard.other)?;
    }
    text.push_str(" -> { ")?;
    text.push_str(dice.of_four(&VERBS))?;
    text.push_str(guard.atom)?;
    text.push_str(";")?;
    push_write(kind, dice, text)?;
    if dice.roll() % 2 == 0 {
        text.push_str(";")?;
        push_write(kind, dice, text)?;
    }
    if dice.roll() % 4 == 0 {
        text.push_str("; output o")?;
        text.push_str(dice.of_four(&kind.changes))?;
    }
    text.push_str(dice.of_eight(&ENDS))
}

// A write to what may be asked for.
fn push_write(kind: &Kind, dice: &mut Dice, text: &mut String) -> Result<(), AllocError> {
    text.push_str(" ")?;
    text.push_str(dice.of_four(&VERBS))?;
    text.push_str(dice.of_eight(&kind.atoms))
}
