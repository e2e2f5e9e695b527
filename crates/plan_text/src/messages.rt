ghost use Rattle.std.specs.Prelude.{◌≡◌, ◌++◌, codes, decimal, OnOk, OnErr};
ghost use Rattle.amdl_tree.specs.Appends.{AppendsPart};
ghost use Rattle.amdl_tree.specs.Layout.{line};
ghost use Rattle.plan_text.specs.Messages.{usage_text, refused_network, missing_text, fault_load_text, name_of_rule};
ghost use Rattle.plan_text.specs.Messages.{item_fault};

use crate::digits::Digits;
use crate::refusal::NetworkRefusal;
use amdl_tree::{NoMemory, put_all};
use tree_rules::Rule;

/// Appends how a call is written.
pub fn usage(out: &mut Vec<u8>) -> Result<(), NoMemory>
    ensures ok { OnOk result (out.new.items ≡ out.old.items ++ usage_text) }
    ensures err { OnErr result (AppendsPart out.old.items out.new.items usage_text) }
{
    put_all(
        out,
        &[
            b"usage: amdl VERB WORD [WORD]\n",
            b"verbs: analyse check format replay replay-ordered\n",
        ],
    )
}

/// Appends the refusal of a network text.
pub fn put_refused(refusal: NetworkRefusal, out: &mut Vec<u8>) -> Result<(), NoMemory>
    ensures ok { OnOk result (out.new.items ≡ out.old.items ++ refused_network refusal) }
    ensures err { OnErr result (AppendsPart out.old.items out.new.items (refused_network refusal)) }
{
    match refusal {
        NetworkRefusal::TooLong => put_reason(b"TooLong", out),
        NetworkRefusal::BadByte(at) => put_placed(b"byte ", at, b" BadByte", out),
        NetworkRefusal::WordTooLong(at) => put_placed(b"byte ", at, b" WordTooLong", out),
        NetworkRefusal::TooManyTokens => put_reason(b"TooManyTokens", out),
        NetworkRefusal::Syntax(at) => put_placed(b"token ", at, b" Syntax", out),
        NetworkRefusal::Deep(at) => put_placed(b"token ", at, b" Deep", out),
        NetworkRefusal::BrokenRule { item, rule } => put_broken(item, rule, out),
    }
}

// Appends a refusal for this reason.
fn put_reason(reason: &[u8], out: &mut Vec<u8>) -> Result<(), NoMemory>
    ensures ok { OnOk result (out.new.items ≡ out.old.items ++ line (codes "refused network " ++ reason.now)) }
    ensures err { OnErr result
        (AppendsPart out.old.items out.new.items (line (codes "refused network " ++ reason.now))) }
{
    put_all(out, &[b"refused network ", reason, b"\n"])
}

// Appends a refusal for a fault at a place, with what stands before the place and behind it.
fn put_placed(before: &[u8], at: u32, fault: &[u8], out: &mut Vec<u8>) -> Result<(), NoMemory>
    ensures ok { OnOk result (out.new.items
        ≡ out.old.items ++ line (codes "refused network " ++ (before.now ++ decimal at ++ fault.now))) }
    ensures err { OnErr result (AppendsPart out.old.items out.new.items
        (line (codes "refused network " ++ (before.now ++ decimal at ++ fault.now)))) }
{
    let place = Digits::of(at as u64);
    put_all(
        out,
        &[b"refused network ", before, place.bytes(), fault, b"\n"],
    )
}

// Appends a refusal for the rule that an item breaks.
fn put_broken(item: u32, rule: Rule, out: &mut Vec<u8>) -> Result<(), NoMemory>
    ensures ok { OnOk result (out.new.items
        ≡ out.old.items ++ line (codes "refused network " ++ item_fault item (codes " " ++ name_of_rule rule))) }
    ensures err { OnErr result (AppendsPart out.old.items out.new.items
        (line (codes "refused network " ++ item_fault item (codes " " ++ name_of_rule rule)))) }
{
    let place = Digits::of(item as u64);
    put_all(
        out,
        &[
            b"refused network ",
            b"item ",
            place.bytes(),
            b" ",
            rule_name(rule),
            b"\n",
        ],
    )
}

// The name of a rule.
fn rule_name(rule: Rule) -> &'static [u8]
    ensures { result.now ≡ name_of_rule rule }
{
    match rule {
        Rule::NameTaken => b"NameTaken",
        Rule::UnknownName => b"UnknownName",
        Rule::TooMany => b"TooMany",
        Rule::HeaderTooLarge => b"HeaderTooLarge",
        Rule::FieldLate => b"FieldLate",
        Rule::Arity => b"Arity",
        Rule::KindMismatch => b"KindMismatch",
        Rule::RelationTooLarge => b"RelationTooLarge",
        Rule::HandlerTwice => b"HandlerTwice",
        Rule::TooManyPaths => b"TooManyPaths",
        Rule::TooManyQueries => b"TooManyQueries",
        Rule::EndToItself => b"EndToItself",
        Rule::EndTaken => b"EndTaken",
        Rule::SameItem => b"SameItem",
        Rule::TooManyCells => b"TooManyCells",
        Rule::NoField => b"NoField",
    }
}

/// Appends that there is no file of this name.
pub fn put_missing(name: &[u8], out: &mut Vec<u8>) -> Result<(), NoMemory>
    ensures ok { OnOk result (out.new.items ≡ out.old.items ++ missing_text name.now) }
    ensures err { OnErr result (AppendsPart out.old.items out.new.items (missing_text name.now)) }
{
    put_all(out, &[b"missing ", name, b"\n"])
}

/// Appends that reading the file of this name failed.
pub fn put_fault_load(name: &[u8], out: &mut Vec<u8>) -> Result<(), NoMemory>
    ensures ok { OnOk result (out.new.items ≡ out.old.items ++ fault_load_text name.now) }
    ensures err { OnErr result (AppendsPart out.old.items out.new.items (fault_load_text name.now)) }
{
    put_all(out, &[b"fault load ", name, b"\n"])
}
