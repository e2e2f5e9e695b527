ghost use Rattle.std.specs.Prelude.{◌≡◌, ◌++◌, [], ◌∷◌, All, codes, map, OnOk};
ghost use Rattle.std.specs.List.{flat_map};
ghost use Rattle.amdl_tree.specs.Layout.{layout_of_class, layout_of_end, layout_of_first, layout_of_item};
ghost use Rattle.amdl_tree.specs.Layout.{layout_of_pattern, layout_of_relation, line, lines_of_handler};
ghost use Rattle.amdl_tree.specs.Layout.{lines_within_class, listed};
ghost use Rattle.amdl_format.specs.Fronts.{KeepsFronts};
ghost use Rattle.amdl_tree.specs.WellBuilt.{ClassFits, HandlerFits, ItemFits};
ghost use Rattle.amdl_format.specs.Lines.{line_at, text_at};

use crate::append::{put_all, put_line};
use crate::parts::{put_end, put_first, put_names, put_pattern, put_tuple};
use crate::statements::put_block;
use amdl_tree::{Atom, Class, End, Equal, Handler, Item, Name, NoMemory, Relation};

/// Appends an item with the end of its last line. Linear in its parts, and for each line in its levels.
pub(crate) fn put_item(item: &Item, out: &mut Vec<u8>) -> Result<(), NoMemory>
    requires { ItemFits 32 item.now }
    ensures ok { OnOk result (out.new.items ≡ out.old.items ++ line (layout_of_item item.now)) }
    ensures kept { KeepsFronts out.old.items out.new.items }
{
    match item {
        Item::Kind { name, values } => put_kind(*name, values.as_slice(), out),
        Item::Field { name, kind } => put_all(
            out,
            &[b"field ", name.bytes(), b" : ", kind.bytes(), b";\n"],
        ),
        Item::Class(class) => put_class(class, out),
        Item::Host { name } => put_all(out, &[b"host ", name.bytes(), b";\n"]),
        Item::Instance { name, class, first } => put_box(*name, *class, first.as_slice(), out),
        Item::Link { one, two } => put_link(*one, *two, out),
        Item::Sends { host, pattern } => put_claim(b"sends ", *host, pattern.as_slice(), out),
        Item::Forbid { host, pattern } => put_claim(b"forbid ", *host, pattern.as_slice(), out),
    }
}

fn put_kind(name: Name, values: &[Name], out: &mut Vec<u8>) -> Result<(), NoMemory>
    ensures ok { OnOk result
        (out.new.items ≡ out.old.items
        ++ line (codes "type " ++ name ++ codes " = {" ++ listed values.now ++ codes "};")) }
    ensures kept { KeepsFronts out.old.items out.new.items }
{
    put_all(out, &[b"type ", name.bytes(), b" = {"])?;
    put_names(values, out)?;
    put_all(out, &[b"};\n"])
}

fn put_box(name: Name, class: Name, first: &[Atom], out: &mut Vec<u8>) -> Result<(), NoMemory>
    ensures ok { OnOk result
        (out.new.items ≡ out.old.items
        ++ line (codes "box " ++ name ++ codes " : " ++ class ++ layout_of_first first.now ++ codes ";")) }
    ensures kept { KeepsFronts out.old.items out.new.items }
{
    put_all(out, &[b"box ", name.bytes(), b" : ", class.bytes()])?;
    put_first(first, out)?;
    put_all(out, &[b";\n"])
}

fn put_link(one: End, two: End, out: &mut Vec<u8>) -> Result<(), NoMemory>
    ensures ok { OnOk result
        (out.new.items ≡ out.old.items
        ++ line (codes "link " ++ layout_of_end one ++ codes " -- " ++ layout_of_end two ++ codes ";")) }
    ensures kept { KeepsFronts out.old.items out.new.items }
{
    put_end(b"link ", one, out)?;
    put_end(b" -- ", two, out)?;
    put_all(out, &[b";\n"])
}

// What a host sends, or what is forbidden at it, as the word says.
fn put_claim(word: &[u8], host: Name, pattern: &[Equal], out: &mut Vec<u8>) -> Result<(), NoMemory>
    ensures ok { OnOk result
        (out.new.items ≡ out.old.items
        ++ line (word.now ++ host ++ codes " : " ++ layout_of_pattern pattern.now ++ codes ";")) }
    ensures kept { KeepsFronts out.old.items out.new.items }
{
    put_all(out, &[word, host.bytes(), b" : "])?;
    put_pattern(pattern, out)?;
    put_all(out, &[b";\n"])
}

fn put_class(class: &Class, out: &mut Vec<u8>) -> Result<(), NoMemory>
    requires { ClassFits 32 class.now }
    ensures ok { OnOk result (out.new.items ≡ out.old.items ++ line (layout_of_class class.now)) }
    ensures kept { KeepsFronts out.old.items out.new.items }
{
    put_all(out, &[b"middlebox ", class.name.bytes(), b" {\n"])?;
    put_within_class(class, out)?;
    put_all(out, &[b"}\n"])
}

// The lines between the head of a class and its last brace.
#[tactic(auto, using(crate::proofs::LineLemmas::text_append))]
fn put_within_class(class: &Class, out: &mut Vec<u8>) -> Result<(), NoMemory>
    requires { ClassFits 32 class.now }
    ensures ok { OnOk result (out.new.items ≡ out.old.items ++ text_at 1 (lines_within_class class.now)) }
    ensures kept { KeepsFronts out.old.items out.new.items }
{
    put_ports(class.ports.as_slice(), out)?;
    put_relations(class.relations.as_slice(), out)?;
    put_handlers(class.handlers.as_slice(), out)
}

fn put_ports(ports: &[Name], out: &mut Vec<u8>) -> Result<(), NoMemory>
    ensures ok { OnOk result
        (out.new.items ≡ out.old.items ++ line_at 1 (codes "port " ++ listed ports.now ++ codes ";")) }
    ensures kept { KeepsFronts out.old.items out.new.items }
{
    put_all(out, &[b"  port "])?;
    put_names(ports, out)?;
    put_all(out, &[b";\n"])
}

fn put_relations(relations: &[Relation], out: &mut Vec<u8>) -> Result<(), NoMemory>
    ensures ok { OnOk result (out.new.items ≡ out.old.items ++ text_at 1 (map layout_of_relation relations.now)) }
    ensures kept { KeepsFronts out.old.items out.new.items }
{
    for relation in relations {
        put_relation(relation, out)?;
    }
    Ok(())
}

fn put_relation(relation: &Relation, out: &mut Vec<u8>) -> Result<(), NoMemory>
    ensures ok { OnOk result (out.new.items ≡ out.old.items ++ line_at 1 (layout_of_relation relation.now)) }
    ensures kept { KeepsFronts out.old.items out.new.items }
{
    put_all(out, &[b"  relation "])?;
    put_tuple(relation.name, relation.kinds.as_slice(), out)?;
    put_all(out, &[b";\n"])
}

fn put_handlers(handlers: &[Handler], out: &mut Vec<u8>) -> Result<(), NoMemory>
    requires { All (HandlerFits 32) handlers.now }
    ensures ok { OnOk result (out.new.items ≡ out.old.items ++ text_at 1 (flat_map lines_of_handler handlers.now)) }
    ensures kept { KeepsFronts out.old.items out.new.items }
{
    for handler in handlers {
        put_handler(handler, out)?;
    }
    Ok(())
}

#[tactic(auto, using(crate::proofs::LineLemmas::text_of_framed))]
fn put_handler(handler: &Handler, out: &mut Vec<u8>) -> Result<(), NoMemory>
    requires { HandlerFits 32 handler.now }
    ensures ok { OnOk result (out.new.items ≡ out.old.items ++ text_at 1 (lines_of_handler handler.now)) }
    ensures kept { KeepsFronts out.old.items out.new.items }
{
    put_line(1, &[b"on ", handler.port.bytes(), b" : {"], out)?;
    put_block(handler.body.as_slice(), 1, out)?;
    put_line(1, &[b"}"], out)
}
