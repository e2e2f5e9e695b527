//! What `analyse` says of texts without boxes: reports, and refusals where they are in another layout or no network.
use crate::texts::replies;
use std::test::Fail;

const TEXTS: [(&str, &str, u8, &str); 34] = [
    (
        "the ends of the link turned, the sender forbids",
        "network n;\ntype t = {a};\nfield f : t;\nhost p;\nhost q;\nlink q -- p;\nsends p : true;\nforbid p : f = a;\n",
        0,
        "network n hosts 2 boxes 0 packets 1\nfacts out 1 state 0 abort 0\nSAFE\n",
    ),
    (
        "16 values, 4 fields, a pattern in another order",
        "network n;\ntype t = {a, b, c, d, e, f, g, h, i, j, k, l, m, n, o, p};\nfield w : t;\nfield x : t;\nfield y : t;\nfield z : t;\nhost p;\nhost q;\nlink p -- q;\nsends p : z = a, y = b, x = c, w = d;\nforbid q : true;\n",
        1,
        "network n hosts 2 boxes 0 packets 65536\nfacts out 1 state 0 abort 0\nALARM 1\ndeliver q 12816 from p : w = d, x = c, y = b, z = a\n",
    ),
    (
        "17 values",
        "network n;\ntype t = {a, b, c, d, e, f, g, h, i, j, k, l, m, n, o, p, q};\nfield w : t;\nhost p;\nhost q;\nlink p -- q;\nsends p : true;\nforbid q : w = q;\n",
        1,
        "network n hosts 2 boxes 0 packets 17\nfacts out 17 state 0 abort 0\nALARM 1\ndeliver q 16 from p : w = q\n",
    ),
    (
        "5 fields",
        "network n;\ntype t = {a};\nfield v : t;\nfield w : t;\nfield x : t;\nfield y : t;\nfield z : t;\nhost p;\nhost q;\nlink p -- q;\nsends p : true;\nforbid q : true;\n",
        1,
        "network n hosts 2 boxes 0 packets 1\nfacts out 1 state 0 abort 0\nALARM 1\ndeliver q 0 from p : v = a, w = a, x = a, y = a, z = a\n",
    ),
    (
        "no field",
        "network n;\ntype t = {a};\nhost p;\nhost q;\nlink p -- q;\nsends p : true;\nforbid q : true;\n",
        3,
        "refused network item 6 NoField\n",
    ),
    (
        "a field without a type before it",
        "network n;\nfield f : t;\nhost p;\nhost q;\nlink p -- q;\nsends p : true;\nforbid q : true;\n",
        3,
        "refused network item 0 UnknownName\n",
    ),
    (
        "two types",
        "network n;\ntype t = {a};\ntype u = {b};\nfield f : t;\nhost p;\nhost q;\nlink p -- q;\nsends p : true;\nforbid q : true;\n",
        1,
        "network n hosts 2 boxes 0 packets 1\nfacts out 1 state 0 abort 0\nALARM 1\ndeliver q 0 from p : f = a\n",
    ),
    (
        "a field of no type",
        "network n;\ntype t = {a};\nfield f : u;\nhost p;\nhost q;\nlink p -- q;\nsends p : true;\nforbid q : true;\n",
        3,
        "refused network item 1 UnknownName\n",
    ),
    (
        "a value twice",
        "network n;\ntype t = {a, a};\nfield f : t;\nhost p;\nhost q;\nlink p -- q;\nsends p : true;\nforbid q : true;\n",
        3,
        "refused network item 0 NameTaken\n",
    ),
    (
        "a field named as a value",
        "network n;\ntype t = {a};\nfield a : t;\nhost p;\nhost q;\nlink p -- q;\nsends p : true;\nforbid q : true;\n",
        3,
        "refused network item 1 NameTaken\n",
    ),
    (
        "a field twice",
        "network n;\ntype t = {a};\nfield f : t;\nfield f : t;\nhost p;\nhost q;\nlink p -- q;\nsends p : true;\nforbid q : true;\n",
        3,
        "refused network item 2 NameTaken\n",
    ),
    (
        "a host twice",
        "network n;\ntype t = {a};\nfield f : t;\nhost p;\nhost p;\nlink p -- q;\nsends p : true;\nforbid p : true;\n",
        3,
        "refused network item 3 NameTaken\n",
    ),
    (
        "three hosts",
        "network n;\ntype t = {a};\nfield f : t;\nhost p;\nhost q;\nhost r;\nlink p -- q;\nsends p : true;\nforbid q : true;\n",
        1,
        "network n hosts 3 boxes 0 packets 1\nfacts out 1 state 0 abort 0\nALARM 1\ndeliver q 0 from p : f = a\n",
    ),
    (
        "a link of an end to itself",
        "network n;\ntype t = {a};\nfield f : t;\nhost p;\nhost q;\nlink p -- p;\nsends p : true;\nforbid q : true;\n",
        3,
        "refused network item 4 EndToItself\n",
    ),
    (
        "a link to no host",
        "network n;\ntype t = {a};\nfield f : t;\nhost p;\nhost q;\nlink p -- r;\nsends p : true;\nforbid q : true;\n",
        3,
        "refused network item 4 UnknownName\n",
    ),
    (
        "a link to a port",
        "network n;\ntype t = {a};\nfield f : t;\nhost p;\nhost q;\nlink p.x -- q;\nsends p : true;\nforbid q : true;\n",
        3,
        "refused network item 4 UnknownName\n",
    ),
    (
        "a sender that is no host",
        "network n;\ntype t = {a};\nfield f : t;\nhost p;\nhost q;\nlink p -- q;\nsends r : true;\nforbid q : true;\n",
        3,
        "refused network item 5 UnknownName\n",
    ),
    (
        "a forbidding host that is none",
        "network n;\ntype t = {a};\nfield f : t;\nhost p;\nhost q;\nlink p -- q;\nsends p : true;\nforbid r : true;\n",
        3,
        "refused network item 6 UnknownName\n",
    ),
    (
        "a pattern of no field",
        "network n;\ntype t = {a};\nfield f : t;\nhost p;\nhost q;\nlink p -- q;\nsends p : g = a;\nforbid q : true;\n",
        3,
        "refused network item 5 UnknownName\n",
    ),
    (
        "a pattern of no value",
        "network n;\ntype t = {a};\nfield f : t;\nhost p;\nhost q;\nlink p -- q;\nsends p : f = b;\nforbid q : true;\n",
        3,
        "refused network item 5 UnknownName\n",
    ),
    (
        "a field twice in a pattern",
        "network n;\ntype t = {a, b};\nfield f : t;\nhost p;\nhost q;\nlink p -- q;\nsends p : true;\nforbid q : f = a, f = b;\n",
        3,
        "refused network item 6 NameTaken\n",
    ),
    (
        "forbid before sends",
        "network n;\ntype t = {a};\nfield f : t;\nhost p;\nhost q;\nlink p -- q;\nforbid q : true;\nsends p : true;\n",
        1,
        "network n hosts 2 boxes 0 packets 1\nfacts out 1 state 0 abort 0\nALARM 1\ndeliver q 0 from p : f = a\n",
    ),
    (
        "two forbid items",
        "network n;\ntype t = {a};\nfield f : t;\nhost p;\nhost q;\nlink p -- q;\nsends p : true;\nforbid q : true;\nforbid q : true;\n",
        3,
        "refused network item 7 SameItem\n",
    ),
    (
        "the last line isn't ended",
        "network n;\ntype t = {a};\nfield f : t;\nhost p;\nhost q;\nlink p -- q;\nsends p : true;\nforbid q : true;",
        1,
        "network n hosts 2 boxes 0 packets 1\nfacts out 1 state 0 abort 0\nALARM 1\ndeliver q 0 from p : f = a\n",
    ),
    ("nothing", "", 3, "refused network token 0 Syntax\n"),
    (
        "no item",
        "network wire;",
        3,
        "refused network item 0 NoField\n",
    ),
    (
        "the last line of two isn't ended",
        "network wire;\nhost p;",
        3,
        "refused network item 1 NoField\n",
    ),
    (
        "lines that end with CR and LF",
        "network wire;\r\nhost p;\r\n",
        3,
        "refused network item 1 NoField\n",
    ),
    (
        "two blanks",
        "network wire;\nhost  p;\n",
        3,
        "refused network item 1 NoField\n",
    ),
    (
        "an empty line",
        "network wire;\nhost p;\n\n",
        3,
        "refused network item 1 NoField\n",
    ),
    (
        "a comment",
        "network wire;\n# a host\nhost p;\n",
        3,
        "refused network item 1 NoField\n",
    ),
    (
        "a type without a value",
        "network wire;\ntype T = {};\n",
        3,
        "refused network token 7 Syntax\n",
    ),
    (
        "true in a longer pattern",
        "network wire;\nsends p : true, a = b;\n",
        3,
        "refused network token 7 Syntax\n",
    ),
    (
        "a field named by a reserved word",
        "network wire;\nfield true : T;\n",
        3,
        "refused network token 4 Syntax\n",
    ),
];

#[test]
fn texts_without_boxes(rt: HostRuntime) -> Result<(), Fail> {
    for (label, text, status, out) in &TEXTS {
        let told = replies(
            rt.alloc(),
            "analyse",
            text.as_bytes(),
            *status,
            out.as_bytes(),
        )?;
        assert!(rt; told, "{label}");
    }
    Ok(())
}
