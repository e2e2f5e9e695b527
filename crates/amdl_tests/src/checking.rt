//! `check` over files that are sure: the counts of networks.
use crate::networks::{EARLY, LATE, OFFICE, ONCE, PAIR, PAIR2, PUZZLE, RING, STOP, TWINS, WIRE};
use crate::texts::{misses, replies};
use std::test::Fail;

const COUNTS: [(&str, &str); 11] = [
    (
        PAIR,
        "network pair hosts 2 boxes 1 packets 4\ntypes 1 fields 2 classes 1 links 2\nends 4 cells 28\n",
    ),
    (
        PAIR2,
        "network pair hosts 2 boxes 1 packets 4\ntypes 1 fields 2 classes 1 links 2\nends 4 cells 28\n",
    ),
    (
        WIRE,
        "network wire hosts 2 boxes 0 packets 4\ntypes 1 fields 2 classes 0 links 1\nends 2 cells 8\n",
    ),
    (
        PUZZLE,
        "network puzzle hosts 2 boxes 1 packets 16\ntypes 1 fields 2 classes 1 links 2\nends 4 cells 144\n",
    ),
    (
        TWINS,
        "network twins hosts 2 boxes 1 packets 4\ntypes 1 fields 2 classes 1 links 2\nends 4 cells 36\n",
    ),
    (
        EARLY,
        "network early hosts 2 boxes 1 packets 4\ntypes 1 fields 2 classes 1 links 2\nends 4 cells 28\n",
    ),
    (
        ONCE,
        "network once hosts 2 boxes 1 packets 2\ntypes 1 fields 1 classes 1 links 2\nends 4 cells 14\n",
    ),
    (
        LATE,
        "network late hosts 2 boxes 1 packets 2\ntypes 1 fields 1 classes 1 links 1\nends 4 cells 14\n",
    ),
    (
        RING,
        "network ring hosts 1 boxes 2 packets 1\ntypes 1 fields 1 classes 1 links 3\nends 7 cells 11\n",
    ),
    (
        STOP,
        "network stop hosts 2 boxes 1 packets 4\ntypes 1 fields 2 classes 1 links 2\nends 4 cells 28\n",
    ),
    (
        OFFICE,
        "network office hosts 3 boxes 2 packets 18\ntypes 2 fields 3 classes 2 links 4\nends 8 cells 288\n",
    ),
];

#[test]
fn counts_of_networks(rt: HostRuntime) -> Result<(), Fail> {
    for (text, counts) in &COUNTS {
        let counted = replies(rt.alloc(), "check", text.as_bytes(), 0, counts.as_bytes())?;
        assert!(rt; counted, "{text}");
    }
    Ok(())
}

const UNREAD: [(&str, &str); 4] = [
    ("network x;\n@", "refused network byte 11 BadByte\n"),
    (
        "network abcdefghijklmnopqrstuvwxy;",
        "refused network byte 8 WordTooLong\n",
    ),
    ("network x host h;", "refused network token 2 Syntax\n"),
    (
        "network x; field f : t; field f",
        "refused network token 10 Syntax\n",
    ),
];

#[test]
fn reading_goes_before_checking(rt: HostRuntime) -> Result<(), Fail> {
    for (text, out) in &UNREAD {
        let refused = replies(rt.alloc(), "check", text.as_bytes(), 3, out.as_bytes())?;
        assert!(rt; refused, "{text}");
    }
    Ok(())
}

#[test]
fn no_such_file(rt: HostRuntime) -> Result<(), Fail> {
    assert!(rt; misses(rt.alloc(), "check")?, "no such file");
    Ok(())
}
