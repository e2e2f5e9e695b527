//! `replay` and `replay-ordered` over files in memory.
use crate::networks::{OFFICE, ONCE, PAIR, PAIR2, STOP, WIRE};
use amdl_app::run;
use outside::{Files, MemoryFiles, MemorySink, Sink, SureFiles, SureSink};
use std::alloc::{AllocError, Global};
use std::test::Fail;

/// A schedule, and what its replay on a network comes to.
struct Case {
    label: &'static str,
    verb: &'static str,
    schedule: &'static str,
    status: u8,
    out: &'static str,
}

// The status of a verb over the files `net` and `steps`.
fn replay<F: Files, S: Sink>(
    alloc: Global,
    verb: &str,
    files: &mut F,
    out: &mut S,
) -> Result<u8, AllocError> {
    let mut words = Vec::new(alloc);
    words.push(String::from_str(alloc, verb)?)?;
    words.push(String::from_str(alloc, "net")?)?;
    words.push(String::from_str(alloc, "steps")?)?;
    Ok(run(alloc, words.as_slice(), files, out))
}

// Whether the replay of a schedule on a network comes to its status and its text.
fn comes_to(alloc: Global, network: &str, case: &Case) -> Result<bool, Fail> {
    let mut files = SureFiles::new(alloc);
    files.keep("net", network.as_bytes())?;
    files.keep("steps", case.schedule.as_bytes())?;
    let mut out = SureSink::new(alloc);
    let status = replay(alloc, case.verb, &mut files, &mut out)?;
    Ok(status == case.status && out.bytes() == case.out.as_bytes())
}

// The label of the first case that comes to something else.
fn first_wrong(alloc: Global, network: &str, cases: &[Case]) -> Result<Option<&'static str>, Fail> {
    for case in cases {
        if !comes_to(alloc, network, case)? {
            return Ok(Some(case.label));
        }
    }
    Ok(None)
}

const ON_WIRE: [Case; 16] = [
    Case {
        label: "no step",
        verb: "replay",
        schedule: "",
        status: 0,
        out: "end steps 0 bad 0\n",
    },
    Case {
        label: "a forbidden delivery",
        verb: "replay",
        schedule: "send p 0; send p 1; deliver q 1; deliver q 0;",
        status: 1,
        out: "0 moved\n1 moved\n2 delivered q 1 forbidden\n3 delivered q 0\nend steps 4 bad 1\n",
    },
    Case {
        label: "the same over ordered channels",
        verb: "replay-ordered",
        schedule: "send p 0; send p 1; deliver q 1; deliver q 0;",
        status: 3,
        out: "0 moved\n1 moved\nrefused schedule step 2 NotHead\n",
    },
    Case {
        label: "ordered, in order, in lines with a comment",
        verb: "replay-ordered",
        schedule: "send p 0;\nsend p 1; # both wait\ndeliver q 0;\ndeliver q 1;\n",
        status: 1,
        out: "0 moved\n1 moved\n2 delivered q 0\n3 delivered q 1 forbidden\nend steps 4 bad 1\n",
    },
    Case {
        label: "a third delivery of two copies",
        verb: "replay",
        schedule: "send p 0; send p 0; deliver q 0; deliver q 0; deliver q 0;",
        status: 3,
        out: "0 moved\n1 moved\n2 delivered q 0\n3 delivered q 0\nrefused schedule step 4 NoCopy\n",
    },
    Case {
        label: "no copy goes before a choice of a host",
        verb: "replay",
        schedule: "deliver q 0 [0];",
        status: 3,
        out: "refused schedule step 0 NoCopy\n",
    },
    Case {
        label: "a choice of a host",
        verb: "replay",
        schedule: "send p 0; deliver q 0 [0];",
        status: 3,
        out: "0 moved\nrefused schedule step 1 BadChoice 0\n",
    },
    Case {
        label: "delivered at the end of the sender",
        verb: "replay",
        schedule: "send p 0; deliver p 0;",
        status: 3,
        out: "0 moved\nrefused schedule step 1 NoCopy\n",
    },
    Case {
        label: "not sent",
        verb: "replay",
        schedule: "send p 2;",
        status: 3,
        out: "refused schedule step 0 NotSent\n",
    },
    Case {
        label: "a number of 9 digits",
        verb: "replay",
        schedule: "send p 000000000;",
        status: 0,
        out: "0 moved\nend steps 1 bad 0\n",
    },
    Case {
        label: "a number of 10 digits",
        verb: "replay",
        schedule: "send p 0000000000;",
        status: 3,
        out: "refused schedule byte 7 WordTooLong\n",
    },
    Case {
        label: "a bad byte",
        verb: "replay",
        schedule: "send p 0; @",
        status: 3,
        out: "refused schedule byte 10 BadByte\n",
    },
    Case {
        label: "a fault of tokens goes before that of a name",
        verb: "replay",
        schedule: "send zz 0; send host 0;",
        status: 3,
        out: "refused schedule token 5 Syntax\n",
    },
    Case {
        label: "the tokens end too early",
        verb: "replay-ordered",
        schedule: "send p 0; deliver q",
        status: 3,
        out: "refused schedule token 6 Syntax\n",
    },
    Case {
        label: "a fault of a name goes before a step that isn't made",
        verb: "replay",
        schedule: "send p 2; revert p;",
        status: 3,
        out: "refused schedule step 1 UnknownName\n",
    },
    Case {
        label: "the first faulty step counts",
        verb: "replay",
        schedule: "send p 0; deliver q 4; send zz 0;",
        status: 3,
        out: "refused schedule step 1 OutOfRange\n",
    },
];

#[test]
fn on_wire(rt: HostRuntime) -> Result<(), Fail> {
    let wrong = first_wrong(rt.alloc(), WIRE, &ON_WIRE)?;
    assert!(rt; wrong.is_none(), "{wrong:?}");
    Ok(())
}

const ON_ONCE: [Case; 4] = [
    Case {
        label: "choices, contents that change, and a revert",
        verb: "replay",
        schedule: "send h 1; deliver g.i 1 [0]; send h 1; deliver g.i 1; revert g; send h 1; deliver g.i 1 [0]; deliver k 1; deliver k 1;",
        status: 0,
        out: "0 moved\n1 moved\n2 moved\n3 moved\n4 moved\n5 moved\n6 moved\n7 delivered k 1\n8 delivered k 1\nend steps 9 bad 0\n",
    },
    Case {
        label: "no choice is left once the tuple is taken out",
        verb: "replay",
        schedule: "send h 1; deliver g.i 1 [0]; send h 1; deliver g.i 1 [0];",
        status: 3,
        out: "0 moved\n1 moved\n2 moved\nrefused schedule step 3 BadChoice 0\n",
    },
    Case {
        label: "a choice is missing",
        verb: "replay",
        schedule: "send h 1; deliver g.i 1;",
        status: 3,
        out: "0 moved\nrefused schedule step 1 BadChoice 0\n",
    },
    Case {
        label: "a choice is left over",
        verb: "replay-ordered",
        schedule: "send h 1; deliver g.i 1 [0, 0];",
        status: 3,
        out: "0 moved\nrefused schedule step 1 BadChoice 1\n",
    },
];

#[test]
fn on_once(rt: HostRuntime) -> Result<(), Fail> {
    let wrong = first_wrong(rt.alloc(), ONCE, &ON_ONCE)?;
    assert!(rt; wrong.is_none(), "{wrong:?}");
    Ok(())
}

const ON_PAIR: [Case; 4] = [
    Case {
        label: "not sent",
        verb: "replay",
        schedule: "send ha 2;",
        status: 3,
        out: "refused schedule step 0 NotSent\n",
    },
    Case {
        label: "no such host",
        verb: "replay",
        schedule: "send zz 0;",
        status: 3,
        out: "refused schedule step 0 UnknownName\n",
    },
    Case {
        label: "no such packet",
        verb: "replay",
        schedule: "send ha 4;",
        status: 3,
        out: "refused schedule step 0 OutOfRange\n",
    },
    Case {
        label: "a box is no end",
        verb: "replay",
        schedule: "send ha 0; deliver fw 0;",
        status: 3,
        out: "refused schedule step 1 UnknownName\n",
    },
];

#[test]
fn on_pair(rt: HostRuntime) -> Result<(), Fail> {
    let wrong = first_wrong(rt.alloc(), PAIR, &ON_PAIR)?;
    assert!(rt; wrong.is_none(), "{wrong:?}");
    Ok(())
}

const ON_PAIR2: [Case; 2] = [
    Case {
        label: "a choice where none is made",
        verb: "replay",
        schedule: "send ha 1; deliver fw.in_side 1 [0];",
        status: 3,
        out: "0 moved\nrefused schedule step 1 BadChoice 0\n",
    },
    Case {
        label: "past the firewall",
        verb: "replay-ordered",
        schedule: "send ha 1; deliver fw.in_side 1; send hb 2; deliver fw.out_side 2 [0]; deliver ha 2;",
        status: 1,
        out: "0 moved\n1 moved\n2 moved\n3 moved\n4 delivered ha 2 forbidden\nend steps 5 bad 1\n",
    },
];

#[test]
fn on_pair2(rt: HostRuntime) -> Result<(), Fail> {
    let wrong = first_wrong(rt.alloc(), PAIR2, &ON_PAIR2)?;
    assert!(rt; wrong.is_none(), "{wrong:?}");
    Ok(())
}

const ON_STOP: [Case; 1] = [Case {
    label: "an abort uses its packet up",
    verb: "replay",
    schedule: "send ha 1; deliver fw.in_side 1; send hb 3; deliver fw.out_side 3 [0]; deliver fw.out_side 3 [0];",
    status: 3,
    out: "0 moved\n1 moved\n2 moved\n3 aborted fw 3\nrefused schedule step 4 NoCopy\n",
}];

#[test]
fn on_stop(rt: HostRuntime) -> Result<(), Fail> {
    let wrong = first_wrong(rt.alloc(), STOP, &ON_STOP)?;
    assert!(rt; wrong.is_none(), "{wrong:?}");
    Ok(())
}

const ON_OFFICE: [Case; 1] = [Case {
    label: "past the firewall by way of the cache",
    verb: "replay",
    schedule: "send srv 13; deliver fw.wan 13 [0]; deliver c.up 13 [0, 0]; send hb 10; deliver c.pb 10 [0]; deliver hb 15;",
    status: 1,
    out: "0 moved\n1 moved\n2 moved\n3 moved\n4 moved\n5 delivered hb 15 forbidden\nend steps 6 bad 1\n",
}];

#[test]
fn on_office(rt: HostRuntime) -> Result<(), Fail> {
    let wrong = first_wrong(rt.alloc(), OFFICE, &ON_OFFICE)?;
    assert!(rt; wrong.is_none(), "{wrong:?}");
    Ok(())
}

// Whether a replay over a network, where there is one, and no schedule has this status and this text.
fn misses(alloc: Global, network: Option<&str>, text: &str) -> Result<bool, Fail> {
    let mut files = SureFiles::new(alloc);
    if let Some(network) = network {
        files.keep("net", network.as_bytes())?;
    }
    let mut out = SureSink::new(alloc);
    let status = replay(alloc, "replay", &mut files, &mut out)?;
    Ok(status >= 3 && out.bytes() == text.as_bytes())
}

#[test]
fn the_network_comes_first(rt: HostRuntime) -> Result<(), Fail> {
    let alloc = rt.alloc();
    assert!(rt; misses(alloc, None, "missing net\n")?, "no network");
    assert!(rt;
        misses(
            alloc,
            Some("network x;"),
            "refused network item 0 NoField\n"
        )?,
        "a refused network"
    );
    assert!(rt;
        misses(alloc, Some(WIRE), "missing steps\n")?,
        "no schedule"
    );
    Ok(())
}

#[test]
fn a_long_schedule(rt: HostRuntime) -> Result<(), Fail> {
    let mut files = SureFiles::new(rt.alloc());
    files.keep("net", WIRE.as_bytes())?;
    let blanks = vec![in rt.alloc(); b' '; 4_194_305]?;
    files.keep("steps", blanks.as_slice())?;
    let mut out = SureSink::new(rt.alloc());
    let status = replay(rt.alloc(), "replay", &mut files, &mut out)?;
    assert!(rt; status == 3 && out.bytes() == b"refused schedule TooLong\n".as_slice());
    Ok(())
}

// Whether a load that fails ends a replay, by the name of its file.
fn fails_at_load(alloc: Global, load: u32, text: &str) -> Result<bool, Fail> {
    let mut files = MemoryFiles::new(alloc);
    files.keep("net", WIRE.as_bytes())?;
    files.keep("steps", b"send p 0;")?;
    files.fail_call(load, 3)?;
    let mut out = MemorySink::new(alloc);
    let status = replay(alloc, "replay", &mut files, &mut out)?;
    Ok(status == 4 && out.bytes() == text.as_bytes())
}

#[test]
fn each_load_of_a_replay_fails(rt: HostRuntime) -> Result<(), Fail> {
    assert!(rt;
        fails_at_load(rt.alloc(), 0, "fault load net\n")?,
        "the network"
    );
    assert!(rt;
        fails_at_load(rt.alloc(), 1, "fault load steps\n")?,
        "the schedule"
    );
    Ok(())
}
