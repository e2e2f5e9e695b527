//! `analyse` over files that are sure, and over the real ones.
use crate::networks::{ALL, WIRE};
use crate::texts::{SAFE_WIRE, analyse, analysis_of, full, misses, replies};
use amdl_app::run;
use outside::{HostFiles, HostSink, SureFiles, SureSink};
use std::fs;
use std::test::Fail;

const ALARM_REPORT: &str =
    "network wire hosts 2 boxes 0 packets 4\nfacts out 2 state 0 abort 0\nALARM 1\ndeliver q 1 from p : src = a, dst = b\n";

const SAFE_REPORT: &str =
    "network wire hosts 2 boxes 0 packets 4\nfacts out 2 state 0 abort 0\nSAFE\n";

#[test]
fn both_wires(rt: HostRuntime) -> Result<(), Fail> {
    let alarm = ALARM_REPORT.as_bytes();
    assert!(rt;
        replies(rt.alloc(), "analyse", WIRE.as_bytes(), 1, alarm)?,
        "alarm"
    );
    let safe = SAFE_REPORT.as_bytes();
    assert!(rt;
        replies(rt.alloc(), "analyse", SAFE_WIRE.as_bytes(), 0, safe)?,
        "safe"
    );
    Ok(())
}

#[test]
fn no_such_file(rt: HostRuntime) -> Result<(), Fail> {
    assert!(rt; misses(rt.alloc(), "analyse")?);
    Ok(())
}

#[test]
fn no_words(rt: HostRuntime) {
    let mut files = SureFiles::new(rt.alloc());
    let mut out = SureSink::new(rt.alloc());
    let status = run(rt.alloc(), &[], &mut files, &mut out);
    assert!(rt; status == 2);
    let usage =
        b"usage: amdl VERB WORD [WORD]\nverbs: analyse check format replay replay-ordered\n".as_slice();
    assert!(rt; out.bytes() == usage);
}

const FULL_HEAD: &[u8] =
    b"network full hosts 2 boxes 0 packets 65536\nfacts out 65536 state 0 abort 0\nALARM 65536\ndeliver q 0 from p : f0 = v0, f1 = v0, f2 = v0, f3 = v0\n";

const FULL_END: &[u8] = b"deliver q 999 from p : f0 = v0, f1 = v3, f2 = v14, f3 = v7\nmore 64536\n";

#[test]
fn each_packet_is_bad(rt: HostRuntime) -> Result<(), Fail> {
    let text = full(rt.alloc(), 16, 4)?;
    let (status, out) = analysis_of(rt.alloc(), text.as_str())?;
    let lines = out.bytes().iter().filter(|byte| **byte == b'\n').count();
    assert!(rt; status == 1 && lines == 1004);
    assert!(rt; out.bytes().starts_with(FULL_HEAD));
    assert!(rt; out.bytes().ends_with(FULL_END));
    Ok(())
}

/// The report of each network, with its status, in the order of the networks.
const REPORTS: [(u8, &str); 11] = [
    (
        0,
        "network pair hosts 2 boxes 1 packets 4\nfacts out 4 state 6 abort 0\nSAFE\n",
    ),
    (
        1,
        "network pair hosts 2 boxes 1 packets 4\nfacts out 6 state 6 abort 0\nALARM 2\ndeliver ha 2 from fw.in_side : src = b, dst = a\ndeliver ha 3 from fw.in_side : src = b, dst = b\n",
    ),
    (1, ALARM_REPORT),
    (
        1,
        "network puzzle hosts 2 boxes 1 packets 16\nfacts out 17 state 39 abort 0\nALARM 1\ndeliver y 6 from k.outp : f = v2, g = v3\n",
    ),
    (
        0,
        "network twins hosts 2 boxes 1 packets 4\nfacts out 2 state 7 abort 0\nSAFE\n",
    ),
    (
        0,
        "network early hosts 2 boxes 1 packets 4\nfacts out 2 state 6 abort 0\nSAFE\n",
    ),
    (
        0,
        "network once hosts 2 boxes 1 packets 2\nfacts out 2 state 3 abort 0\nSAFE\n",
    ),
    (
        0,
        "network late hosts 2 boxes 1 packets 2\nfacts out 2 state 3 abort 0\nSAFE\n",
    ),
    (
        0,
        "network ring hosts 1 boxes 2 packets 1\nfacts out 3 state 2 abort 0\nSAFE\n",
    ),
    (
        1,
        "network stop hosts 2 boxes 1 packets 4\nfacts out 2 state 6 abort 1\nALARM 1\nabort fw 3 : src = b, dst = b\n",
    ),
    (
        1,
        "network office hosts 3 boxes 2 packets 18\nfacts out 11 state 42 abort 0\nALARM 1\ndeliver hb 15 from c.pb : src = s, dst = b, kind = rep\n",
    ),
];

#[test]
fn each_network(rt: HostRuntime) -> Result<(), Fail> {
    for (text, (status, report)) in ALL.iter().zip(REPORTS.iter()) {
        let replied = replies(
            rt.alloc(),
            "analyse",
            text.as_bytes(),
            *status,
            report.as_bytes(),
        )?;
        assert!(rt; replied, "{text}");
    }
    Ok(())
}

const NAMES: [(&str, u8, &[u8]); 2] = [
    (
        "network abcdefghijklmnopqrstuvwx;\ntype T = {v};\nfield f : T;\nhost p;\nhost q;\nlink q -- p;\nsends q : true;\nforbid q : f = v;\n",
        0,
        b"network abcdefghijklmnopqrstuvwx hosts 2 boxes 0 packets 1\nfacts out 1 state 0 abort 0\nSAFE\n",
    ),
    (
        "network abcdefghijklmnopqrstuvwxy;\ntype T = {v};\nfield f : T;\nhost p;\nhost q;\nlink q -- p;\nsends q : true;\nforbid q : f = v;\n",
        3,
        b"refused network byte 8 WordTooLong\n",
    ),
];

#[test]
fn the_longest_name(rt: HostRuntime) -> Result<(), Fail> {
    for (text, status, out) in &NAMES {
        assert!(rt;
            replies(rt.alloc(), "analyse", text.as_bytes(), *status, out)?,
            "{text}"
        );
    }
    Ok(())
}

#[test]
fn real_files(rt: HostRuntime) -> Result<(), Fail> {
    fs::write(&rt, "wire-of-a-test.amdl", SAFE_WIRE)?;
    let mut files = HostFiles::new(&rt);
    let mut out = HostSink::new(&rt);
    let status = analyse(rt.alloc(), "wire-of-a-test.amdl", &mut files, &mut out)?;
    assert!(rt; status == 0);
    let status = analyse(rt.alloc(), "no-such-file.amdl", &mut files, &mut out)?;
    assert!(rt; status == 4);
    Ok(())
}
