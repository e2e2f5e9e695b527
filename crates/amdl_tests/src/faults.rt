//! Each verb over files and sinks that fail at a named call.
use crate::networks::WIRE;
use crate::texts::{call, full};
use amdl_app::run;
use amdl_tree::NoMemory;
use outside::{MemoryFiles, MemorySink};
use std::alloc::{AllocError, Global};
use std::test::Fail;

const ALARM_REPORT: &str =
    "network wire hosts 2 boxes 0 packets 4\nfacts out 2 state 0 abort 0\nALARM 1\ndeliver q 1 from p : src = a, dst = b\n";

const COUNTS: &str =
    "network wire hosts 2 boxes 0 packets 4\ntypes 1 fields 2 classes 0 links 1\nends 2 cells 8\n";

/// Each verb with how many files it loads, and its status and text on the wire network.
const VERBS: [(&str, u32, u8, &str); 3] = [
    ("analyse", 1, 1, ALARM_REPORT),
    ("check", 1, 0, COUNTS),
    ("format", 1, 0, WIRE),
];

// The files of a test: one network.
fn files_with(alloc: Global, text: &str) -> Result<MemoryFiles, NoMemory> {
    let mut files = MemoryFiles::new(alloc);
    files.keep("net", text.as_bytes())?;
    Ok(files)
}

// Whether a load that fails behind so many bytes ends a call of the verb.
fn fails_at_load(alloc: Global, verb: &str, load: u32, kept: usize) -> Result<bool, Fail> {
    let mut files = files_with(alloc, WIRE)?;
    files.fail_call(load, kept)?;
    let mut out = MemorySink::new(alloc);
    let status = call(alloc, verb, "net", &mut files, &mut out)?;
    Ok(status == 4 && out.bytes() == b"fault load net\n".as_slice())
}

#[test]
fn each_load_fails(rt: HostRuntime) -> Result<(), Fail> {
    for (verb, loads, _, _) in &VERBS {
        for load in 0..*loads {
            for kept in 0..=WIRE.len() {
                let fails = fails_at_load(rt.alloc(), verb, load, kept)?;
                assert!(rt; fails, "{verb}: load {load} fails after {kept}");
            }
        }
    }
    Ok(())
}

// The status and the sink of the verb over files that fail at the call behind its loads.
fn reply_before(alloc: Global, verb: &str, loads: u32) -> Result<(u8, MemorySink), Fail> {
    let mut files = files_with(alloc, WIRE)?;
    files.fail_call(loads, 0)?;
    let mut out = MemorySink::new(alloc);
    let status = call(alloc, verb, "net", &mut files, &mut out)?;
    Ok((status, out))
}

#[test]
fn no_call_past_the_files(rt: HostRuntime) -> Result<(), Fail> {
    for (verb, loads, expected, text) in &VERBS {
        let (status, out) = reply_before(rt.alloc(), verb, *loads)?;
        let whole = status == *expected && out.bytes() == text.as_bytes();
        assert!(rt; whole, "{verb}: {loads} loads");
    }
    Ok(())
}

#[test]
fn no_row_loads_nothing(rt: HostRuntime) -> Result<(), Fail> {
    let mut files = files_with(rt.alloc(), WIRE)?;
    files.fail_call(0, 0)?;
    let mut out = MemorySink::new(rt.alloc());
    let status = run(rt.alloc(), &[], &mut files, &mut out);
    assert!(rt; status == 2, "no words");
    let status = call(rt.alloc(), "prove", "net", &mut files, &mut out)?;
    assert!(rt; status == 2, "another verb");
    let status = call(rt.alloc(), "format", "net", &mut files, &mut out)?;
    assert!(rt; status == 4, "the first load is that of the first row");
    Ok(())
}

// A put that fails, and the bytes of it that are taken.
#[derive(Clone, Copy)]
struct Failing {
    put: u32,
    kept: usize,
}

// Whether a put that fails ends a call of the verb over a network, with so many bytes of the whole put out.
fn fails_at_put(
    alloc: Global,
    verb: &str,
    network: &str,
    failing: Failing,
    length: usize,
    whole: &[u8],
) -> Result<bool, Fail> {
    let mut files = files_with(alloc, network)?;
    let mut out = MemorySink::new(alloc);
    out.fail_call(failing.put, failing.kept)?;
    let status = call(alloc, verb, "net", &mut files, &mut out)?;
    Ok(status == 5 && out.bytes().len() == length && whole.starts_with(out.bytes()))
}

#[test]
fn each_put_fails(rt: HostRuntime) -> Result<(), Fail> {
    for (verb, _, _, text) in &VERBS {
        for kept in 0..=text.len() {
            let failing = Failing { put: 0, kept };
            let fails = fails_at_put(rt.alloc(), verb, WIRE, failing, kept, text.as_bytes())?;
            assert!(rt; fails, "{verb}: put 0 fails after {kept}");
        }
    }
    Ok(())
}

// A network whose layout is longer than one piece.
fn many_hosts(alloc: Global) -> Result<String, AllocError> {
    let mut text = String::from_str(alloc, "network many;\n")?;
    for host in 0..400 {
        text.push_str(format!(in alloc; "host h{host};\n")?.as_str())?;
    }
    Ok(text)
}

// What the verb puts out where nothing fails, in two pieces, and nothing where that isn't so.
fn two_pieces(alloc: Global, verb: &str, network: &str) -> Result<Option<MemorySink>, Fail> {
    let mut files = files_with(alloc, network)?;
    let mut out = MemorySink::new(alloc);
    let status = call(alloc, verb, "net", &mut files, &mut out)?;
    let length = out.bytes().len();
    if status <= 1 && length > 4096 && length < 8192 {
        return Ok(Some(out));
    }
    Ok(None)
}

// The first place in the second piece at which its put fails in another way than it should.
fn first_wrong(
    alloc: Global,
    verb: &str,
    network: &str,
    whole: &[u8],
) -> Result<Option<usize>, Fail> {
    for kept in 0..=whole.len().saturating_sub(4096) {
        let failing = Failing { put: 1, kept };
        let length = kept.saturating_add(4096);
        if !fails_at_put(alloc, verb, network, failing, length, whole)? {
            return Ok(Some(kept));
        }
    }
    Ok(None)
}

// The first byte of the second piece behind which its put fails in another way, or 0 where there are no two pieces.
fn wrong_at_second(alloc: Global, verb: &str, network: &str) -> Result<Option<usize>, Fail> {
    match two_pieces(alloc, verb, network)? {
        Some(out) => first_wrong(alloc, verb, network, out.bytes()),
        None => Ok(Some(0)),
    }
}

#[test]
fn the_second_put_fails(rt: HostRuntime) -> Result<(), Fail> {
    let report = full(rt.alloc(), 11, 2)?;
    let wrong = wrong_at_second(rt.alloc(), "analyse", report.as_str())?;
    assert!(rt; wrong.is_none(), "analyse: put 1 fails after {wrong:?}");
    let layout = many_hosts(rt.alloc())?;
    let wrong = wrong_at_second(rt.alloc(), "format", layout.as_str())?;
    assert!(rt; wrong.is_none(), "format: put 1 fails after {wrong:?}");
    Ok(())
}
