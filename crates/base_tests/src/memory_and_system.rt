//! Files and sinks in memory and over the system, by themselves. What a call in memory answers is a clause but for want
//! of memory, so each is called once; what the system's files answer is seen here alone.
use outside::{
    Files, HostFiles, HostSink, LoadFault, MemoryFiles, MemorySink, Sink, SinkFault, StoreFault,
    SureFiles, SureSink,
};
use std::alloc::Global;
use std::fs;
use std::test::Fail;

// What a load appends, of at most so many bytes.
fn loaded<F: Files>(
    alloc: Global,
    files: &mut F,
    name: &str,
    limit: usize,
) -> Result<Vec<u8>, LoadFault> {
    let mut into = Vec::new(alloc);
    files.load(alloc, name, limit, &mut into)?;
    Ok(into)
}

// Whether a load of at most so many bytes appends these.
fn holds<F: Files>(alloc: Global, files: &mut F, name: &str, limit: usize, bytes: &[u8]) -> bool {
    match loaded(alloc, files, name, limit) {
        Ok(into) => into.as_slice() == bytes,
        Err(_) => false,
    }
}

// Whether a load of at most so many bytes fails so.
fn fails<F: Files>(
    alloc: Global,
    files: &mut F,
    name: &str,
    limit: usize,
    fault: LoadFault,
) -> bool {
    match loaded(alloc, files, name, limit) {
        Ok(_) => false,
        Err(other) => other == fault,
    }
}

#[test]
fn sure_files(rt: HostRuntime) -> Result<(), Fail> {
    let mut files = SureFiles::new(rt.alloc());
    files.keep("net", b"old")?;
    files.store(rt.alloc(), "net", b"wire")?;
    assert!(rt; holds(rt.alloc(), &mut files, "net", 4, b"wire"));
    Ok(())
}

#[test]
fn memory_files(rt: HostRuntime) -> Result<(), Fail> {
    let mut files = MemoryFiles::new(rt.alloc());
    files.keep("net", b"old")?;
    files.fail_call(2, 1)?;
    files.store(rt.alloc(), "net", b"wire")?;
    assert!(rt; holds(rt.alloc(), &mut files, "net", 4, b"wire"));
    assert!(rt; files.store(rt.alloc(), "net", b"xyz") == Err(StoreFault::Failed));
    assert!(rt; files.bytes("net") == Some(b"x"));
    Ok(())
}

#[test]
fn sure_sink(rt: HostRuntime) -> Result<(), Fail> {
    let mut sink = SureSink::new(rt.alloc());
    sink.put(rt.alloc(), b"SA")?;
    sink.put(rt.alloc(), b"FE")?;
    assert!(rt; sink.bytes() == b"SAFE".as_slice());
    Ok(())
}

#[test]
fn memory_sink(rt: HostRuntime) -> Result<(), Fail> {
    let mut sink = MemorySink::new(rt.alloc());
    sink.fail_call(1, 1)?;
    sink.put(rt.alloc(), b"xy")?;
    assert!(rt; sink.put(rt.alloc(), b"abc") == Err(SinkFault::Failed));
    assert!(rt; sink.bytes() == b"xya".as_slice());
    Ok(())
}

const FILE: &str = "outside-test-file";

#[test]
fn a_file_of_the_system(rt: HostRuntime) -> Result<(), Fail> {
    let mut files = HostFiles::new(&rt);
    files.store(rt.alloc(), FILE, b"older and longer")?;
    files.store(rt.alloc(), FILE, b"wire")?;
    assert!(rt; holds(rt.alloc(), &mut files, FILE, 4, b"wire"));
    assert!(rt; fails(rt.alloc(), &mut files, FILE, 3, LoadFault::TooLong));
    fs::remove_file(&rt, FILE)?;
    Ok(())
}

const FOLDER: &str = "outside-test-folder";

#[test]
fn a_folder_of_the_system(rt: HostRuntime) -> Result<(), Fail> {
    let mut files = HostFiles::new(&rt);
    fs::create_dir(&rt, FOLDER)?;
    assert!(rt; fails(rt.alloc(), &mut files, FOLDER, 3, LoadFault::Failed));
    assert!(rt; files.store(rt.alloc(), FOLDER, b"wire") == Err(StoreFault::Failed));
    fs::remove_dir(&rt, FOLDER)?;
    Ok(())
}

const NO_FILES: [(&str, LoadFault); 4] = [
    ("outside-test-none", LoadFault::Missing),
    ("", LoadFault::Missing),
    ("outside-test-none/file", LoadFault::Missing),
    ("outside\0test", LoadFault::Failed),
];

#[test]
fn no_file_of_the_system(rt: HostRuntime) {
    let mut files = HostFiles::new(&rt);
    for (name, fault) in &NO_FILES {
        assert!(rt; fails(rt.alloc(), &mut files, name, 3, *fault), "{name}");
    }
    assert!(rt; files.store(rt.alloc(), "outside-test-none/file", b"") == Err(StoreFault::Failed));
}

#[test]
fn the_output_of_the_system(rt: HostRuntime) -> Result<(), Fail> {
    let mut sink = HostSink::new(&rt);
    sink.put(rt.alloc(), b"a line of the test\n")?;
    Ok(())
}

#[test]
fn the_system_reads_in_blocks(rt: HostRuntime) -> Result<(), Fail> {
    let mut files = HostFiles::new(&rt);
    let name = "outside-test-blocks";
    let stored = vec![in rt.alloc(); 7u8; 20_000]?;
    files.store(rt.alloc(), name, &stored)?;
    assert!(rt; holds(rt.alloc(), &mut files, name, 20_000, &stored));
    assert!(rt; fails(rt.alloc(), &mut files, name, 19_999, LoadFault::TooLong));
    fs::remove_file(&rt, name)?;
    Ok(())
}
