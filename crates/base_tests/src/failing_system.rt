//! A system whose reads and writes move one piece at a time and fail at a chosen call, and the adapters over it.
use outside::{Files, HostFiles, HostSink, LoadFault, Sink, SinkFault, StoreFault};
use std::alloc::{Allocator, Global};
use std::cell::Cell;
use std::fmt::Display;
use std::fs::{Metadata, OpenFile, OpenOptions};
use std::io::{self, Error, ErrorKind, Read, Seek, SeekFrom, Write};
use std::rt;

const TEXT: &[u8] = b"network x;\nforbid h : true;\n";

// Which call fails, if any, and how. Calls are counted from 0.
#[derive(Clone, Copy)]
struct Plan {
    piece: usize,
    failing: Option<u64>,
    kind: ErrorKind,
}

// A file that gives or takes one piece a call.
#[derive(Drop)]
struct PiecewiseFile {
    plan: Plan,
    calls: u64,
    rest: &'static [u8],
}

impl PiecewiseFile {
    fn turn(&mut self) -> io::Result<()> {
        let call = self.calls;
        self.calls = call.saturating_add(1);
        if self.plan.failing == Some(call) {
            return Err(Error::from(self.plan.kind));
        }
        Ok(())
    }
}

impl Read for PiecewiseFile {
    fn read(&mut self, buf: &mut [u8]) -> io::Result<usize> {
        self.turn()?;
        let count = self.plan.piece.min(buf.len()).min(self.rest.len());
        let (piece, rest) = self.rest.split_at(count);
        buf[..count].copy_from_slice(piece);
        self.rest = rest;
        Ok(count)
    }
}

impl Write for PiecewiseFile {
    fn write(&mut self, buf: &[u8]) -> io::Result<usize> {
        self.turn()?;
        Ok(self.plan.piece.min(buf.len()))
    }

    fn flush(&mut self) -> io::Result<()> {
        Ok(())
    }
}

fn unsupported<T>() -> io::Result<T> {
    Err(Error::from(ErrorKind::Unsupported))
}

impl Seek for PiecewiseFile {
    fn seek(&mut self, _to: SeekFrom) -> io::Result<u64> {
        unsupported()
    }
}

impl OpenFile for PiecewiseFile {
    fn metadata(&self) -> io::Result<Metadata> {
        unsupported()
    }

    fn set_len(&self, _size: u64) -> io::Result<()> {
        unsupported()
    }

    fn sync_all(&self) -> io::Result<()> {
        unsupported()
    }

    fn sync_data(&self) -> io::Result<()> {
        unsupported()
    }
}

// A system that opens every file, or fails to.
#[derive(Drop)]
struct FailingSystem {
    plan: Plan,
    opens: Option<ErrorKind>,
}

impl rt::Files for FailingSystem {
    type File = PiecewiseFile;

    type Dir = PiecewiseFile;

    fn open_file(&self, _how: &OpenOptions, _path: &str) -> io::Result<PiecewiseFile> {
        match self.opens {
            Some(kind) => Err(Error::from(kind)),
            None => Ok(PiecewiseFile {
                plan: self.plan,
                calls: 0,
                rest: TEXT,
            }),
        }
    }

    fn open_dir(&self, _path: &str) -> io::Result<PiecewiseFile> {
        unsupported()
    }

    fn metadata(&self, _path: &str) -> io::Result<Metadata> {
        unsupported()
    }

    fn symlink_metadata(&self, _path: &str) -> io::Result<Metadata> {
        unsupported()
    }

    fn copy(&self, _from: &str, _to: &str) -> io::Result<u64> {
        unsupported()
    }

    fn rename(&self, _from: &str, _to: &str) -> io::Result<()> {
        unsupported()
    }

    fn remove_file(&self, _path: &str) -> io::Result<()> {
        unsupported()
    }

    fn create_dir(&self, _path: &str) -> io::Result<()> {
        unsupported()
    }

    fn remove_dir(&self, _path: &str) -> io::Result<()> {
        unsupported()
    }

    fn remove_dir_all<B: Allocator>(&self, _alloc: B, _path: &str) -> io::Result<()> {
        unsupported()
    }
}

// A standard output that takes one piece a call.
#[derive(Drop)]
struct FailingOutput {
    plan: Plan,
    calls: Cell<u64>,
    taken: Cell<usize>,
}

impl Print for FailingOutput {
    fn print<D: Display + Drop>(&self, _value: D) -> io::Result<()> {
        unsupported()
    }

    fn println<D: Display + Drop>(&self, _value: D) -> io::Result<()> {
        unsupported()
    }

    fn write_all(&self, _bytes: &[u8]) -> io::Result<()> {
        unsupported()
    }

    fn write_some(&self, bytes: &[u8]) -> io::Result<usize> {
        let call = self.calls.get();
        self.calls.set(call.saturating_add(1));
        if self.plan.failing == Some(call) {
            return Err(Error::from(self.plan.kind));
        }
        let count = self.plan.piece.min(bytes.len());
        self.taken.set(self.taken.get().saturating_add(count));
        Ok(count)
    }
}

// A system that moves one piece at a time, and fails at a call.
fn moving(piece: usize, failing: Option<u64>, kind: ErrorKind) -> FailingSystem {
    let plan = Plan {
        piece,
        failing,
        kind,
    };
    FailingSystem { plan, opens: None }
}

// A system that opens no file.
fn shut(kind: ErrorKind) -> FailingSystem {
    let plan = Plan {
        piece: 100,
        failing: None,
        kind,
    };
    FailingSystem {
        plan,
        opens: Some(kind),
    }
}

// Whether a load of at most so many bytes answers so, and appends so many bytes of the text.
fn loads(
    alloc: Global,
    system: &FailingSystem,
    limit: usize,
    answer: Result<(), LoadFault>,
    kept: usize,
) -> bool {
    let mut into = Vec::new(alloc);
    let loaded = HostFiles::new(system).load(alloc, "net", limit, &mut into);
    loaded == answer && into.len() == kept && TEXT.starts_with(into.as_slice())
}

// Whether a store of the text answers so.
fn stores(alloc: Global, system: &FailingSystem, answer: Result<(), StoreFault>) -> bool {
    HostFiles::new(system).store(alloc, "net", TEXT) == answer
}

// Whether a put of the text answers so, makes so many calls, and so many bytes of it are taken.
fn puts(alloc: Global, plan: Plan, answer: Result<(), SinkFault>, calls: u64, kept: usize) -> bool {
    let output = FailingOutput {
        plan,
        calls: Cell::new(0),
        taken: Cell::new(0),
    };
    let put = HostSink::new(&output).put(alloc, TEXT);
    put == answer && output.calls.get() == calls && output.taken.get() == kept
}

// The calls at which a text that moves in pieces fails: the first, one in the middle, the last that moves bytes, and,
// where it is read, the one that finds its end. Pieces of 0 bytes end a text.
const FAILING_READS: [(&str, usize, u64, usize); 6] = [
    ("one byte a read, the first fails", 1, 0, 0),
    ("one byte a read, one in the middle fails", 1, 11, 11),
    ("one byte a read, the last fails", 1, 27, 27),
    ("one byte a read, the one at the end fails", 1, 28, 28),
    ("ten bytes a read, the second fails", 10, 1, 10),
    ("all bytes a read, the one at the end fails", 100, 1, 28),
];

const READ_FAULTS: [(ErrorKind, LoadFault); 4] = [
    (ErrorKind::Other, LoadFault::Failed),
    (ErrorKind::UnexpectedEof, LoadFault::Failed),
    (ErrorKind::NotFound, LoadFault::Failed),
    (ErrorKind::OutOfMemory, LoadFault::NoMemory),
];

#[test]
fn a_failed_read_is_a_failed_load(rt: HostRuntime) {
    for (label, piece, call, kept) in &FAILING_READS {
        for (kind, fault) in &READ_FAULTS {
            let system = moving(*piece, Some(*call), *kind);
            assert!(rt;
                loads(rt.alloc(), &system, 28, Err(*fault), *kept),
                "{label}"
            );
        }
    }
}

// A text of 28 bytes, which fits a load of 28 bytes and not one of 27.
const SHORT_READS: [(&str, usize, usize, Option<LoadFault>); 6] = [
    ("one byte a read", 1, 28, None),
    ("one byte a read, too long", 1, 27, Some(LoadFault::TooLong)),
    ("ten bytes a read", 10, 28, None),
    (
        "ten bytes a read, too long",
        10,
        27,
        Some(LoadFault::TooLong),
    ),
    ("all bytes a read", 100, 28, None),
    (
        "all bytes a read, too long",
        100,
        27,
        Some(LoadFault::TooLong),
    ),
];

// Whether a load of pieces answers so, and appends all bytes to its limit.
fn goes_on(alloc: Global, piece: usize, limit: usize, fault: Option<LoadFault>) -> bool {
    let answer = match fault {
        Some(fault) => Err(fault),
        None => Ok(()),
    };
    loads(
        alloc,
        &moving(piece, None, ErrorKind::Other),
        limit,
        answer,
        limit,
    )
}

#[test]
fn a_short_read_goes_on(rt: HostRuntime) {
    for (label, piece, limit, fault) in &SHORT_READS {
        assert!(rt; goes_on(rt.alloc(), *piece, *limit, *fault), "{label}");
    }
}

const NOT_OPENED: [(&str, ErrorKind, LoadFault, StoreFault); 4] = [
    (
        "there is none",
        ErrorKind::NotFound,
        LoadFault::Missing,
        StoreFault::Failed,
    ),
    (
        "no right",
        ErrorKind::PermissionDenied,
        LoadFault::Failed,
        StoreFault::Failed,
    ),
    (
        "a folder",
        ErrorKind::IsADirectory,
        LoadFault::Failed,
        StoreFault::Failed,
    ),
    (
        "no memory",
        ErrorKind::OutOfMemory,
        LoadFault::NoMemory,
        StoreFault::NoMemory,
    ),
];

#[test]
fn a_file_that_is_not_opened(rt: HostRuntime) {
    for (label, kind, load, store) in &NOT_OPENED {
        let system = shut(*kind);
        assert!(rt;
            loads(rt.alloc(), &system, 28, Err(*load), 0),
            "load: {label}"
        );
        assert!(rt; stores(rt.alloc(), &system, Err(*store)), "store: {label}");
    }
}

// A write of no bytes is a fault.
const FAILING_WRITES: [(&str, usize, Option<u64>, u64, usize); 6] = [
    ("one byte a write, the first fails", 1, Some(0), 1, 0),
    (
        "one byte a write, one in the middle fails",
        1,
        Some(11),
        12,
        11,
    ),
    ("one byte a write, the last fails", 1, Some(27), 28, 27),
    ("ten bytes a write, the second fails", 10, Some(1), 2, 10),
    ("all bytes a write, the first fails", 100, Some(0), 1, 0),
    ("no byte a write", 0, None, 1, 0),
];

#[test]
fn a_failed_write_is_a_fault(rt: HostRuntime) {
    for (label, piece, failing, calls, kept) in &FAILING_WRITES {
        let system = moving(*piece, *failing, ErrorKind::Other);
        assert!(rt;
            stores(rt.alloc(), &system, Err(StoreFault::Failed)),
            "store: {label}"
        );
        let put = puts(
            rt.alloc(),
            system.plan,
            Err(SinkFault::Failed),
            *calls,
            *kept,
        );
        assert!(rt; put, "put: {label}");
    }
}

// The call behind the last one would fail.
const SHORT_WRITES: [(&str, usize, u64); 3] = [
    ("one byte a write", 1, 28),
    ("ten bytes a write", 10, 3),
    ("all bytes a write", 100, 1),
];

#[test]
fn a_short_write_goes_on(rt: HostRuntime) {
    for (label, piece, calls) in &SHORT_WRITES {
        let system = moving(*piece, Some(*calls), ErrorKind::Other);
        assert!(rt; stores(rt.alloc(), &system, Ok(())), "store: {label}");
        let put = puts(rt.alloc(), system.plan, Ok(()), *calls, TEXT.len());
        assert!(rt; put, "put: {label}");
    }
}
