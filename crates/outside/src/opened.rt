// What a load, a store and a put over the system do, all but the opening: over any reader and any writer, so that
// clauses can name the bytes that come from the one and go to the other.
ghost use Rattle.std.specs.Prelude.{◌≡◌, ◌≢◌, ◌↔◌, ◌≤◌, Err, OnOk, OnErr, IsErrOf, IsErrAnd};
ghost use Rattle.std.specs.IoError.{error_kind};
ghost use Rattle.outside.specs.Host.{faults_after_load, faults_after_store, faults_after_write};
ghost use Rattle.outside.specs.Opened.{LoadsAll, LoadsOver, LoadsFront, StoresAll, StoresPartly};
ghost use Rattle.outside.specs.Streams.{WritesFront};
ghost use Rattle.std.specs.Io.KnownBytes.{Appends};

use super::streams;
use super::traits::{LoadFault, SinkFault, StoreFault};
use std::io::{self, Error, ErrorKind, Read, Write};

// Appends what an opened reader has left, and counts a fault of the system.
//
// Where the system opened nothing, a file that it doesn't have is missing, and every other cause but want of memory
// failed. A read that fails is an error, whatever was appended before it.
pub(crate) fn load_opened<R: Read>(
    opened: &mut io::Result<R>,
    limit: usize,
    into: &mut Vec<u8>,
    faults: &mut u64,
) -> Result<(), LoadFault>
    ensures counted { faults.new ≡ faults_after_load faults.old result }
    ensures later { faults.old ≤ faults.new }
    ensures loaded { OnOk result (LoadsAll R.remaining opened.old limit into.old.items into.new.items) }
    ensures missing { (result ≡ Err LoadFault.Missing) ↔
        IsErrAnd opened.old (λ error. error_kind error ≡ ErrorKind.NotFound) }
    ensures too_long { IsErrOf result LoadFault.TooLong →
        LoadsOver R.remaining opened.old opened.new limit into.old.items into.new.items }
    ensures partly { OnErr result (LoadsFront R.remaining opened.old limit into.old.items into.new.items) }
{
    let answer = match opened {
        Ok(reader) => streams::read_all(reader, limit, into),
        Err(error) => Err(open_fault(error)),
    };
    *faults = count_after_load(*faults, &answer);
    answer
}

// Writes the bytes to an opened writer, and counts a fault of the system. A write that fails is an error, whatever was
// written before it.
pub(crate) fn store_opened<W: Write>(
    opened: &mut io::Result<W>,
    bytes: &[u8],
    faults: &mut u64,
) -> Result<(), StoreFault>
    ensures counted { faults.new ≡ faults_after_store faults.old result }
    ensures later { faults.old ≤ faults.new }
    ensures stored { OnOk result (StoresAll W.contents opened.old opened.new bytes.now) }
    ensures partly { OnErr result (StoresPartly W.contents opened.old opened.new bytes.now) }
{
    let answer = match opened {
        Ok(writer) => streams::write_all(writer, bytes),
        Err(error) => Err(streams::write_fault(error)),
    };
    *faults = count_after_write(*faults, &answer);
    Ok(answer?)
}

// Writes a piece to a writer, and counts a fault of the system.
pub(crate) fn put_counted<W: Write>(
    writer: &mut W,
    piece: &[u8],
    faults: &mut u64,
) -> Result<(), SinkFault>
    ensures counted { faults.new ≡ faults_after_write faults.old result }
    ensures later { faults.old ≤ faults.new }
    ensures all { OnOk result (Appends (W.contents writer.old) (W.contents writer.new) piece.now) }
    ensures front { OnErr result (WritesFront (W.contents writer.old) (W.contents writer.new) piece.now) }
{
    let answer = streams::write_all(writer, piece);
    *faults = count_after_write(*faults, &answer);
    answer
}

// What opening a file answers that isn't opened.
fn open_fault(error: &Error) -> LoadFault
    ensures missing { (result ≡ LoadFault.Missing) ↔ (error_kind error.now ≡ ErrorKind.NotFound) }
    ensures no_memory { (result ≡ LoadFault.NoMemory) ↔ (error_kind error.now ≡ ErrorKind.OutOfMemory) }
    ensures opened { result ≢ LoadFault.TooLong }
{
    if error.kind() == ErrorKind::NotFound {
        LoadFault::Missing
    } else {
        streams::read_fault(error)
    }
}

// The count after a load: one more where the system failed.
fn count_after_load(faults: u64, answer: &Result<(), LoadFault>) -> u64
    ensures counted { result ≡ faults_after_load faults answer.now }
    ensures later { faults ≤ result }
{
    match answer {
        Err(LoadFault::Failed | LoadFault::Missing) => faults.saturating_add(1),
        Err(LoadFault::TooLong | LoadFault::NoMemory) | Ok(()) => faults,
    }
}

// The count after a store or a put: one more where the system failed.
fn count_after_write(faults: u64, answer: &Result<(), SinkFault>) -> u64
    ensures counted { result ≡ faults_after_write faults answer.now }
    ensures later { faults ≤ result }
{
    match answer {
        Err(SinkFault::Failed) => faults.saturating_add(1),
        Err(SinkFault::NoMemory) | Ok(()) => faults,
    }
}
