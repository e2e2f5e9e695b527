// Reading to the end within a limit, and writing a whole piece, over any reader and any writer.
ghost use Rattle.std.specs.Prelude.{◌≡◌, ◌≢◌, ◌↔◌, ◌+◌, ◌++◌, ◌<◌, ◌≤◌, length, take, min, Err, OnOk, OnErr, IfOk};
ghost use Rattle.std.specs.Prelude.{IfErr, IsErrOf};
ghost use Rattle.std.specs.IoError.{error_kind};
ghost use Rattle.std.specs.Io.KnownBytes.{Appends, Keeps, IsAtEnd};
ghost use Rattle.outside.specs.Streams.{ReadsAll, ReadsOver, ReadsFront, ReadsBlock, WritesFront};

use super::traits::{LoadFault, SinkFault};
use std::io::{Error, ErrorKind, Read, Write};

// The most bytes of one read.
const BLOCK: usize = 8192;

// Appends what the reader has left. It reads at most one byte past the limit.
pub(crate) fn read_all<R: Read>(
    reader: &mut R,
    limit: usize,
    into: &mut Vec<u8>,
) -> Result<(), LoadFault>
    ensures all { OnOk result
        (ReadsAll (R.remaining reader.old) limit into.old.items into.new.items) }
    ensures over { IsErrOf result LoadFault.TooLong →
        ReadsOver (R.remaining reader.old) (R.remaining reader.new) limit
        into.old.items into.new.items }
    ensures front { OnErr result
        (ReadsFront (R.remaining reader.old) limit into.old.items into.new.items) }
    ensures there { result ≢ Err LoadFault.Missing }
{
    let mut block = [0u8; BLOCK];
    let mut left = limit;
    loop {
        let most = block_size(left);
        let taken = read_block(reader, &mut block[..most], left, into)?;
        if taken == 0 {
            return Ok(());
        }
        left -= taken;
    }
}

// How many bytes to ask for where `left` may still be appended: one more shows that there are too many.
fn block_size(left: usize) -> usize
    ensures { result ≡ min (left + 1) BLOCK }
{
    left.min(BLOCK - 1) + 1
}

// Appends what one read gives, and says how many bytes these are; 0 is the end.
fn read_block<R: Read>(
    reader: &mut R,
    block: &mut [u8],
    left: usize,
    into: &mut Vec<u8>,
) -> Result<usize, LoadFault>
    requires room { 0 < length block.old }
    requires small { length block.old ≤ left + 1 }
    ensures took { IfOk result (λ count. ReadsBlock (R.remaining reader.old)
        (R.remaining reader.new) count into.old.items into.new.items) }
    ensures within { IfOk result (λ count. count ≤ left) }
    ensures end { IfOk result (λ count. count ≡ 0 → IsAtEnd (R.remaining reader.new)) }
    ensures over { IsErrOf result LoadFault.TooLong →
        ReadsOver (R.remaining reader.old) (R.remaining reader.new) left
        into.old.items into.new.items }
    ensures front { OnErr result
        (ReadsFront (R.remaining reader.old) left into.old.items into.new.items) }
    ensures there { result ≢ Err LoadFault.Missing }
{
    match reader.read(block) {
        Ok(count) => append_within(&block[..count], left, into),
        Err(error) => Err(read_fault(&error)),
    }
}

// Appends the bytes of a block, or the first `left` of them where there are more.
fn append_within(block: &[u8], left: usize, into: &mut Vec<u8>) -> Result<usize, LoadFault>
    ensures ok { IfOk result (λ count. count ≡ length block.now) }
    ensures fits { IfOk result (λ count. count ≤ left) }
    ensures appended { OnOk result (into.new.items ≡ into.old.items ++ block.now) }
    ensures over { IsErrOf result LoadFault.TooLong → left < length block.now }
    ensures cut { IsErrOf result LoadFault.TooLong →
        into.new.items ≡ into.old.items ++ take left block.now }
    ensures no_memory { IfErr result (λ fault. fault ≢ LoadFault.TooLong →
        into.new.items ≡ into.old.items) }
    ensures sound { result ≢ Err LoadFault.Failed }
    ensures there { result ≢ Err LoadFault.Missing }
{
    if left < block.len() {
        into.extend_from_slice(&block[..left])?;
        return Err(LoadFault::TooLong);
    }
    into.extend_from_slice(block)?;
    Ok(block.len())
}

// What a read that failed answers.
pub(crate) fn read_fault(error: &Error) -> LoadFault
    ensures no_memory { (result ≡ LoadFault.NoMemory) ↔ (error_kind error.now ≡ ErrorKind.OutOfMemory) }
    ensures failed { result ≢ LoadFault.NoMemory → result ≡ LoadFault.Failed }
{
    if error.kind() == ErrorKind::OutOfMemory {
        LoadFault::NoMemory
    } else {
        LoadFault::Failed
    }
}

// Writes the whole piece, by as many writes as it takes.
pub(crate) fn write_all<W: Write>(writer: &mut W, piece: &[u8]) -> Result<(), SinkFault>
    ensures all { OnOk result (Appends (W.contents writer.old) (W.contents writer.new) piece.now) }
    ensures front { OnErr result
        (WritesFront (W.contents writer.old) (W.contents writer.new) piece.now) }
{
    let mut rest = piece;
    while !rest.is_empty() {
        let count = write_some(writer, rest)?;
        (_, rest) = rest.split_at(count);
    }
    Ok(())
}

// One write, which takes at least one byte.
fn write_some<W: Write>(writer: &mut W, rest: &[u8]) -> Result<usize, SinkFault>
    requires { 0 < length rest.now }
    ensures some { IfOk result (λ count. 0 < count) }
    ensures within { IfOk result (λ count. count ≤ length rest.now) }
    ensures took { IfOk result (λ count.
        Appends (W.contents writer.old) (W.contents writer.new) (take count rest.now)) }
    ensures none { OnErr result (Keeps (W.contents writer.old) (W.contents writer.new)) }
{
    match writer.write(rest) {
        Ok(0) => Err(SinkFault::Failed),
        Ok(count) => Ok(count),
        Err(error) => Err(write_fault(&error)),
    }
}

// What a write that failed answers.
pub(crate) fn write_fault(error: &Error) -> SinkFault
    ensures no_memory { (result ≡ SinkFault.NoMemory) ↔ (error_kind error.now ≡ ErrorKind.OutOfMemory) }
{
    if error.kind() == ErrorKind::OutOfMemory {
        SinkFault::NoMemory
    } else {
        SinkFault::Failed
    }
}
