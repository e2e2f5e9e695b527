//! Putting a reply out in pieces.
ghost use Rattle.std.specs.Prelude.{◌≡◌, ℕ, ◌≤◌, ◌<◌, ◌++◌, [], List, length, min, MatchOption, OnOk, OnErr, IsErrOf};
ghost use Rattle.std.specs.Io.KnownBytes.{append_known};
ghost use Rattle.outside.specs.Faults.{Rose};
ghost use Rattle.outside.specs.Sink.{AppendsFront};

use outside::{Sink, SinkFault};
use std::alloc::Global;

/// The most bytes that are put out at a time.
const LONGEST_PIECE: usize = 4096;

/// Puts a text out in order, in pieces of at most 4,096 bytes, each full but the last. Linear in the text.
pub fn put_text<S: Sink>(alloc: Global, text: &[u8], out: &mut S) -> Result<(), SinkFault>
    ensures later { S.faults out.old ≤ S.faults out.new }
    ensures ok { OnOk result (S.written out.new ≡ append_known (S.written out.old) text.now) }
    ensures failed { IsErrOf result SinkFault.Failed → Rose (S.faults out.old) (S.faults out.new) }
    ensures front { OnErr result (AppendsFront (S.written out.old) (S.written out.new) text.now) }
{
    let mut rest = text;
    while let Some((piece, others)) = next_piece(rest) {
        out.put(alloc, piece)?;
        rest = others;
    }
    Ok(())
}

/// The next piece of a text and what stands behind it. Nothing is left exactly where there is none.
pub fn next_piece(rest: &[u8]) -> Option<(&[u8], &[u8])>
    ensures { MatchOption result (rest.now ≡ [])
        (λ cut. (rest.now ≡ cut.0.now ++ cut.1.now)
        × (length cut.0.now ≡ min (length rest.now) 4096) × (0 < length cut.0.now)) }
{
    if rest.is_empty() {
        return None;
    }
    Some(rest.split_at(rest.len().min(LONGEST_PIECE)))
}
