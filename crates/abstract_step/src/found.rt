ghost use Rattle.std.specs.Prelude.{◌≡◌, ◌≤◌, ◌+◌, [], ◌∷◌, ◌++◌, false, length};
ghost use Rattle.std.specs.Vec.{vec_len, vec_capacity};
ghost use Rattle.abstract_step.specs.Paths.{aborted};
ghost use Rattle.abstract_step.specs.Walk.{HasRoom, Gains};

use crate::put::Put;
use box_masks::Write;

/// A result, where its writes and puts stand among those of all results.
#[derive(Clone, Copy, PartialEq, Eq, Debug)]
pub(crate) struct Ending {
    pub(crate) aborted: bool,
    pub(crate) writes_from: usize,
    pub(crate) writes_to: usize,
    pub(crate) puts_from: usize,
    pub(crate) puts_to: usize,
}

/// Results, with their writes and puts one behind another.
#[derive(Drop)]
pub(crate) struct Found {
    pub(crate) endings: Vec<Ending>,
    pub(crate) writes: Vec<Write>,
    pub(crate) puts: Vec<Put>,
}

/// An aborted result more.
pub(crate) fn add_aborted(found: &mut Found)
    requires { HasRoom found.old (aborted ∷ []) }
    ensures { Gains found.old found.new (aborted ∷ []) }
{
    let writes = found.writes.len();
    let puts = found.puts.len();
    found.endings.push_reserved(Ending {
        aborted: true,
        writes_from: writes,
        writes_to: writes,
        puts_from: puts,
        puts_to: puts,
    });
}

/// A result more, with these writes and puts.
pub(crate) fn add_ending(found: &mut Found, writes: &[Write], puts: &[Put])
    requires { HasRoom found.old (record { aborted = false; writes = writes.now; puts = puts.now } ∷ []) }
    ensures { Gains found.old found.new (record { aborted = false; writes = writes.now; puts = puts.now } ∷ []) }
{
    let writes_from = found.writes.len();
    let puts_from = found.puts.len();
    add_all(&mut found.writes, writes);
    add_all(&mut found.puts, puts);
    found.endings.push_reserved(Ending {
        aborted: false,
        writes_from,
        writes_to: writes_from + writes.len(),
        puts_from,
        puts_to: puts_from + puts.len(),
    });
}

// More items at the end, of which there are often none.
fn add_all<T: Copy>(items: &mut Vec<T>, more: &[T])
    requires { vec_len items.old + length more.now ≤ vec_capacity items.old }
    ensures items { items.new.items ≡ items.old.items ++ more.now }
    ensures room { vec_capacity items.old ≤ vec_capacity items.new }
{
    if !more.is_empty() {
        let _ = items.extend_from_slice(more);
    }
}
