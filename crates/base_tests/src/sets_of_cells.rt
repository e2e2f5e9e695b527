//! Sets of cells: one list of calls on each of them, and a work space over each.
use amdl_tree::NoMemory;
use cell_sets::{BitSet, ByteSet, CellSet, Facts};
use fix_engine::Work;
use std::alloc::Global;

/// What the calls answered.
#[derive(Clone, Copy, PartialEq, Eq)]
struct Answers {
    added: [bool; 5],
    count: u32,
    next: [Option<u32>; 4],
    taken: bool,
    left: Option<u32>,
}

fn answers_of<S: CellSet>(alloc: Global) -> Result<Answers, NoMemory> {
    let mut set = S::make(alloc, 130)?;
    let added = [
        set.add(0),
        set.add(63),
        set.add(64),
        set.add(129),
        set.add(64),
    ];
    let count = set.count();
    let next = [
        set.next_from(0),
        set.next_from(1),
        set.next_from(65),
        set.next_from(130),
    ];
    let taken = set.take_out(64);
    let left = set.next_from(64);
    Ok(Answers {
        added,
        count,
        next,
        taken,
        left,
    })
}

const EXPECTED: Answers = Answers {
    added: [true, true, true, true, false],
    count: 4,
    next: [Some(0), Some(63), Some(129), None],
    taken: true,
    left: Some(129),
};

#[test]
fn all_sets_answer_alike(rt: HostRuntime) {
    assert!(rt; answers_of::<ByteSet>(rt.alloc()) == Ok(EXPECTED), "bytes");
    assert!(rt; answers_of::<BitSet>(rt.alloc()) == Ok(EXPECTED), "bits");
    assert!(rt; answers_of::<Facts>(rt.alloc()) == Ok(EXPECTED), "facts");
}

/// What a work space answered while two cells were offered, one of them twice, and one was taken.
#[derive(Clone, Copy, PartialEq, Eq)]
struct Turn {
    taken: Option<u32>,
    done: [bool; 2],
    waits: [bool; 2],
    next_found: [Option<u32>; 2],
    next_done: [Option<u32>; 2],
    set: [bool; 2],
}

fn turn_of<S: CellSet>(alloc: Global) -> Result<Turn, NoMemory> {
    let mut work: Work<S> = Work::new(alloc, 100)?;
    work.offer(70);
    work.offer(3);
    work.offer(70);
    let taken = work.take();
    let done = [work.is_done(70), work.is_done(3)];
    let waits = [work.waits(70), work.waits(3)];
    let next_found = [work.next_found(0), work.next_found(71)];
    let next_done = [work.next_done(0), work.next_done(71)];
    let set = [work.found(3), work.found(4)];
    Ok(Turn {
        taken,
        done,
        waits,
        next_found,
        next_done,
        set,
    })
}

const FIRST_OFFERED: Turn = Turn {
    taken: Some(70),
    done: [true, false],
    waits: [false, true],
    next_found: [Some(3), None],
    next_done: [Some(70), None],
    set: [true, false],
};

#[test]
fn first_offered_is_taken_first(rt: HostRuntime) {
    assert!(rt;
        turn_of::<ByteSet>(rt.alloc()) == Ok(FIRST_OFFERED),
        "bytes"
    );
    assert!(rt; turn_of::<BitSet>(rt.alloc()) == Ok(FIRST_OFFERED), "bits");
}
