//! Contents, and the network of a plan with a box: that they are made where there is memory.
ghost use Rattle.std.specs.Prelude.{◌≡◌, ◌≢◌, [], ◌∷◌, IfOk};
ghost use Rattle.amdl_tree.specs.Word.{IsName};

use amdl_tree::{List, Name, NoMemory};
use box_contents::{Contents, Entry};
use net_plan::{
    BoxPlan, ClassPlan, FieldPlan, HostPlan, KindPlan, LinkPlan, Network, Plan, RelationPlan,
};
use std::alloc::Global;

fn entry(relation: u32, tuple: u32) -> Entry {
    Entry { relation, tuple }
}

// Entries as they are put in, and whether each was absent.
const PUT: [(u32, u32, bool); 4] = [(1, 0, true), (0, 7, true), (1, 0, false), (0, 3, true)];

#[test]
fn contents_change(rt: HostRuntime) -> Result<(), NoMemory> {
    let mut contents = Contents::new(rt.alloc());
    for (relation, tuple, absent) in &PUT {
        assert!(rt;
            contents.put(entry(*relation, *tuple)) == Ok(*absent),
            "absent or not"
        );
    }
    let kept = contents.copy()?;
    let taken = contents.take_out(entry(0, 7));
    let again = contents.take_out(entry(0, 7));
    assert!(rt; taken && !again, "taken out once");
    assert!(rt;
        contents.entries() == [entry(0, 3), entry(1, 0)].as_slice(),
        "left"
    );
    assert!(rt;
        kept.holds(entry(0, 7)) && kept.entries().len() == 3,
        "copied"
    );
    Ok(())
}

// A list of one item.
fn only<T: Drop>(alloc: Global, item: T) -> Result<List<T>, NoMemory>
    ensures { IfOk result (λ list. list ≡ item ∷ []) }
{
    let mut list = List::new(alloc);
    list.push(item)?;
    Ok(list)
}

// A box with one port and one tuple, whose port is linked to the one host; packets have one field of one value.
fn one_box(alloc: Global, a: Name, b: Name) -> Result<Network, NoMemory>
    requires one { IsName a }
    requires other { IsName b }
    requires apart { a ≢ b }
{
    let kind = KindPlan {
        name: a,
        values: only(alloc, a)?,
    };
    let relation = RelationPlan {
        name: a,
        kinds: only(alloc, 0)?,
    };
    let class = ClassPlan {
        ports: only(alloc, a)?,
        relations: only(alloc, relation)?,
        handlers: only(alloc, List::new(alloc))?,
        queries: List::new(alloc),
    };
    let host = HostPlan {
        name: a,
        sends: List::new(alloc),
        forbids: List::new(alloc),
    };
    let boxed = BoxPlan {
        name: b,
        class: 0,
        first: only(
            alloc,
            Entry {
                relation: 0,
                tuple: 0,
            },
        )?,
    };
    let plan = Plan {
        name: a,
        kinds: only(alloc, kind)?,
        fields: only(alloc, FieldPlan { name: b, kind: 0 })?,
        classes: only(alloc, class)?,
        hosts: only(alloc, host)?,
        boxes: only(alloc, boxed)?,
        links: only(alloc, LinkPlan { one: 0, two: 1 })?,
    };
    Network::new(alloc, plan)
}

// How many ends, cells and links it has.
fn one_box_counts(alloc: Global) -> Option<Result<(u32, u32, u32), NoMemory>> {
    let a = Name::new(b"a")?;
    let b = Name::new(b"b")?;
    match one_box(alloc, a, b) {
        Ok(network) => Some(Ok((network.ends(), network.cells(), network.links()))),
        Err(fault) => Some(Err(fault)),
    }
}

#[test]
fn a_network_with_a_box(rt: HostRuntime) {
    assert!(rt;
        one_box_counts(rt.alloc()) == Some(Ok((2, 4, 1))),
        "ends, cells, links"
    );
}
