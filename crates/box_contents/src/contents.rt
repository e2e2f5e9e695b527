ghost use Rattle.std.specs.Prelude.{◌≡◌, ◌<◌, ◌≤◌, [], false, not, length, insert, remove, IsTrue, OnErr, IfOk};
ghost use Rattle.std.specs.Prelude.{MatchResult};
ghost use Rattle.box_contents.specs.Contents.{IsRising, holds_entry, with_entry, without_entry};

use crate::entry::Entry;
use amdl_tree::NoMemory;
use std::alloc::Global;
use std::marker::Model;

/// A set of entries, which contracts see as the rising list of its members.
///
/// `holds` takes time logarithmic in the entries, `put` and `take_out` linear in those behind the place, and `copy`
/// linear in all.
#[derive(Debug, Drop)]
pub struct Contents {
    items: Vec<Entry>,
}

impl Model for Contents {
    ghost use Rattle.std.specs.Prelude.{List};
    ghost use Rattle.box_contents.specs.declared.entry.Entry.{Entry};
    ghost use Rattle.box_contents.specs.Contents.{IsRising};

    ghost Value = { List Entry };

    ghost view = { λ contents. contents.items.items };

    ghost invariant = { λ contents. IsRising contents.items.items };
}

impl Contents {
    /// No entry at all, which takes no memory.
    pub fn new(alloc: Global) -> Contents
        ensures { result ≡ [] }
    {
        Contents {
            items: Vec::new(alloc),
        }
    }

    /// Whether the entry is a member.
    pub fn holds(&self, entry: Entry) -> bool
        ensures { result ≡ holds_entry self.now entry }
    {
        is_among(self.entries(), entry)
    }

    /// Puts an entry in. The Ok value is whether it was absent. After want of memory the contents are as before.
    pub fn put(&mut self, entry: Entry) -> Result<bool, NoMemory>
        ensures entries { IfOk result (λ _. self.new ≡ with_entry self.old entry) }
        ensures absent { IfOk result (λ absent. absent ≡ not (holds_entry self.old entry)) }
        ensures err { OnErr result (self.new ≡ self.old) }
    {
        match place_of(self.entries(), entry) {
            Ok(_) => Ok(false),
            Err(place) => match self.items.insert(place, entry) {
                Ok(()) => Ok(true),
                Err(_) => Err(NoMemory),
            },
        }
    }

    /// Takes an entry out, and answers whether it was a member. It takes no memory.
    pub fn take_out(&mut self, entry: Entry) -> bool
        ensures entries { self.new ≡ without_entry self.old entry }
        ensures present { result ≡ holds_entry self.old entry }
    {
        match place_of(self.entries(), entry) {
            Ok(place) => {
                self.items.remove(place);
                true
            }
            Err(_) => false,
        }
    }

    /// The members in rising order. It takes no memory.
    pub fn entries(&self) -> &[Entry]
        ensures entries { result.now ≡ self.now }
        ensures rising { IsRising self.now }
    {
        self.items.as_slice()
    }

    /// Contents with the same members.
    pub fn copy(&self) -> Result<Contents, NoMemory>
        ensures { IfOk result (λ contents. contents ≡ self.now) }
    {
        match Vec::from_slice(*self.items.allocator(), self.items.as_slice()) {
            Ok(items) => Ok(Contents { items }),
            Err(_) => Err(NoMemory),
        }
    }
}

/// Whether the entry is among these, which rise. Logarithmic in the entries.
pub fn is_among(entries: &[Entry], entry: Entry) -> bool
    requires { IsRising entries.now }
    ensures { result ≡ holds_entry entries.now entry }
{
    place_of(entries, entry).is_ok()
}

// The place of the entry, or that at which it would stand.
fn place_of(entries: &[Entry], entry: Entry) -> Result<usize, usize>
    requires { IsRising entries.now }
    ensures within { MatchResult result (λ place. place < length entries.now) (λ place. place ≤ length entries.now) }
    ensures held { MatchResult result (λ _. IsTrue (holds_entry entries.now entry))
        (λ _. holds_entry entries.now entry ≡ false) }
    ensures with { MatchResult result (λ _. with_entry entries.now entry ≡ entries.now)
        (λ place. with_entry entries.now entry ≡ insert entries.now place entry) }
    ensures without { MatchResult result (λ place. without_entry entries.now entry ≡ remove entries.now place)
        (λ _. without_entry entries.now entry ≡ entries.now) }
{
    entries.binary_search(&entry)
}
