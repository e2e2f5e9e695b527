ghost use Rattle.std.specs.Prelude.{◌≡◌, drop, OnOk};
ghost use Rattle.handler_runs.specs.Code.{standing, goes_on};
ghost use Rattle.handler_runs.specs.Run.{with_left, put_out};

use amdl_tree::{List, NoMemory};
use box_contents::Contents;

/// A packet that is put out at a port.
#[derive(Clone, Copy, PartialEq, Eq, Debug)]
pub struct Emission {
    pub port: u32,
    pub packet: u32,
}

/// Where a run stands.
#[derive(Drop)]
pub(crate) struct Progress<'a> {
    pub(crate) contents: Contents,
    pub(crate) outputs: List<Emission>,
    // the choices that are left
    pub(crate) left: &'a [u32],
}

impl Progress<'_> {
    // The next choice is used, if there is one.
    pub(crate) fn use_choice(&mut self)
        ensures { standing self.new ≡ with_left (standing self.old) (drop 1 self.old.left.now) }
    {
        if let [_, rest @ ..] = self.left {
            self.left = rest;
        }
    }

    // A packet more is put out.
    pub(crate) fn put_out(&mut self, port: u32, packet: u32) -> Result<(), NoMemory>
        ensures { OnOk result (standing self.new ≡ put_out (standing self.old) port packet) }
    {
        self.outputs.push(Emission { port, packet })
    }
}

/// What a piece of a handler came to.
#[derive(Clone, Copy, PartialEq, Eq, Debug)]
pub(crate) enum Course {
    // the run goes on behind it
    Goes,
    // it aborted
    Aborts,
    // the next of the choices that are left is none that may be made, or none is left
    Stuck,
}

pub(crate) fn goes_on(course: Course) -> bool
    ensures { result ≡ goes_on course }
{
    match course {
        Course::Goes => true,
        Course::Aborts => false,
        Course::Stuck => false,
    }
}
