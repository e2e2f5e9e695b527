// Which calls are to fail, the number of calls, and the count of faults.
ghost use Rattle.std.specs.Prelude.{◌≡◌, ◌≤◌, Option, OnOk, OnErr};
ghost use Rattle.outside.specs.Faults.{one_more};
ghost use Rattle.outside.specs.Failing.{no_failing, next_kept, after_call, after_naming};
ghost use Rattle.outside.specs.Naming.{first_naming};

use std::alloc::{AllocError, Global};
use std::marker::Model;

// A call that is to fail after `kept` bytes.
#[derive(Clone, Copy)]
pub(crate) struct Named {
    call: u32,
    kept: usize,
}

#[derive(Drop)]
pub(crate) struct FailingCalls {
    named: Vec<Named>,
    calls: u64,
    faults: u64,
}

impl Model for FailingCalls {
    ghost use Rattle.outside.specs.Failing.{Failing, coded_failing};
    ghost use Rattle.outside.specs.Naming.{named_calls};

    ghost Value = { Failing };

    ghost coded = { coded_failing };

    ghost view = { λ failing. record {
      named = named_calls failing.named.items;
      calls = failing.calls;
      faults = failing.faults;
    } };
}

impl FailingCalls {
    pub(crate) fn new(alloc: Global) -> FailingCalls
        ensures { result ≡ no_failing }
    {
        FailingCalls {
            named: Vec::new(alloc),
            calls: 0,
            faults: 0,
        }
    }

    // Names a call; what an earlier naming says of it stays.
    pub(crate) fn name_call(&mut self, call: u32, kept: usize) -> Result<(), AllocError>
        ensures ok { OnOk result (self.new ≡ after_naming self.old call kept) }
        ensures err { OnErr result (self.new ≡ self.old) }
    {
        if kept_by(&self.named, u64::from(call)).is_none() {
            self.named.push(Named { call, kept })?;
        }
        Ok(())
    }

    // Counts a call, and says how many bytes it keeps where it is to fail.
    pub(crate) fn next_call(&mut self) -> Option<usize>
        ensures kept { result ≡ next_kept self.old }
        ensures counted { self.new ≡ after_call self.old }
    {
        let kept = kept_by(&self.named, self.calls);
        self.calls = self.calls.saturating_add(1);
        kept
    }

    // Counts a fault.
    pub(crate) fn fail(&mut self)
        ensures raised { self.new ≡ record self.old { faults = one_more self.old.faults } }
        ensures later { self.old.faults ≤ self.new.faults }
    {
        self.faults = self.faults.saturating_add(1);
    }
}

// How many bytes the first naming of a call keeps.
fn kept_by(named: &[Named], call: u64) -> Option<usize>
    ensures { result ≡ first_naming named.now call }
{
    for naming in named {
        if u64::from(naming.call) == call {
            return Some(naming.kept);
        }
    }
    None
}
