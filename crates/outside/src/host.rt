// The system's files and standard output behind the two traits. They tell nothing of content, so each call is the
// opening and one call of what does all the rest over any reader and writer.
ghost use Rattle.std.specs.Prelude.{◌≡◌, ◌≢◌, ◌↔◌, ◌+◌, ◌≤◌, ℕ, length, None, OnOk, OnErr, IsErrOf};
ghost use Rattle.std.specs.IoError.{error_kind};
ghost use Rattle.outside.specs.Host.{faults_after_load, faults_after_store, faults_after_write};
ghost use Rattle.outside.specs.Files.{HasLoaded, HasPartly};

use super::opened::{load_opened, put_counted, store_opened};
use super::traits::{Files, LoadFault, Sink, SinkFault, StoreFault};
use std::alloc::Global;
use std::marker::Model;
use std::{fs, io, rt};

/// The system's files, reached through a runtime.
///
/// Clauses see them as their count of faults. It starts at 0, rises by one at each error of the
/// system, a missing file included, and stays at 2^64 - 1. Want of memory and a file that is over its
/// limit raise nothing.
#[derive(Drop)]
pub struct HostFiles<'a, R> {
    rt: &'a R,
    faults: u64,
}

impl<'a, R> Model for HostFiles<'a, R> {
    ghost Value = { ℕ };

    ghost view = { λ host. host.faults };
}

impl<'a, R: rt::Files> HostFiles<'a, R> {
    /// Makes the files of a runtime, with no fault so far.
    pub fn new(rt: &'a R) -> HostFiles<'a, R>
        ensures { result ≡ 0 }
    {
        HostFiles { rt, faults: 0 }
    }
}

impl<R: rt::Files> Files for HostFiles<'_, R> {
    ghost told = { λ _. None };

    ghost faults = { λ count. count };

    fn load(
        &mut self,
        _alloc: Global,
        name: &str,
        limit: usize,
        into: &mut Vec<u8>,
    ) -> Result<(), LoadFault>
        ensures counted { self.new ≡ faults_after_load self.old result }
        ensures later { self.old ≤ self.new }
        ensures loaded { OnOk result
            (HasLoaded None name.now limit into.old.items into.new.items) }
        ensures too_long { IsErrOf result LoadFault.TooLong →
            length into.new.items ≡ length into.old.items + limit }
        ensures partly { OnErr result
            (HasPartly None name.now limit into.old.items into.new.items) }
    {
        load_opened(&mut fs::open(self.rt, name), limit, into, &mut self.faults)
    }

    fn store(&mut self, _alloc: Global, name: &str, bytes: &[u8]) -> Result<(), StoreFault>
        ensures counted { self.new ≡ faults_after_store self.old result }
        ensures later { self.old ≤ self.new }
    {
        store_opened(&mut fs::create(self.rt, name), bytes, &mut self.faults)
    }
}

/// Standard output, reached through a runtime.
///
/// Clauses see it as its count of faults, which is counted as that of [`HostFiles`].
#[derive(Drop)]
pub struct HostSink<'a, R> {
    rt: &'a R,
    faults: u64,
}

impl<'a, R> Model for HostSink<'a, R> {
    ghost Value = { ℕ };

    ghost view = { λ host. host.faults };
}

impl<'a, R: Print> HostSink<'a, R> {
    /// Makes the standard output of a runtime, with no fault so far.
    pub fn new(rt: &'a R) -> HostSink<'a, R>
        ensures { result ≡ 0 }
    {
        HostSink { rt, faults: 0 }
    }
}

impl<R: Print> Sink for HostSink<'_, R> {
    ghost written = { λ _. None };

    ghost faults = { λ count. count };

    fn put(&mut self, _alloc: Global, piece: &[u8]) -> Result<(), SinkFault>
        ensures counted { self.new ≡ faults_after_write self.old result }
        ensures later { self.old ≤ self.new }
    {
        put_counted(&mut io::writer(self.rt), piece, &mut self.faults)
    }
}
