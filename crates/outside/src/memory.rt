// Files and an output in memory whose calls can be made to fail.
ghost use Rattle.std.specs.Prelude.{◌≡◌, ◌≢◌, ◌≤◌, ◌++◌, [], take, Some, Err, OnOk, OnErr, IfSome, IsSomeAnd, IsErrOf};
ghost use Rattle.std.specs.Option.{option_copied};
ghost use Rattle.std.specs.FinMap as map;
ghost use Rattle.outside.specs.Failing.{no_failing, next_kept, after_call, after_failure, after_naming};
ghost use Rattle.outside.specs.Files.{file_of, bytes_of, with_file, HasLoaded, LacksFile, IsOverLimit, HasPartly};
ghost use Rattle.outside.specs.Files.{StoresFront};
ghost use Rattle.outside.specs.Memory.{IsErrOfEither};
ghost use Rattle.outside.specs.Sink.{AppendsFront};

use super::failing::FailingCalls;
use super::keeping::{KeptFiles, front};
use super::traits::{Files, LoadFault, Sink, SinkFault, StoreFault};
use amdl_tree::NoMemory;
use std::alloc::Global;
use std::marker::Model;

/// Files in memory, of whose loads and stores chosen ones fail.
///
/// Clauses see the map of the files' bytes, and in `failing` the calls that are named, the number of
/// loads and stores together since the value was made, and the count of faults. Both numbers stay at
/// 2^64 - 1.
#[derive(Drop)]
pub struct MemoryFiles {
    files: KeptFiles,
    failing: FailingCalls,
}

impl Model for MemoryFiles {
    ghost use Rattle.outside.specs.Memory.{FailingFiles, coded_failing_files};

    ghost Value = { FailingFiles };

    ghost coded = { coded_failing_files };

    ghost view = { λ memory. record { files = memory.files; failing = memory.failing } };
}

impl MemoryFiles {
    /// Makes files of which there are none, and of whose calls none is to fail.
    pub fn new(alloc: Global) -> MemoryFiles
        ensures files { result.files ≡ map.empty }
        ensures failing { result.failing ≡ no_failing }
    {
        MemoryFiles {
            files: KeptFiles::new(alloc),
            failing: FailingCalls::new(alloc),
        }
    }

    /// Sets a file. It is no call that counts. Takes time in the number of files and in the bytes.
    pub fn keep(&mut self, name: &str, bytes: &[u8]) -> Result<(), NoMemory>
        ensures ok { OnOk result
            (self.new ≡ record self.old { files = with_file self.old.files name.now bytes.now }) }
        ensures err { OnErr result (self.new ≡ self.old) }
    {
        self.files.keep(name, bytes).map_err(|_| NoMemory)
    }

    /// The bytes of a file, or None where there is no such file. Takes time in the number of files.
    pub fn bytes<'a>(&'a self, name: &str) -> Option<&'a [u8]>
        ensures { option_copied result ≡ file_of self.now.files name.now }
    {
        self.files.bytes(name)
    }

    /// Names a load or a store that is to fail, by its number among both of them, counted from 0 since
    /// the files were made.
    ///
    /// What the call moves before it fails is `kept` bytes, or all where there are fewer. An earlier
    /// naming of the same call stays. Takes time in the number of calls that are named.
    pub fn fail_call(&mut self, call: u32, kept: usize) -> Result<(), NoMemory>
        ensures ok { OnOk result
            (self.new ≡ record self.old { failing = after_naming self.old.failing call kept }) }
        ensures err { OnErr result (self.new ≡ self.old) }
    {
        self.failing.name_call(call, kept).map_err(|_| NoMemory)
    }
}

impl Files for MemoryFiles {
    ghost told = { λ memory. Some memory.files };

    ghost faults = { λ memory. memory.failing.faults };

    fn load(
        &mut self,
        _alloc: Global,
        name: &str,
        limit: usize,
        into: &mut Vec<u8>,
    ) -> Result<(), LoadFault>
        // As of any files.
        ensures same { self.new.files ≡ self.old.files }
        ensures later { self.old.failing.faults ≤ self.new.failing.faults }
        ensures loaded { OnOk result
            (HasLoaded (Some self.old.files) name.now limit into.old.items into.new.items) }
        ensures missing { IsErrOf result LoadFault.Missing →
            LacksFile (Some self.old.files) name.now self.old.failing.faults self.new.failing.faults }
        ensures too_long { IsErrOf result LoadFault.TooLong →
            IsOverLimit (Some self.old.files) name.now limit into.old.items into.new.items }
        ensures partly { OnErr result
            (HasPartly (Some self.old.files) name.now limit into.old.items into.new.items) }

        // A call that is named fails or lacks memory, and no other call fails.
        ensures named { IfSome (next_kept self.old.failing)
            (λ _. IsErrOfEither result LoadFault.Failed LoadFault.NoMemory) }
        ensures kept { IsErrOf result LoadFault.Failed → IsSomeAnd (next_kept self.old.failing)
            (λ kept. into.new.items ≡ into.old.items ++ take kept (bytes_of self.old.files name.now)) }
        ensures unchanged { OnErr result
            (result ≢ Err LoadFault.Failed → into.new.items ≡ into.old.items) }

        // Each call counts, and a failure alone counts as a fault.
        ensures counted { result ≢ Err LoadFault.Failed →
            self.new ≡ record self.old { failing = after_call self.old.failing } }
        ensures failed { IsErrOf result LoadFault.Failed →
            self.new ≡ record self.old { failing = after_failure self.old.failing } }
    {
        match self.failing.next_call() {
            None => self.files.load(name, limit, into),
            Some(kept) => {
                self.files.load_front(name, kept, into)?;
                self.failing.fail();
                Err(LoadFault::Failed)
            }
        }
    }

    fn store(&mut self, _alloc: Global, name: &str, bytes: &[u8]) -> Result<(), StoreFault>
        // As of any files.
        ensures later { self.old.failing.faults ≤ self.new.failing.faults }
        ensures partly { OnErr result
            (StoresFront (Some self.old.files) (Some self.new.files) name.now bytes.now) }

        // A call that is named fails or lacks memory, and no other call fails.
        ensures named { IfSome (next_kept self.old.failing)
            (λ _. IsErrOfEither result StoreFault.Failed StoreFault.NoMemory) }

        // Each answer says what the files are and which calls were made.
        ensures stored { OnOk result (self.new ≡ record self.old {
          files = with_file self.old.files name.now bytes.now;
          failing = after_call self.old.failing;
        }) }
        ensures failed { IsErrOf result StoreFault.Failed → IsSomeAnd (next_kept self.old.failing)
            (λ kept. self.new ≡ record self.old {
              files = with_file self.old.files name.now (take kept bytes.now);
              failing = after_failure self.old.failing;
            }) }
        ensures no_memory { IsErrOf result StoreFault.NoMemory →
            self.new ≡ record self.old { failing = after_call self.old.failing } }
    {
        match self.failing.next_call() {
            None => Ok(self.files.keep(name, bytes)?),
            Some(kept) => {
                self.files.keep(name, front(bytes, kept))?;
                self.failing.fail();
                Err(StoreFault::Failed)
            }
        }
    }
}

/// An output in memory, of whose puts chosen ones fail.
///
/// Clauses see the bytes that were written, and in `failing` the calls that are named, the number of
/// puts since the value was made, and the count of faults. Both numbers stay at 2^64 - 1.
#[derive(Drop)]
pub struct MemorySink {
    bytes: Vec<u8>,
    failing: FailingCalls,
}

impl Model for MemorySink {
    ghost use Rattle.outside.specs.Memory.{FailingBytes, coded_failing_bytes};

    ghost Value = { FailingBytes };

    ghost coded = { coded_failing_bytes };

    ghost view = { λ memory. record { bytes = memory.bytes.items; failing = memory.failing } };
}

impl MemorySink {
    /// Makes an output to which nothing was written, and of whose puts none is to fail.
    pub fn new(alloc: Global) -> MemorySink
        ensures bytes { result.bytes ≡ [] }
        ensures failing { result.failing ≡ no_failing }
    {
        MemorySink {
            bytes: Vec::new(alloc),
            failing: FailingCalls::new(alloc),
        }
    }

    /// All bytes that were written.
    pub fn bytes(&self) -> &[u8]
        ensures { result.now ≡ self.now.bytes }
    {
        self.bytes.as_slice()
    }

    /// Names a put that is to fail, by its number, counted from 0 since the output was made.
    ///
    /// What the put appends before it fails is `kept` bytes, or all where there are fewer. An earlier
    /// naming of the same put stays. Takes time in the number of puts that are named.
    pub fn fail_call(&mut self, call: u32, kept: usize) -> Result<(), NoMemory>
        ensures ok { OnOk result
            (self.new ≡ record self.old { failing = after_naming self.old.failing call kept }) }
        ensures err { OnErr result (self.new ≡ self.old) }
    {
        self.failing.name_call(call, kept).map_err(|_| NoMemory)
    }
}

impl Sink for MemorySink {
    ghost written = { λ memory. Some memory.bytes };

    ghost faults = { λ memory. memory.failing.faults };

    fn put(&mut self, _alloc: Global, piece: &[u8]) -> Result<(), SinkFault>
        // As of any sink.
        ensures later { self.old.failing.faults ≤ self.new.failing.faults }
        ensures partly { OnErr result
            (AppendsFront (Some self.old.bytes) (Some self.new.bytes) piece.now) }

        // A put that is named fails or lacks memory, and no other put fails.
        ensures named { IfSome (next_kept self.old.failing)
            (λ _. IsErrOfEither result SinkFault.Failed SinkFault.NoMemory) }

        // Each answer says what the bytes are and which puts were made.
        ensures appended { OnOk result (self.new ≡ record self.old {
          bytes = self.old.bytes ++ piece.now;
          failing = after_call self.old.failing;
        }) }
        ensures failed { IsErrOf result SinkFault.Failed → IsSomeAnd (next_kept self.old.failing)
            (λ kept. self.new ≡ record self.old {
              bytes = self.old.bytes ++ take kept piece.now;
              failing = after_failure self.old.failing;
            }) }
        ensures no_memory { IsErrOf result SinkFault.NoMemory →
            self.new ≡ record self.old { failing = after_call self.old.failing } }
    {
        match self.failing.next_call() {
            None => Ok(self.bytes.extend_from_slice(piece)?),
            Some(kept) => {
                self.bytes.extend_from_slice(front(piece, kept))?;
                self.failing.fail();
                Err(SinkFault::Failed)
            }
        }
    }
}
