// The two traits by which a caller lends files and an output.
ghost use Rattle.std.specs.Prelude.{◌≡◌, ◌≤◌, ℕ, List, Option, OnOk, OnErr, IsErrOf, is_some};
ghost use Rattle.std.specs.Io.KnownBytes.{append_known};
ghost use Rattle.outside.specs.Faults.{Rose};
ghost use Rattle.outside.specs.Files.{FileMap, HasLoaded, LacksFile, IsOverLimit, HasPartly, with_known_file};
ghost use Rattle.outside.specs.Files.{StoresFront};
ghost use Rattle.outside.specs.Sink.{AppendsFront};
ghost use Rattle.outside.specs.Writing.{store_fault_of};
ghost use Rattle.outside.specs.declared.traits.LoadFault.TheVariants as load_fault;
ghost use Rattle.outside.specs.declared.traits.StoreFault.TheVariants as store_fault;
ghost use Rattle.outside.specs.declared.traits.SinkFault.TheVariants as sink_fault;

use std::alloc::{AllocError, Global};

/// Why a file wasn't loaded.
#[derive(Clone, Copy, Debug, PartialEq, Eq)]
pub enum LoadFault {
    /// The outside failed. It goes before `Missing` and `TooLong`.
    Failed,
    /// There is no such file.
    Missing,
    /// The file is longer than the limit.
    TooLong,
    /// There was no memory. It may come in place of every other answer.
    NoMemory,
}

/// Why a file wasn't stored.
#[derive(Clone, Copy, Debug, PartialEq, Eq)]
pub enum StoreFault {
    /// The outside failed.
    Failed,
    /// There was no memory.
    NoMemory,
}

/// Why a piece wasn't put out.
#[derive(Clone, Copy, Debug, PartialEq, Eq)]
pub enum SinkFault {
    /// The outside failed.
    Failed,
    /// There was no memory.
    NoMemory,
}

impl From<AllocError> for LoadFault {
    ghost from_gives = { λ _ fault. fault ≡ load_fault.NoMemory };

    fn from(_error: AllocError) -> LoadFault {
        LoadFault::NoMemory
    }
}

impl From<AllocError> for StoreFault {
    ghost from_gives = { λ _ fault. fault ≡ store_fault.NoMemory };

    fn from(_error: AllocError) -> StoreFault {
        StoreFault::NoMemory
    }
}

impl From<AllocError> for SinkFault {
    ghost from_gives = { λ _ fault. fault ≡ sink_fault.NoMemory };

    fn from(_error: AllocError) -> SinkFault {
        SinkFault::NoMemory
    }
}

impl From<SinkFault> for StoreFault {
    ghost from_gives = { λ fault stored. stored ≡ store_fault_of fault };

    fn from(fault: SinkFault) -> StoreFault {
        match fault {
            SinkFault::Failed => StoreFault::Failed,
            SinkFault::NoMemory => StoreFault::NoMemory,
        }
    }
}

/// Files by name, of which each is a list of bytes.
///
/// `told` is the map of the files where an implementation tells it, and no call changes whether it
/// does. `faults` counts the failures of the outside; it never falls, and a failure is answered only
/// where it rose in that call.
pub trait Files {
    ghost told: { Self → Option FileMap };

    ghost faults: { Self → ℕ };

    /// Appends the whole file under `name` to `into`, at most `limit` bytes.
    ///
    /// After an error `into` holds what it held, perhaps followed by a front of the file. Want of
    /// memory is a free answer, and it raises no count. Takes time and memory in the bytes that are
    /// appended.
    fn load(
        &mut self,
        alloc: Global,
        name: &str,
        limit: usize,
        into: &mut Vec<u8>,
    ) -> Result<(), LoadFault>
        ensures same { told self.new ≡ told self.old }
        ensures later { faults self.old ≤ faults self.new }
        ensures loaded { OnOk result
            (HasLoaded (told self.old) name.now limit into.old.items into.new.items) }

        // Each error has its cause; where a map is told, `loaded` excludes the causes of the second
        // and the third, so that these come exactly there.
        ensures failed { IsErrOf result LoadFault.Failed → Rose (faults self.old) (faults self.new) }
        ensures missing { IsErrOf result LoadFault.Missing →
            LacksFile (told self.old) name.now (faults self.old) (faults self.new) }
        ensures too_long { IsErrOf result LoadFault.TooLong →
            IsOverLimit (told self.old) name.now limit into.old.items into.new.items }
        ensures no_memory { IsErrOf result LoadFault.NoMemory →
            faults self.new ≡ faults self.old }
        ensures partly { OnErr result
            (HasPartly (told self.old) name.now limit into.old.items into.new.items) };

    /// Makes `bytes` the whole content of the file `name`. Other files stay in every case.
    ///
    /// After `Failed` the file holds what it held or a front of the bytes; want of memory leaves it
    /// and raises no count.
    fn store(&mut self, alloc: Global, name: &str, bytes: &[u8]) -> Result<(), StoreFault>
        ensures tells { is_some (told self.new) ≡ is_some (told self.old) }
        ensures later { faults self.old ≤ faults self.new }
        ensures stored { OnOk result
            (told self.new ≡ with_known_file (told self.old) name.now bytes.now) }
        ensures failed { IsErrOf result StoreFault.Failed → Rose (faults self.old) (faults self.new) }
        ensures partly { OnErr result
            (StoresFront (told self.old) (told self.new) name.now bytes.now) }
        ensures no_memory { IsErrOf result StoreFault.NoMemory →
            faults self.new ≡ faults self.old }
        ensures kept { IsErrOf result StoreFault.NoMemory → told self.new ≡ told self.old };
}

/// An output to which pieces of bytes are appended.
///
/// `written` is the list of all bytes that were written where an implementation tells it, and no call
/// changes whether it does. `faults` counts the failures of the outside and never falls.
pub trait Sink {
    ghost written: { Self → Option (List ℕ) };

    ghost faults: { Self → ℕ };

    /// Appends `piece`.
    ///
    /// After `Failed` a front of the piece is appended; want of memory appends nothing and raises no
    /// count.
    fn put(&mut self, alloc: Global, piece: &[u8]) -> Result<(), SinkFault>
        ensures tells { is_some (written self.new) ≡ is_some (written self.old) }
        ensures later { faults self.old ≤ faults self.new }
        ensures appended { OnOk result
            (written self.new ≡ append_known (written self.old) piece.now) }
        ensures failed { IsErrOf result SinkFault.Failed → Rose (faults self.old) (faults self.new) }
        ensures partly { OnErr result
            (AppendsFront (written self.old) (written self.new) piece.now) }
        ensures no_memory { IsErrOf result SinkFault.NoMemory →
            faults self.new ≡ faults self.old }
        ensures kept { IsErrOf result SinkFault.NoMemory → written self.new ≡ written self.old };
}
