// Files and an output in memory that fail only for want of memory.
ghost use Rattle.std.specs.Prelude.{◌≡◌, ◌≤◌, ◌++◌, [], ℕ, List, Option, Some, OnOk, OnErr, IsErrOf, is_some};
ghost use Rattle.std.specs.Option.{option_copied};
ghost use Rattle.std.specs.Io.KnownBytes.{append_known};
ghost use Rattle.std.specs.FinMap as map;
ghost use Rattle.outside.specs.Files.{FileMap, file_of, with_file};

use super::keeping::KeptFiles;
use super::traits::{Files, LoadFault, Sink, SinkFault, StoreFault};
use amdl_tree::NoMemory;
use std::alloc::Global;
use std::marker::Model;

/// Files in memory, which fail only for want of memory.
///
/// Clauses see them as the map of their bytes. Their count of faults is 0 for good.
#[derive(Drop)]
pub struct SureFiles {
    files: KeptFiles,
}

impl Model for SureFiles {
    ghost use Rattle.outside.specs.Files.{FileMap, coded_files};

    ghost Value = { FileMap };

    ghost coded = { coded_files };

    ghost view = { λ sure. sure.files };
}

impl SureFiles {
    /// Makes files of which there are none.
    pub fn new(alloc: Global) -> SureFiles
        ensures { result ≡ map.empty }
    {
        SureFiles {
            files: KeptFiles::new(alloc),
        }
    }

    /// Sets a file. Takes time in the number of files and in the bytes.
    pub fn keep(&mut self, name: &str, bytes: &[u8]) -> Result<(), NoMemory>
        ensures ok { OnOk result (self.new ≡ with_file self.old name.now bytes.now) }
        ensures err { OnErr result (self.new ≡ self.old) }
    {
        self.files.keep(name, bytes).map_err(|_| NoMemory)
    }

    /// The bytes of a file, or None where there is no such file. Takes time in the number of files.
    pub fn bytes<'a>(&'a self, name: &str) -> Option<&'a [u8]>
        ensures { option_copied result ≡ file_of self.now name.now }
    {
        self.files.bytes(name)
    }
}

impl Files for SureFiles {
    ghost told = { λ files. Some files };

    ghost faults = { λ _. 0 };

    fn load(
        &mut self,
        _alloc: Global,
        name: &str,
        limit: usize,
        into: &mut Vec<u8>,
    ) -> Result<(), LoadFault> {
        self.files.load(name, limit, into)
    }

    fn store(&mut self, _alloc: Global, name: &str, bytes: &[u8]) -> Result<(), StoreFault> {
        self.files.keep(name, bytes)?;
        Ok(())
    }
}

/// An output in memory, which fails only for want of memory.
///
/// Clauses see it as the bytes that were written. Its count of faults is 0 for good.
#[derive(Drop)]
pub struct SureSink {
    bytes: Vec<u8>,
}

impl Model for SureSink {
    ghost Value = { List ℕ };

    ghost view = { λ sure. sure.bytes.items };
}

impl SureSink {
    /// Makes an output to which nothing was written.
    pub fn new(alloc: Global) -> SureSink
        ensures { result ≡ [] }
    {
        SureSink {
            bytes: Vec::new(alloc),
        }
    }

    /// All bytes that were written.
    pub fn bytes(&self) -> &[u8]
        ensures { result.now ≡ self.now }
    {
        self.bytes.as_slice()
    }
}

impl Sink for SureSink {
    ghost written = { λ bytes. Some bytes };

    ghost faults = { λ _. 0 };

    fn put(&mut self, _alloc: Global, piece: &[u8]) -> Result<(), SinkFault> {
        self.bytes.extend_from_slice(piece)?;
        Ok(())
    }
}
