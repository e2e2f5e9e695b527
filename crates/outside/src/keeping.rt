// Files that are kept in memory, seen as the map of their bytes.
ghost use Rattle.std.specs.Prelude.{◌≡◌, ◌≢◌, ◌++◌, ◌<◌, length, slice_index_or, take, IfNone, IfSome, OnOk, OnErr};
ghost use Rattle.std.specs.Prelude.{IsErrOf, Some, None, Err};
ghost use Rattle.std.specs.Option.{option_copied};
ghost use Rattle.std.specs.FinMap as map;
ghost use Rattle.outside.specs.Files.{file_of, bytes_of, with_file, HasLoaded, IsLonger};
ghost use Rattle.outside.specs.Keeping.{first_file};
ghost use Rattle.outside.specs.declared.keeping.Kept.{Kept};

use super::traits::LoadFault;
use std::alloc::{AllocError, Global};
use std::marker::Model;

#[derive(Drop)]
pub(crate) struct Kept {
    name: Vec<u8>,
    bytes: Vec<u8>,
}

#[derive(Drop)]
pub(crate) struct KeptFiles {
    kept: Vec<Kept>,
}

impl Model for KeptFiles {
    ghost use Rattle.outside.specs.Files.{FileMap, coded_files};
    ghost use Rattle.outside.specs.Keeping.{files_of};

    ghost Value = { FileMap };

    ghost coded = { coded_files };

    ghost view = { λ files. files_of files.kept.items };
}

impl KeptFiles {
    pub(crate) fn new(alloc: Global) -> KeptFiles
        ensures { result ≡ map.empty }
    {
        KeptFiles {
            kept: Vec::new(alloc),
        }
    }

    pub(crate) fn keep(&mut self, name: &str, bytes: &[u8]) -> Result<(), AllocError>
        ensures ok { OnOk result (self.new ≡ with_file self.old name.now bytes.now) }
        ensures err { OnErr result (self.new ≡ self.old) }
    {
        let alloc = *self.kept.allocator();
        let bytes = Vec::from_slice(alloc, bytes)?;
        match place_of(&self.kept, name.as_bytes()) {
            Some(place) => self.kept[place].bytes = bytes,
            None => {
                let name = Vec::from_slice(alloc, name.as_bytes())?;
                self.kept.push(Kept { name, bytes })?;
            }
        }
        Ok(())
    }

    pub(crate) fn bytes<'a>(&'a self, name: &str) -> Option<&'a [u8]>
        ensures { option_copied result ≡ file_of self.now name.now }
    {
        bytes_in(&self.kept, name.as_bytes())
    }

    // A load from these files, which never fails but for the file or memory.
    pub(crate) fn load(&self, name: &str, limit: usize, into: &mut Vec<u8>) -> Result<(), LoadFault>
        ensures loaded { OnOk result
            (HasLoaded (Some self.now) name.now limit into.old.items into.new.items) }
        ensures missing { IsErrOf result LoadFault.Missing → file_of self.now name.now ≡ None }
        ensures too_long { IsErrOf result LoadFault.TooLong →
            IsLonger (file_of self.now name.now) limit }
        ensures failed { result ≢ Err LoadFault.Failed }
        ensures err { OnErr result (into.new.items ≡ into.old.items) }
    {
        let bytes = self.bytes(name).ok_or(LoadFault::Missing)?;
        if bytes.len() > limit {
            return Err(LoadFault::TooLong);
        }
        into.extend_from_slice(bytes)?;
        Ok(())
    }

    // Appends the first `kept` bytes of a file; an absent one has none.
    pub(crate) fn load_front(
        &self,
        name: &str,
        kept: usize,
        into: &mut Vec<u8>,
    ) -> Result<(), AllocError>
        ensures ok { OnOk result
            (into.new.items ≡ into.old.items ++ take kept (bytes_of self.now name.now)) }
        ensures err { OnErr result (into.new.items ≡ into.old.items) }
    {
        let bytes = self.bytes(name).unwrap_or(b"");
        into.extend_from_slice(front(bytes, kept))
    }
}

// The first `kept` bytes, or all where there are fewer.
pub(crate) fn front(bytes: &[u8], kept: usize) -> &[u8]
    ensures { result.now ≡ take kept bytes.now }
{
    &bytes[..kept.min(bytes.len())]
}

// The bytes of the first file of that name.
fn bytes_in<'a>(kept: &'a [Kept], name: &[u8]) -> Option<&'a [u8]>
    ensures { option_copied result ≡ first_file kept.now name.now }
{
    let place = place_of(kept, name)?;
    Some(kept[place].bytes.as_slice())
}

// The place of the first file of that name.
fn place_of(kept: &[Kept], name: &[u8]) -> Option<usize>
    ensures none { IfNone result (first_file kept.now name.now ≡ None) }
    ensures within { IfSome result (λ place. place < length kept.now) }
    ensures here { IfSome result (λ place.
        (file : Kept) → (slice_index_or kept.now place file).name.items ≡ name.now) }
    ensures first { IfSome result (λ place. first_file (take place kept.now) name.now ≡ None) }
{
    for (place, file) in kept.iter().enumerate() {
        if file.name.as_slice() == name {
            return Some(place);
        }
    }
    None
}
