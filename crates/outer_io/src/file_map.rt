//! Files in memory: a map from names to bytes.
ghost use Rattle.std.specs.Prelude.{◌≡◌, ◌++◌, ◌≤◌, None, Some, map, filter, position, not, option_map, vec_len};
ghost use Rattle.std.specs.Prelude.{vec_capacity, OnOk, OnErr};
ghost use Rattle.outer_io.specs.Files.{bytes_of, SameBut, SameButTwo, IsRenamed};
ghost use Rattle.outer_io.specs.FileMap.{files_of, is_named, name_after_rename, with_new_name};

use crate::file_name::FileName;
use std::alloc::{AllocError, Global};

/// A file that is kept in memory: its name and its bytes.
#[derive(Drop)]
pub(crate) struct Entry {
    name: FileName,
    bytes: Vec<u8>,
}

/// Some files in memory. They are few, so a list serves, and a rename takes no memory.
#[derive(Drop)]
pub(crate) struct FileMap {
    entries: Vec<Entry>,
    alloc: Global,
}

impl FileMap {
    pub(crate) fn new(alloc: Global) -> FileMap
        ensures { files_of result ≡ (λ _. None) }
    {
        FileMap {
            entries: Vec::new(alloc),
            alloc,
        }
    }

    pub(crate) fn get(&self, n: &FileName) -> Option<&[u8]>
        ensures { option_map (λ bytes. bytes.now) result ≡ files_of self.now n.now }
    {
        self.entries
            .iter()
            .find(|entry| entry.name.is(n))
            .map(|entry| entry.bytes.as_slice())
    }

    /// Makes these bytes the file of this name. After want of memory all files stay.
    pub(crate) fn put(&mut self, n: FileName, bytes: Vec<u8>) -> Result<(), AllocError>
        ensures put { OnOk result (files_of self.new n ≡ Some bytes.items) }
        ensures others { SameBut n (files_of self.old) (files_of self.new) }
        ensures memory { OnErr result (files_of self.new ≡ files_of self.old) }
    {
        self.entries.reserve(1)?;
        remove_all(&mut self.entries, &n);
        self.entries.push(Entry { name: n, bytes }).unwrap();
        Ok(())
    }

    /// The same with a copy of these bytes.
    pub(crate) fn put_copy(&mut self, n: &FileName, b: &[u8]) -> Result<(), AllocError>
        ensures put { OnOk result (files_of self.new n.now ≡ Some b.now) }
        ensures others { SameBut n.now (files_of self.old) (files_of self.new) }
        ensures memory { OnErr result (files_of self.new ≡ files_of self.old) }
    {
        let bytes = b.to_vec(self.alloc)?;
        self.put(*n, bytes)
    }

    /// Puts bytes behind those of a file, which is made where it isn't there. After want of memory all files stay.
    pub(crate) fn extend(&mut self, n: &FileName, b: &[u8]) -> Result<(), AllocError>
        ensures extended { OnOk result (files_of self.new n.now ≡ Some (bytes_of (files_of self.old n.now) ++ b.now)) }
        ensures others { SameBut n.now (files_of self.old) (files_of self.new) }
        ensures memory { OnErr result (files_of self.new ≡ files_of self.old) }
    {
        match place(&self.entries, n) {
            Some(i) => {
                let entry = &mut self.entries[i];
                entry.bytes.extend_from_slice(b)?;
                Ok(())
            }
            None => self.put_copy(n, b),
        }
    }

    pub(crate) fn rename(&mut self, from: &FileName, to: &FileName)
        ensures renamed { IsRenamed from.now to.now (files_of self.old) (files_of self.new) }
        ensures others { SameButTwo from.now to.now (files_of self.old) (files_of self.new) }
    {
        if !from.is(to) {
            remove_all(&mut self.entries, to);
            rename_all(&mut self.entries, from, to);
        }
    }

    pub(crate) fn remove(&mut self, n: &FileName)
        ensures gone { files_of self.new n.now ≡ None }
        ensures others { SameBut n.now (files_of self.old) (files_of self.new) }
    {
        remove_all(&mut self.entries, n);
    }
}

/// The place of the first entry of a name.
fn place(entries: &[Entry], n: &FileName) -> Option<usize>
    ensures { result ≡ position (is_named n.now) entries.now }
{
    entries.iter().position(|entry| entry.name.is(n))
}

/// Takes out all entries of a name.
fn remove_all(entries: &mut Vec<Entry>, n: &FileName)
    ensures items { entries.new.items ≡ filter (λ entry. not (is_named n.now entry)) entries.old.items }
    ensures len { vec_len entries.new ≤ vec_len entries.old }
    ensures capacity { vec_capacity entries.new ≡ vec_capacity entries.old }
{
    entries.retain(|entry| !entry.name.is(n));
}

/// Gives all entries of the name `from` the name `to`.
fn rename_all(entries: &mut Vec<Entry>, from: &FileName, to: &FileName)
    ensures { entries.new.items ≡ map (with_new_name from.now to.now) entries.old.items }
{
    for entry in entries.iter_mut() {
        entry.name = rename_one(entry.name, from, to);
    }
}

fn rename_one(name: FileName, from: &FileName, to: &FileName) -> FileName
    ensures { result ≡ name_after_rename from.now to.now name }
{
    if name.is(from) { *to } else { name }
}
