//! Files in memory by their names, of which the listed fetches fail.
ghost use Rattle.std.specs.Prelude.{◌≡◌, List, ℕ, Some, None, [], IfOk, IfSome, IfNone, OnOk, OnErr, is_err, is_some, bytes_eq};
ghost use Rattle.std.specs.List.{position};
ghost use Rattle.std.specs.Option.{option_map};
ghost use Rattle.tcmu_types.specs.Numbered.{HasCause};
ghost use Rattle.edge.specs.Outside.{CountsFailed};
ghost use Rattle.edge.specs.declared.files.FetchOk.TheVariants.{File};
ghost use Rattle.edge.specs.Stores.{missing, out, can_open, fetch_fails, one_more_fetch, given_back, with_place, store_of, at_home, FetchGives};
ghost use Rattle.edge.specs.Memory.{files_state, after_add, content_at, content_of, place_of, place_in};

use crate::files::has_medium_size;
use crate::{Failed, FetchOk, Files, ListedCalls, MemStore, Store};
use std::alloc::Global;
use std::marker::Model;
use tcmu_types::{Bytes, NoMemory, Serials};

/// A file: its name, and its store while it is at home.
#[derive(Debug, Drop)]
struct Named {
    name: Bytes,
    store: Option<MemStore>,
}

impl Model for Named {
    ghost use Rattle.edge.specs.Memory.{NamedStore};

    ghost Value = { NamedStore };

    ghost view = { λ f. record { name = f.name.items; store = f.store } };
}

/// Files in memory by their names.
#[derive(Debug, Drop)]
pub struct MemFiles {
    files: Vec<Named>,
    fetches: ListedCalls,
}

impl Model for MemFiles {
    ghost use Rattle.edge.specs.Memory.{FilesInMemory};

    ghost Value = { FilesInMemory };

    ghost view = { λ m. record { files = m.files.items; fails = m.fetches.fails; fetches = m.fetches.calls; faults = m.fetches.faults } };
}

/// Whether a medium can be made of a file.
fn can_open(file: &Named) -> bool
    ensures { result ≡ can_open (place_of file.now.store) }
{
    match &file.store {
        Some(store) => has_medium_size(store.length()),
        None => false,
    }
}

/// Takes the store of a file out.
fn vacate(file: &mut Named) -> Option<MemStore>
    ensures store { result ≡ file.old.store }
    ensures name { file.new.name ≡ file.old.name }
    ensures out { file.new.store ≡ None }
{
    std::mem::replace(&mut file.store, None)
}

/// Gives a file that is out its store; at any other the store is dropped.
fn occupy(file: &mut Named, store: MemStore)
    ensures name { file.new.name ≡ file.old.name }
    ensures place { place_of file.new.store ≡ given_back (content_of store) (place_of file.old.store) }
{
    if file.store.is_none() {
        file.store = Some(store);
    }
}

fn find(files: &[Named], name: &[u8]) -> Option<usize>
    ensures { result ≡ position (λ f. bytes_eq f.name name.now) files.now }
{
    files.iter().position(|file| file.name.as_slice() == name)
}

fn look<'a>(files: &'a [Named], name: &[u8]) -> Option<&'a MemStore>
    ensures { option_map (λ s. content_of s.now) result ≡ content_at (place_in files.now name.now) }
{
    match find(files, name) {
        Some(at) => {
            let file = &files[at];
            file.store.as_ref()
        }
        None => None,
    }
}

/// Takes out the store of a name, where a medium can be made of it.
fn take_out(files: &mut [Named], name: &[u8]) -> Option<MemStore>
    ensures exact { is_some result ≡ can_open (place_in files.old name.now) }
    ensures store { IfSome result (λ s. place_in files.old name.now ≡ at_home (content_of s)) }
    ensures out { IfSome result (λ _. (n : List ℕ) → place_in files.new n ≡ with_place name.now out (place_in files.old) n) }
    ensures kept { IfNone result (files.new ≡ files.old) }
{
    let Some(at) = find(files, name) else {
        return None;
    };
    if can_open(&files[at]) {
        vacate(&mut files[at])
    } else {
        None
    }
}

fn put_back(files: &mut [Named], name: &[u8], store: MemStore)
    ensures { (n : List ℕ) → place_in files.new n ≡ with_place name.now (given_back (content_of store) (place_in files.old name.now)) (place_in files.old) n }
{
    if let Some(at) = find(files, name) {
        occupy(&mut files[at], store);
    }
}

impl MemFiles {
    /// No files; the fetches are numbered from 1, and those that are listed fail.
    pub fn new(alloc: Global, fails: Serials) -> MemFiles
        ensures { result ≡ record { files = []; fails = fails.items; fetches = 0; faults = 0 } }
    {
        MemFiles {
            files: Vec::new(alloc),
            fetches: ListedCalls::new(fails),
        }
    }

    /// Adds a file of a new name. After an error nothing has changed, but that the store is dropped.
    pub fn add(&mut self, alloc: Global, name: &[u8], store: MemStore) -> Result<(), NoMemory>
        requires { (files_state self.old).places name.now ≡ missing }
        ensures ok { OnOk result (files_state self.new ≡ after_add name.now (content_of store) (files_state self.old)) }
        ensures err { OnErr result (files_state self.new ≡ files_state self.old) }
        ensures faults { self.new.faults ≡ self.old.faults }
    {
        let name = Bytes::from_slice(alloc, name)?;
        self.files.push(Named {
            name,
            store: Some(store),
        })?;
        Ok(())
    }

    /// The store of the file of this name; None where there is none, or its file is out.
    pub fn get(&self, name: &[u8]) -> Option<&MemStore>
        ensures { option_map (λ s. content_of s.now) result ≡ content_at ((files_state self.now).places name.now) }
    {
        look(&self.files, name)
    }
}

impl Files for MemFiles {
    type File = MemStore;

    ghost state = { λ m. Some (files_state m) };

    ghost faults = { λ m. m.faults };

    // It takes no memory.
    fn fetch(&mut self, _alloc: Global, name: &[u8]) -> Result<FetchOk<MemStore>, Failed>
        ensures fetched { IfOk result (λ given. elim given [ File s ↦ FetchGives name.now (store_of (content_of s)) (Some (files_state self.old)) (Some (files_state self.new)) | FetchOk.NoMemory ↦ ⊥ ]) }
        ensures exact { is_err result ≡ fetch_fails name.now (files_state self.old) }
        ensures counted { OnErr result (files_state self.new ≡ one_more_fetch (files_state self.old)) }
        ensures cause { HasCause self.old.faults self.new.faults result }
        ensures count { CountsFailed self.old.faults (is_err result) self.new.faults }
    {
        self.fetches.begin()?;
        match take_out(&mut self.files, name) {
            Some(store) => Ok(FetchOk::File(store)),
            None => Err(self.fetches.fault()),
        }
    }

    fn keep(&mut self, name: &[u8], file: MemStore) {
        put_back(&mut self.files, name, file);
    }
}
