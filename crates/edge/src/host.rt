//! Files of the host by their names, as stores. They tell no content: what a file holds is not known.
ghost use Rattle.std.specs.Prelude.{◌≡◌, ◌≤◌, ◌%◌, ◌^◌, ◌+◌, None, length, is_err, IfOk, OnErr};
ghost use Rattle.tcmu_types.specs.Numbered.{HasCause, next_call};
ghost use Rattle.edge.specs.Outside.{CountsFailed};
ghost use Rattle.edge.specs.Stores.{FetchGives};
ghost use Rattle.edge.specs.Host.{IsFresh, untold};

use crate::files::has_medium_size;
use crate::{Failed, FetchOk, Files, Store};
use std::alloc::Global;
use std::fs::{self, File, OpenOptions};
use std::io;
use std::marker::Model;
use std::os::unix::fs::{FileExt, MetadataExt};

/// A file of the host as a store, which contracts see as its length, its calls and its count of faults. The calls are pread,
/// pwrite and fsync of POSIX, the first two until the whole piece is done. A file that was cut short since it was opened stays so: a
/// call beyond its end fails.
#[derive(Drop)]
pub struct HostStore {
    file: File,
    length: u64,
    calls: u64,
    syncs: u64,
    faults: u64,
}

impl Model for HostStore {
    ghost use Rattle.edge.specs.Host.{StoreOfHost};

    ghost Value = { StoreOfHost };

    ghost view = { λ s. record { size = s.length; calls = s.calls; syncs = s.syncs; faults = s.faults } };
}

impl HostStore {
    /// Whether the file still has so many bytes.
    fn reaches(&self, end: u64) -> bool {
        self.file.metadata().is_ok_and(|it| end <= it.len())
    }

    /// Counts a call that came out so.
    fn count(&mut self, outcome: io::Result<()>) -> Result<(), Failed>
        ensures kept { self.new ≡ record self.old { calls = next_call self.old.calls; faults = self.new.faults } }
        ensures cause { HasCause self.old.faults self.new.faults result }
        ensures count { CountsFailed self.old.faults (is_err result) self.new.faults }
        ensures same { is_err result ≡ is_err outcome }
    {
        self.calls = self.calls.saturating_add(1);
        match outcome {
            Ok(()) => Ok(()),
            Err(_) => {
                self.faults = self.faults.saturating_add(1);
                Err(Failed)
            }
        }
    }
}

impl Store for HostStore {
    ghost use Rattle.edge.specs.Host.{untold};

    ghost state = { λ s. untold s };

    ghost faults = { λ s. s.faults };

    ghost sized = { λ s. tt };

    fn length(&self) -> u64 {
        self.length
    }

    fn read_at(&mut self, at: u64, into: &mut [u8]) -> Result<(), Failed> {
        let outcome = self.file.read_exact_at(into, at);
        self.count(outcome)
    }

    fn write_at(&mut self, at: u64, piece: &[u8]) -> Result<(), Failed> {
        let outcome = if self.reaches(at.saturating_add(piece.len() as u64)) {
            self.file.write_all_at(piece, at)
        } else {
            Err(io::Error::from(io::ErrorKind::UnexpectedEof))
        };
        self.count(outcome)
    }

    fn sync(&mut self) -> Result<(), Failed> {
        self.syncs = self.syncs.saturating_add(1);
        let outcome = self.file.sync_all();
        self.count(outcome)
    }
}

/// The host's files by their names, which contracts see as the count of faults. A directory and a file without the right to read
/// or to write are faults like a missing one, and so is the file that standard output goes to. A file that is out is locked, so it is
/// out under its other names too, and for other runs.
#[derive(Drop)]
pub struct HostFiles<R: fs::Files<File = File> + Drop> {
    runtime: R,
    faults: u64,
}

impl<R: fs::Files<File = File> + Drop> Model for HostFiles<R> {
    ghost use Rattle.std.specs.Prelude.{ℕ};

    ghost Value = { ℕ };

    ghost view = { λ f. f.faults };
}

/// Whether standard output goes to this file.
fn takes_output<R: fs::Files<File = File>>(runtime: &R, file: &fs::Metadata) -> bool {
    match fs::metadata(runtime, "/dev/stdout") {
        Ok(output) => output.dev() == file.dev() && output.ino() == file.ino(),
        Err(_) => false,
    }
}

/// Opens a file for reading and writing, locks it until it is closed (flock of Linux), and tells its length. What is no file is not
/// opened: the open of a device node may wait, or set off something.
fn open<R: fs::Files<File = File>>(runtime: &R, name: &[u8]) -> Option<(File, u64)> {
    let path = str::from_utf8(name).ok()?;
    if !fs::metadata(runtime, path).ok()?.is_file() {
        return None;
    }
    let file = OpenOptions::new()
        .read(true)
        .write(true)
        .open(runtime, path)
        .ok()?;
    let metadata = file.metadata().ok()?;
    if takes_output(runtime, &metadata) || file.try_lock().is_err() {
        return None;
    }
    Some((file, metadata.len()))
}

impl<R: fs::Files<File = File> + Drop> HostFiles<R> {
    /// The host's files; a name is a path as given, seen from the current folder. No fetch has failed yet.
    pub fn new(runtime: R) -> HostFiles<R>
        ensures { result ≡ 0 }
    {
        HostFiles { runtime, faults: 0 }
    }
}

impl<R: fs::Files<File = File> + Drop> Files for HostFiles<R> {
    type File = HostStore;

    ghost state = { λ _. None };

    ghost faults = { λ f. f };

    fn fetch(&mut self, _alloc: Global, name: &[u8]) -> Result<FetchOk<HostStore>, Failed>
        ensures fetched { IfOk result (λ given. elim given [ FetchOk.File s ↦ FetchGives name.now (untold s) None None | FetchOk.NoMemory ↦ ⊥ ]) }
        ensures cause { HasCause self.old self.new result }
        ensures count { CountsFailed self.old (is_err result) self.new }
        // Of the store that is given no call was made yet.
        ensures fresh { IfOk result IsFresh }
    {
        match open(&self.runtime, name) {
            Some((file, length)) if has_medium_size(length) => Ok(FetchOk::File(HostStore {
                file,
                length,
                calls: 0,
                syncs: 0,
                faults: 0,
            })),
            _ => {
                self.faults = self.faults.saturating_add(1);
                Err(Failed)
            }
        }
    }

    fn keep(&mut self, _name: &[u8], file: HostStore) {
        drop(file);
    }
}
