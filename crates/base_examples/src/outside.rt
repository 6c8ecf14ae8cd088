//! Each form of the outside once: what is read and written, which calls fail, and how the end shows.
use edge::{
    Failed, FetchOk, Files, HostFiles, MemFiles, MemSink, MemSource, MemStore, Sink, Source,
    StdSink, StdSource, Store,
};
use std::alloc::Global;
use std::fs::{File, OpenOptions};
use std::test::Fail;
use std::{fs, io};
use tcmu_types::{Bytes, NoMemory, Serials};

fn read_text<S: Source>(source: &mut S) -> ([u8; 3], Result<usize, Failed>) {
    let mut piece = [0u8; 3];
    let result = source.read(&mut piece);
    (piece, result)
}

fn write_text<K: Sink>(sink: &mut K, text: &[u8]) -> Result<(), Failed> {
    sink.write(text)
}

#[test]
fn memory_source_gives_its_bytes_and_ends(rt: HostRuntime) -> Result<(), Fail> {
    let alloc = rt.alloc();
    let bytes = Bytes::from_slice(alloc, b"abcd")?;
    let fails = Serials::from_slice(alloc, &[2])?;
    let mut source = MemSource::new(bytes, fails);
    assert_eq!(rt; read_text(&mut source), (*b"abc", Ok(3)));
    assert_eq!(rt; read_text(&mut source), ([0, 0, 0], Err(Failed)));
    assert_eq!(rt; read_text(&mut source), ([b'd', 0, 0], Ok(1)));
    assert_eq!(rt; read_text(&mut source), ([0, 0, 0], Ok(0)));
    Ok(())
}

#[test]
fn memory_sink_keeps_its_room(rt: HostRuntime) -> Result<(), Fail> {
    let alloc = rt.alloc();
    let fails = Serials::from_slice(alloc, &[2])?;
    let mut sink = MemSink::new(alloc, 4, fails)?;
    assert_eq!(rt; write_text(&mut sink, b"ab"), Ok(()));
    assert_eq!(rt; write_text(&mut sink, b"c"), Err(Failed));
    assert_eq!(rt; write_text(&mut sink, b"cde"), Err(Failed));
    assert_eq!(rt; write_text(&mut sink, b"cd"), Ok(()));
    assert_eq!(rt; sink.written(), b"abcd".as_slice());
    Ok(())
}

#[test]
fn standard_forms_read_and_write(rt: HostRuntime) -> Result<(), Fail> {
    let mut source = StdSource::new(b"abcd".as_slice());
    assert_eq!(rt; read_text(&mut source), (*b"abc", Ok(3)));
    assert_eq!(rt; read_text(&mut source), ([b'd', 0, 0], Ok(1)));
    assert_eq!(rt; read_text(&mut source), ([0, 0, 0], Ok(0)));
    let mut room = [0u8; 3];
    let mut sink = StdSink::new(room.as_mut_slice());
    assert_eq!(rt; write_text(&mut sink, b"ab"), Ok(()));
    assert_eq!(rt; write_text(&mut sink, b"cd"), Err(Failed));
    drop(sink);
    assert_eq!(rt; room, *b"abc");
    let mut empty = StdSink::new(io::empty());
    assert_eq!(rt; write_text(&mut empty, b"ab"), Ok(()));
    Ok(())
}

#[test]
fn a_full_device_and_a_folder_fail(rt: HostRuntime) -> Result<(), Fail> {
    let full = OpenOptions::new().write(true).open(&rt, "/dev/full")?;
    assert_eq!(rt; write_text(&mut StdSink::new(full), b"ab"), Err(Failed));
    let folder = File::open(&rt, ".")?;
    assert_eq!(rt; read_text(&mut StdSource::new(folder)).1, Err(Failed));
    Ok(())
}

fn store(alloc: Global, byte: u8, count: usize, fails: &[u64]) -> Result<MemStore, NoMemory> {
    let mut bytes = Bytes::new(alloc);
    bytes.reserve(count as u64)?;
    bytes.fill(byte, count);
    Ok(MemStore::new(bytes, Serials::from_slice(alloc, fails)?))
}

fn read_pair<S: Store>(store: &mut S, at: u64) -> Result<[u8; 2], Failed> {
    let mut pair = [0u8; 2];
    if store.length() < 2 || store.length() - 2 < at {
        return Err(Failed);
    }
    store.read_at(at, &mut pair)?;
    Ok(pair)
}

fn write_pair<S: Store>(store: &mut S, at: u64, pair: [u8; 2]) -> Result<(), Failed> {
    if store.length() < 2 || store.length() - 2 < at {
        return Err(Failed);
    }
    store.write_at(at, &pair)
}

fn sync<S: Store>(store: &mut S) -> Result<(), Failed> {
    store.sync()
}

#[test]
fn each_call_of_a_memory_store_fails_in_turn(rt: HostRuntime) -> Result<(), Fail> {
    for listed in 1..5u64 {
        let mut store = store(rt.alloc(), 7, 4, &[listed])?;
        assert_eq!(rt; read_pair(&mut store, 2).is_err(), listed == 1);
        assert_eq!(rt; write_pair(&mut store, 1, [8, 9]).is_err(), listed == 2);
        assert_eq!(rt; sync(&mut store).is_err(), listed == 3);
        let after = if listed == 2 {
            [7, 7, 7, 7]
        } else {
            [7, 8, 9, 7]
        };
        assert_eq!(rt; store.bytes(), after.as_slice());
    }
    Ok(())
}

fn fetch<F: Files>(files: &mut F, alloc: Global, name: &[u8]) -> Option<F::File> {
    match files.fetch(alloc, name) {
        Ok(FetchOk::File(file)) => Some(file),
        Ok(FetchOk::NoMemory) | Err(Failed) => None,
    }
}

fn keep<F: Files>(files: &mut F, name: &[u8], file: F::File) {
    files.keep(name, file);
}

fn last_byte(files: &MemFiles, name: &[u8]) -> Option<u8> {
    files.get(name)?.bytes().last().copied()
}

/// A file of one block and one of half a block, of which the fetch 2 fails.
fn files(alloc: Global) -> Result<MemFiles, NoMemory> {
    let mut files = MemFiles::new(alloc, Serials::from_slice(alloc, &[2])?);
    files.add(alloc, b"whole", store(alloc, 7, 512, &[])?)?;
    files.add(alloc, b"half", store(alloc, 7, 256, &[])?)?;
    Ok(files)
}

#[test]
fn memory_files_give_and_take_back(rt: HostRuntime) -> Result<(), Fail> {
    let alloc = rt.alloc();
    let mut files = files(alloc)?;
    let Some(mut file) = fetch(&mut files, alloc, b"whole") else {
        return Err(Fail::from("the fetch of a file at home"));
    };
    assert_eq!(rt; last_byte(&files, b"whole"), None);
    // Listed, out, of a wrong length, and missing.
    for name in [b"half".as_slice(), b"whole", b"half", b"none"] {
        assert!(rt; fetch(&mut files, alloc, name).is_none(), "{name:?}");
    }
    assert_eq!(rt; write_pair(&mut file, 510, [8, 9]), Ok(()));
    keep(&mut files, b"whole", file);
    assert_eq!(rt; last_byte(&files, b"whole"), Some(9));
    let Some(file) = fetch(&mut files, alloc, b"whole") else {
        return Err(Fail::from("the fetch of a file given back"));
    };
    keep(&mut files, b"none", file);
    assert_eq!(rt; last_byte(&files, b"whole"), None);
    assert_eq!(rt; last_byte(&files, b"half"), Some(7));
    Ok(())
}

fn write_file(rt: &HostRuntime, name: &str, count: usize) -> io::Result<()> {
    let mut bytes = Bytes::new(rt.alloc());
    if bytes.reserve(count as u64).is_ok() {
        bytes.fill(7, count);
    }
    fs::write(rt, name, bytes.as_slice())
}

#[test]
fn the_host_opens_what_can_be_a_medium(rt: HostRuntime) -> Result<(), Fail> {
    write_file(&rt, "half", 256)?;
    write_file(&rt, "odd", 1000)?;
    write_file(&rt, "locked", 512)?;
    let mut locked = fs::metadata(&rt, "locked")?.permissions();
    locked.set_readonly(true);
    fs::set_permissions(&rt, "locked", locked)?;
    fs::create_dir(&rt, "folder")?;
    let mut files = HostFiles::new(rt);
    for name in ["half", "odd", "folder", "none", "", "a\0b"] {
        let file = fetch(&mut files, rt.alloc(), name.as_bytes());
        assert!(rt; file.is_none(), "{name:?}");
    }
    // Root may write to it.
    if OpenOptions::new().write(true).open(&rt, "locked").is_err() {
        assert!(rt; fetch(&mut files, rt.alloc(), b"locked").is_none());
    }
    for name in ["half", "odd", "locked"] {
        fs::remove_file(&rt, name)?;
    }
    fs::remove_dir(&rt, "folder")?;
    Ok(())
}

#[test]
fn the_host_reads_and_writes(rt: HostRuntime) -> Result<(), Fail> {
    write_file(&rt, "image", 1024)?;
    let mut files = HostFiles::new(rt);
    let Some(mut file) = fetch(&mut files, rt.alloc(), b"image") else {
        return Err(Fail::from("the fetch of a file of two blocks"));
    };
    assert_eq!(rt; file.length(), 1024);
    assert_eq!(rt; write_pair(&mut file, 1022, [8, 9]), Ok(()));
    assert_eq!(rt; sync(&mut file), Ok(()));
    assert_eq!(rt; read_pair(&mut file, 1021), Ok([7, 8]));
    write_file(&rt, "image", 512)?;
    assert_eq!(rt; read_pair(&mut file, 1021), Err(Failed));
    keep(&mut files, b"image", file);
    assert_eq!(rt; fs::metadata(&rt, "image")?.len(), 512);
    fs::remove_file(&rt, "image")?;
    Ok(())
}
