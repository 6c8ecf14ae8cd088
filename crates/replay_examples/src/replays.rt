//! Replays over what is in memory.
use edge::{MemFiles, MemSink, MemSource, MemStore};
use std::alloc::Global;
use std::test::Fail;
use tcmu_top::run_replay;
use tcmu_types::{Bytes, NoMemory, Serials};

/// The exit status of a replay over these files, and what it wrote. The read of the first number fails, and the write of the second.
fn replay(
    alloc: Global,
    input: &str,
    read: u64,
    write: u64,
    files: &mut MemFiles,
) -> Result<(u8, Bytes), NoMemory> {
    let bytes = Bytes::from_slice(alloc, input.as_bytes())?;
    let mut src = MemSource::new(bytes, Serials::from_slice(alloc, &[read])?);
    let mut out = MemSink::new(alloc, 4096, Serials::from_slice(alloc, &[write])?)?;
    let code = run_replay(alloc, &mut src, &mut out, files).code();
    Ok((code, Bytes::from_slice(alloc, out.written())?))
}

/// The exit status of a replay without files, and what it wrote. The read of the first number fails, and the write of the second.
pub fn ended(alloc: Global, input: &str, read: u64, write: u64) -> Result<(u8, Bytes), NoMemory> {
    let mut files = MemFiles::new(alloc, Serials::new(alloc));
    replay(alloc, input, read, write, &mut files)
}

/// Files with `img` alone, of two blocks of 77h. The fetch of the first number fails, and the store's call of the second.
fn files_with(alloc: Global, fetch: u64, call: u64) -> Result<MemFiles, NoMemory> {
    let bytes = Bytes::from_slice(alloc, &[0x77; 1024])?;
    let store = MemStore::new(bytes, Serials::from_slice(alloc, &[call])?);
    let mut files = MemFiles::new(alloc, Serials::from_slice(alloc, &[fetch])?);
    files.add(alloc, b"img", store)?;
    Ok(files)
}

/// The exit status of a replay over the file `img`, and what it wrote.
pub fn over_file(
    alloc: Global,
    input: &str,
    fetch: u64,
    call: u64,
) -> Result<(u8, Bytes), NoMemory> {
    let mut files = files_with(alloc, fetch, call)?;
    replay(alloc, input, 0, 0, &mut files)
}

/// The exit status of a replay over the file `img`, and what that has after it. The sink's write of this number fails.
pub fn left_in_file(alloc: Global, input: &str, write: u64) -> Result<(u8, Bytes), Fail> {
    let mut files = files_with(alloc, 0, 0)?;
    let (code, _) = replay(alloc, input, 0, write, &mut files)?;
    let store = files.get(b"img").ok_or("the file is at home")?;
    Ok((code, Bytes::from_slice(alloc, store.bytes())?))
}

/// Whether a text has this line.
pub fn has_line(text: &[u8], wanted: &str) -> bool {
    text.split(|byte| *byte == b'\n')
        .any(|line| line == wanted.as_bytes())
}
