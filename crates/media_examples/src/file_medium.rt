//! What the medium over a store of two blocks gives and leaves where a call of the store fails.
ghost use Rattle.std.specs.Prelude.{◌≡◌, length, IfOk};

use edge::{Failed, MemStore};
use handler_trait::Medium;
use medium_file::FileMedium;
use std::alloc::Global;
use std::test::Fail;
use tcmu_types::{Bytes, NoMemory, Serials};

/// A store of two blocks of zeros.
fn store(alloc: Global, fails: &[u64]) -> Result<MemStore, NoMemory>
    ensures { IfOk result (λ s. length s.bytes ≡ 1024) }
{
    let mut bytes = Bytes::new(alloc);
    bytes.reserve(1024)?;
    bytes.fill(0, 1024);
    Ok(MemStore::new(bytes, Serials::from_slice(alloc, fails)?))
}

fn read_byte<M: Medium>(medium: &mut M, at: u64) -> Result<u8, Failed> {
    let mut byte = [0u8; 1];
    if medium.blocks() * 512 <= at {
        return Err(Failed);
    }
    medium.read(at, &mut byte)?;
    Ok(byte[0])
}

fn fill<M: Medium>(medium: &mut M, block: &[u8; 512], count: u64) -> Result<(), Failed> {
    if count == 0 || medium.blocks() < count {
        return Err(Failed);
    }
    medium.fill(0, block, count)
}

fn sync<M: Medium>(medium: &mut M) -> Result<(), Failed> {
    medium.sync()
}

#[test]
fn the_second_call_of_the_store_fails(rt: HostRuntime) -> Result<(), Fail> {
    let mut medium = FileMedium::new(store(rt.alloc(), &[2])?);
    assert_eq!(rt; medium.blocks(), 2);
    assert!(rt; !medium.protected());
    assert_eq!(rt; read_byte(&mut medium, 0), Ok(0));
    assert_eq!(rt; read_byte(&mut medium, 512), Err(Failed));
    assert_eq!(rt; sync(&mut medium), Ok(()));
    Ok(())
}

#[test]
fn a_fill_goes_as_far_as_the_store(rt: HostRuntime) -> Result<(), Fail> {
    let block = [7u8; 512];
    let mut medium = FileMedium::new(store(rt.alloc(), &[2])?);
    assert_eq!(rt; fill(&mut medium, &block, 2), Err(Failed));
    assert_eq!(rt; fill(&mut medium, &block, 1), Ok(()));
    let store = medium.into_store();
    assert_eq!(rt; store.bytes().get(511).copied(), Some(7));
    assert_eq!(rt; store.bytes().get(512).copied(), Some(0));
    Ok(())
}
