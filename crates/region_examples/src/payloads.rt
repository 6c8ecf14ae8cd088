//! Iovecs and blocks on worked values.
use iovec_scatter::{Block, Parts, gather, iovs_of, scatter};
use std::test::Fail;
use tcmu_types::{BlockList, Iov, Iovs};

const DATA_OFF: u64 = 8192;

#[test]
fn neighbours_are_merged_and_the_last_is_cut(rt: HostRuntime) -> Result<(), Fail> {
    let mut into = Iovs::new(rt.alloc());
    into.reserve(4)?;
    let blocks = BlockList::from_slice(rt.alloc(), &[0, 1, 3, 2])?;
    iovs_of(DATA_OFF, 1, &blocks, 12800, &mut into);
    assert_eq!(rt; into.len(), 3);
    assert_eq!(rt;
        into.as_slice().get(0).copied(),
        Some(Iov {
            base: 8192,
            len: 8192
        })
    );
    assert_eq!(rt;
        into.as_slice().get(1).copied(),
        Some(Iov {
            base: 20480,
            len: 4096
        })
    );
    assert_eq!(rt;
        into.as_slice().get(2).copied(),
        Some(Iov {
            base: 16384,
            len: 512
        })
    );
    Ok(())
}

#[test]
fn blocks_may_have_two_pages(rt: HostRuntime) -> Result<(), Fail> {
    let mut into = Iovs::new(rt.alloc());
    into.reserve(2)?;
    let blocks = BlockList::from_slice(rt.alloc(), &[0, 1])?;
    iovs_of(DATA_OFF, 2, &blocks, 8193, &mut into);
    assert_eq!(rt; into.len(), 1);
    assert_eq!(rt;
        into.as_slice().get(0).copied(),
        Some(Iov {
            base: 8192,
            len: 8193
        })
    );
    Ok(())
}

#[test]
fn blocks_may_have_sixteen_pages(rt: HostRuntime) -> Result<(), Fail> {
    let mut into = Iovs::new(rt.alloc());
    into.reserve(2)?;
    let blocks = BlockList::from_slice(rt.alloc(), &[5, 0])?;
    iovs_of(DATA_OFF, 16, &blocks, 65537, &mut into);
    assert_eq!(rt; into.len(), 2);
    assert_eq!(rt;
        into.as_slice().get(0).copied(),
        Some(Iov {
            base: 335872,
            len: 65536
        })
    );
    assert_eq!(rt;
        into.as_slice().get(1).copied(),
        Some(Iov { base: 8192, len: 1 })
    );
    Ok(())
}

#[test]
fn bytes_go_along_blocks_in_order(rt: HostRuntime) -> Result<(), Fail> {
    let mut parts = Parts::new(rt.alloc());
    parts.reserve(2)?;
    let first = Block::zeros(rt.alloc(), 3)?;
    let second = Block::zeros(rt.alloc(), 4)?;
    parts.push(first);
    parts.push(second);
    assert_eq!(rt; scatter(&mut parts, &[7; 9]), 7);
    let mut into = [9; 7];
    let done = scatter(&mut parts, &[1, 2, 3, 4, 5]);
    assert!(rt; done == 5);
    gather(&parts, &mut into[..5]);
    assert_eq!(rt; into, [1, 2, 3, 4, 5, 9, 9]);
    Ok(())
}
