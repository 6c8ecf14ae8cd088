//! The search beside the plain one, and blocks taken, given back and shrunk.
ghost use Rattle.std.specs.Prelude.{◌≡◌, ◌||◌, ◌*◌, ◌<◌, ◌≤◌, ℕ, length, IfOk};
ghost use Rattle.tcmu_types.specs.Numbers.{is_among};
ghost use Rattle.tcmu_model.specs.BlockLists.{least_free};

use data_blocks::laws::first_free;
use data_blocks::{Blocks, BlocksFault};
use std::alloc::Global;
use std::test::Fail;
use tcmu_model::plain;
use tcmu_types::BlockList;

/// Whether the bit of a number is set: the number `n` is bit `n % 64` of word `n / 64`.
fn is_set(words: &[u64], number: u32) -> bool
    requires { number < 64 * length words.now }
{
    (words[(number / 64) as usize] >> (number % 64)) & 1 == 1
}

fn set(words: &mut Vec<u64>, number: u32)
    requires { number < 64 * length words.old.items }
{
    words[(number / 64) as usize] |= 1 << (number % 64);
}

fn clear(words: &mut Vec<u64>, number: u32)
    requires { number < 64 * length words.old.items }
{
    words[(number / 64) as usize] &= !(1 << (number % 64));
}

/// The search as the definition says it.
fn plain_search(words: &[u64], limit: u32) -> Option<u32>
    requires { limit ≤ 64 * length words.now }
{
    for number in 0..limit {
        if !is_set(words, number) {
            return Some(number);
        }
    }
    None
}

/// Whether both searches give the same.
fn agree(words: &[u64], limit: u32) -> bool {
    limit as u64 <= 64 * (words.len() as u64).min(64)
        && first_free(words, limit) == plain_search(words, limit)
}

/// Whether both searches give the same where this number alone is free, and where it alone is held.
fn agree_at(alloc: Global, limit: u32, number: u32) -> Result<bool, Fail> {
    let mut full = vec![in alloc; u64::MAX; 64]?;
    let mut empty = vec![in alloc; 0; 64]?;
    if number as usize >= 64 * full.len() || number as usize >= 64 * empty.len() {
        return Ok(false);
    }
    clear(&mut full, number);
    set(&mut empty, number);
    Ok(agree(&full, limit) && agree(&empty, limit))
}

#[test]
fn the_search_by_lanes_is_the_plain_search(rt: HostRuntime) -> Result<(), Fail> {
    for limit in [1u32, 63, 64, 65, 511, 512, 513, 4096] {
        for number in [0u32, 1, 62, 63, 64, 510, 511, 512, 513, 575, 1023, 4095] {
            assert!(rt;
                agree_at(rt.alloc(), limit, number)?,
                "{number} below {limit}"
            );
        }
    }
    Ok(())
}

/// Takes so many blocks, and gives their numbers.
fn taken(alloc: Global, blocks: &mut Blocks, count: u32) -> Result<BlockList, Fail>
    ensures limit { blocks.new.limit ≡ blocks.old.limit }
    ensures list { IfOk result (λ list. list.items ≡ least_free blocks.old.limit blocks.old.held count) }
    ensures held { IfOk result (λ list. (n : ℕ) → is_among blocks.new.held n ≡ (is_among list.items n || is_among blocks.old.held n)) }
{
    let mut list = BlockList::new(alloc);
    list.reserve(count as u64)?;
    if blocks.reserve(count).is_err() {
        return Err("blocks lack")?;
    }
    blocks.take(count, &mut list);
    Ok(list)
}

#[test]
fn the_least_free_blocks_are_taken(rt: HostRuntime) -> Result<(), Fail> {
    let alloc = rt.alloc();
    let mut blocks = Blocks::new(alloc, 4)?;
    let first = taken(alloc, &mut blocks, 3)?;
    assert_eq!(rt; first.as_slice(), [0, 1, 2].as_slice());
    blocks.give(&BlockList::from_slice(alloc, &[1])?);
    assert_eq!(rt; plain::first_free(&[0, 2], 4), Some(1));
    let second = taken(alloc, &mut blocks, 2)?;
    assert_eq!(rt; second.as_slice(), [1, 3].as_slice());
    assert_eq!(rt; plain::first_free(&[0, 1, 2, 3], 4), None);
    assert_eq!(rt;
        blocks.reserve(1),
        Err(BlocksFault::Lacks { need: 1, free: 0 })
    );
    assert_eq!(rt; (blocks.held(), blocks.free(), blocks.grown()), (4, 0, 4));
    blocks.give(&BlockList::from_slice(alloc, &[2, 3])?);
    assert_eq!(rt; blocks.shrink(), 2);
    assert_eq!(rt; (blocks.held(), blocks.free(), blocks.grown()), (2, 2, 2));
    Ok(())
}
