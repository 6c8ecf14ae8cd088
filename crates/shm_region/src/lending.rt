//! Blocks lent and given back. They move: no byte of them is copied.
ghost use Rattle.std.specs.Prelude.{◌≡◌, ◌↔◌, [], ◌+◌, ◌-◌, ◌*◌, ◌^◌, ◌<◌, ◌≤◌, ◌++◌, length, take, drop, true, false, nat_le, Some, None, IfSome, IfNone, if◌then◌else◌};
ghost use Rattle.std.specs.List.{range_with_len};
ghost use Rattle.std.specs.Bool.{OnTrue, OnFalse};
ghost use Rattle.region_model.specs.Regions.{size_of, can_take, taken, without, returned, HaveSize, first_block, block_count, starts_block, are_whole, can_lend, named_by, lent, parts_of, given_back, CanLend};

use crate::Region;
use iovec_scatter::Parts;
use tcmu_types::{Iov, Iovs};

/// Whether an iovec begins at a block's start and has a byte.
fn starts_block(start: u64, size: u64, iov: Iov) -> bool
    requires { 1 ≤ size }
    ensures { result ≡ starts_block start size iov }
{
    start <= iov.base && (iov.base - start) % size == 0 && 0 < iov.len
}

/// The block in which an iovec begins.
fn first_block(start: u64, size: u64, iov: Iov) -> u64
    requires { 4096 ≤ size }
    ensures value { result ≡ first_block start size iov }
    ensures small { result ≤ 2 ^ 52 }
{
    iov.base.saturating_sub(start) / size
}

/// How many blocks an iovec touches that begins at a block's start.
fn block_count(size: u64, iov: Iov) -> u64
    requires { 4096 ≤ size }
    ensures value { result ≡ block_count size iov }
    ensures small { result ≤ 2 ^ 52 }
{
    iov.len.div_ceil(size)
}

impl Region {
    /// Gives the last `count` parts back to the blocks from `first` on, the last one first.
    fn back_range(&mut self, first: u64, count: u64, parts: &mut Parts)
        requires count { count ≤ length parts.old.items }
        requires size { HaveSize (size_of self.old) parts.old.items }
        requires fits { first + count < 2 ^ 64 }
        ensures region { self.new ≡ record self.old { blocks = returned self.old.blocks (range_with_len first count) (drop (length parts.old.items - count) parts.old.items) } }
        ensures parts { parts.new.items ≡ take (length parts.old.items - count) parts.old.items }
        ensures spare { parts.new.spare ≡ parts.old.spare + count }
    {
        let mut left = count;
        while left > 0 {
            left -= 1;
            if let Some(block) = parts.pop() {
                self.put_home(first + left, block);
            }
        }
    }

    /// Lends `count` blocks from `first` on, behind those in `into`, or changes nothing.
    fn lend_range(&mut self, first: u64, count: u64, into: &mut Parts) -> bool
        requires room { count ≤ into.old.spare }
        requires size { HaveSize (size_of self.old) into.old.items }
        requires fits { first + count < 2 ^ 64 }
        ensures answer { result ≡ can_take self.old.blocks (range_with_len first count) }
        ensures lent { OnTrue result (self.new ≡ record self.old { blocks = without self.old.blocks (range_with_len first count) }) }
        ensures parts { OnTrue result (into.new.items ≡ into.old.items ++ taken self.old.blocks (range_with_len first count)) }
        ensures spare { OnTrue result (into.old.spare ≤ into.new.spare + count) }
        ensures size { OnTrue result (HaveSize (size_of self.old) into.new.items) }
        ensures region { OnFalse result (self.new ≡ self.old) }
        ensures none { OnFalse result (into.new.items ≡ into.old.items) }
        ensures room { OnFalse result (into.old.spare ≤ into.new.spare) }
    {
        let mut done = 0;
        while done < count {
            match self.take_home(first + done) {
                Some(block) => into.push(block),
                None => {
                    self.back_range(first, done, into);
                    return false;
                }
            }
            done += 1;
        }
        true
    }
}

/// Whether each iovec begins at a block's start and has a byte, and each but the last ends at a block's end.
fn are_whole(start: u64, size: u64, iovs: &[Iov]) -> bool
    requires { 1 ≤ size }
    ensures { result ≡ are_whole start size iovs.now }
{
    let mut index = 0;
    while index < iovs.len() {
        let iov = iovs[index];
        if !starts_block(start, size, iov) {
            return false;
        }
        index += 1;
        if index < iovs.len() && iov.len % size != 0 {
            return false;
        }
    }
    true
}

impl Region {
    /// Gives all parts back to the blocks of iovecs, the last one first.
    fn back_iovs(&mut self, iovs: &[Iov], parts: &mut Parts)
        requires count { length parts.old.items ≡ length (named_by self.old iovs.now) }
        requires size { HaveSize (size_of self.old) parts.old.items }
        ensures region { self.new ≡ given_back self.old iovs.now parts.old.items }
        ensures parts { parts.new.items ≡ [] }
        ensures spare { parts.new.spare ≡ parts.old.spare + length parts.old.items }
    {
        let start = self.data_off();
        let size = self.block_len();
        let mut left = iovs.len();
        while left > 0 {
            left -= 1;
            let iov = iovs[left];
            self.back_range(first_block(start, size, iov), block_count(size, iov), parts);
        }
    }

    /// How many blocks a `lend` of these iovecs moves, which is the room that it wants. None where they name more blocks than the area
    /// has: then no `lend` moves them.
    pub fn room_for(&self, iovs: &Iovs) -> Option<u64>
        ensures value { result ≡ (if nat_le (length (named_by self.now iovs.now.items)) (length self.now.blocks) then Some (length (named_by self.now iovs.now.items)) else None) }
        ensures most { IfSome result (λ room. room ≤ length self.now.blocks) }
        ensures none { IfNone result (can_lend self.now iovs.now.items ≡ false) }
    {
        // What this call ensures is used: the limits of every region.
        let _ = self.data_off();
        let size = self.block_len();
        let most = self.block_count();
        let mut total: u64 = 0;
        for iov in iovs.as_slice() {
            total += block_count(size, *iov);
            if total > most {
                return None;
            }
        }
        Some(total)
    }

    /// Moves the blocks of iovecs into `into`, in order, and leaves them lent; or changes nothing, and `into` keeps its room. It is true
    /// exactly where each iovec begins at a block's start and has a byte, each but the last has a multiple of a block's bytes, and each
    /// block is in the area, not lent, and named once.
    pub fn lend(&mut self, iovs: &Iovs, into: &mut Parts) -> bool
        requires empty { into.old.items ≡ [] }
        requires room { length (named_by self.old iovs.now.items) ≤ into.old.spare }
        ensures answer { result ≡ can_lend self.old iovs.now.items }
        ensures rule { (result ≡ true) ↔ CanLend self.old iovs.now.items }
        ensures lent { OnTrue result (self.new ≡ lent self.old iovs.now.items) }
        ensures parts { OnTrue result (into.new.items ≡ parts_of self.old iovs.now.items) }
        ensures count { OnTrue result (length into.new.items ≡ length (named_by self.old iovs.now.items)) }
        ensures size { OnTrue result (HaveSize (size_of self.old) into.new.items) }
        ensures region { OnFalse result (self.new ≡ self.old) }
        ensures none { OnFalse result (into.new.items ≡ []) }
        ensures room { OnFalse result (into.old.spare ≤ into.new.spare) }
    {
        let start = self.data_off();
        let size = self.block_len();
        let list = iovs.as_slice();
        if !are_whole(start, size, list) {
            return false;
        }
        self.lend_iovs(list, into)
    }

    /// The same behind the test of the iovecs' bounds.
    fn lend_iovs(&mut self, iovs: &[Iov], into: &mut Parts) -> bool
        requires empty { into.old.items ≡ [] }
        requires room { length (named_by self.old iovs.now) ≤ into.old.spare }
        ensures answer { result ≡ can_take self.old.blocks (named_by self.old iovs.now) }
        ensures lent { OnTrue result (self.new ≡ lent self.old iovs.now) }
        ensures parts { OnTrue result (into.new.items ≡ parts_of self.old iovs.now) }
        ensures count { OnTrue result (length into.new.items ≡ length (named_by self.old iovs.now)) }
        ensures size { OnTrue result (HaveSize (size_of self.old) into.new.items) }
        ensures region { OnFalse result (self.new ≡ self.old) }
        ensures none { OnFalse result (into.new.items ≡ []) }
        ensures room { OnFalse result (into.old.spare ≤ into.new.spare) }
    {
        let start = self.data_off();
        let size = self.block_len();
        let mut done = 0;
        while done < iovs.len() {
            let iov = iovs[done];
            if !self.lend_range(first_block(start, size, iov), block_count(size, iov), into) {
                self.back_iovs(&iovs[..done], into);
                return false;
            }
            done += 1;
        }
        true
    }

    /// Puts each block to its place where that place is lent, and drops it otherwise. The parts are those that a `lend` of these iovecs
    /// gave.
    pub fn back(&mut self, iovs: &Iovs, parts: Parts)
        requires count { length parts.items ≡ length (named_by self.old iovs.now.items) }
        requires size { HaveSize (size_of self.old) parts.items }
        ensures { self.new ≡ given_back self.old iovs.now.items parts.items }
    {
        let mut parts = parts;
        self.back_iovs(iovs.as_slice(), &mut parts);
    }
}
