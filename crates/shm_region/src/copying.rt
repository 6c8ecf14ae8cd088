//! Bytes copied along iovecs, by byte offsets in the region. A lent block reads as zeros, and is not changed.
ghost use Rattle.std.specs.Prelude.{◌≡◌, ◌+◌, ◌-◌, ◌^◌, ◌<◌, ◌≤◌, length, take, drop, min};
ghost use Rattle.tcmu_types.specs.ByteFields.{put};
ghost use Rattle.region_model.specs.Iovecs.{EndBelow, total_of, along};
ghost use Rattle.region_model.specs.Regions.{bytes_of, wrote, copied_in, LieInRegion};

use crate::Region;
use tcmu_types::little_endian::{put_bytes, put_zeros};
use tcmu_types::{Iov, Iovs};

impl Region {
    /// Writes bytes from byte `at` on. It goes over the blocks that they touch alone.
    fn write_range(&mut self, at: u64, bytes: &[u8])
        requires { at + length bytes.now < 2 ^ 64 }
        ensures { self.new ≡ wrote self.old at bytes.now }
    {
        let start = self.data_off();
        let size = self.block_len();
        let end = at + bytes.len() as u64;
        let first = at.saturating_sub(start) / size;
        let past = end
            .saturating_sub(start)
            .div_ceil(size)
            .min(self.block_count());
        self.overlay_front(at, bytes);
        for index in first..past {
            self.overlay_block(index, at, bytes);
        }
    }

    /// Copies from the front, up to its end or to place `end` of `into`, and answers how many bytes.
    fn read_front(&self, at: u64, into: &mut [u8], done: usize, end: usize) -> usize
        requires front { at < length self.now.front }
        requires left { done < end }
        requires room { end ≤ length into.old }
        ensures some { 1 ≤ result }
        ensures most { done + result ≤ end }
        ensures value { into.new ≡ put into.old done (take result (drop at (bytes_of self.now))) }
    {
        let rest = &self.front()[at as usize..];
        let count = rest.len().min(end - done);
        put_bytes(into, done, &rest[..count]);
        count
    }

    /// Copies from the data area, up to a block's end or to place `end` of `into`, and answers how many bytes.
    fn read_block(&self, at: u64, into: &mut [u8], done: usize, end: usize) -> usize
        requires area { length self.now.front ≤ at }
        requires left { done < end }
        requires room { end ≤ length into.old }
        requires inside { at + (end - done) ≤ length (bytes_of self.now) }
        ensures some { 1 ≤ result }
        ensures most { done + result ≤ end }
        ensures value { into.new ≡ put into.old done (take result (drop at (bytes_of self.now))) }
    {
        let offset = at - self.data_off();
        let size = self.block_len();
        let skip = (offset % size) as usize;
        let count = (size as usize - skip).min(end - done);
        match self.home_block(offset / size) {
            Some(bytes) => put_bytes(into, done, &bytes[skip..skip + count]),
            None => put_zeros(into, done, count),
        }
        count
    }

    /// Fills `into` from place `from` up to place `end`, from byte `at` on.
    fn read_range(&self, at: u64, into: &mut [u8], from: usize, end: usize)
        requires order { from ≤ end }
        requires room { end ≤ length into.old }
        requires inside { at + (end - from) ≤ length (bytes_of self.now) }
        ensures { into.new ≡ put into.old from (take (end - from) (drop at (bytes_of self.now))) }
    {
        let start = self.data_off();
        let mut done = from;
        while done < end {
            let place = at + (done - from) as u64;
            if place < start {
                done += self.read_front(place, into, done, end);
            } else {
                done += self.read_block(place, into, done, end);
            }
        }
    }

    /// Writes bytes along iovecs, as many as these have room for, and answers how many.
    fn write_along(&mut self, iovs: &[Iov], bytes: &[u8]) -> u64
        requires { EndBelow iovs.now }
        ensures region { self.new ≡ copied_in self.old iovs.now bytes.now }
        ensures count { result ≡ min (length bytes.now) (total_of iovs.now) }
    {
        let mut rest = bytes;
        for iov in iovs {
            let count = iov.len.min(rest.len() as u64) as usize;
            self.write_range(iov.base, &rest[..count]);
            rest = &rest[count..];
        }
        (bytes.len() - rest.len()) as u64
    }

    /// Fills `into` along iovecs, which have at least so many bytes.
    fn read_along(&self, iovs: &[Iov], into: &mut [u8])
        requires inside { LieInRegion self.now iovs.now }
        requires enough { length into.old ≤ total_of iovs.now }
        ensures { into.new ≡ take (length into.old) (along (bytes_of self.now) iovs.now) }
    {
        let mut done = 0;
        for iov in iovs {
            let count = iov.len.min((into.len() - done) as u64) as usize;
            self.read_range(iov.base, into, done, done + count);
            done += count;
        }
    }

    /// Writes bytes along iovecs that lie in the region, as many as these have room for, and answers how many.
    pub fn copy_in(&mut self, iovs: &Iovs, bytes: &[u8]) -> u64
        requires { LieInRegion self.old iovs.now.items }
        ensures region { self.new ≡ copied_in self.old iovs.now.items bytes.now }
        ensures count { result ≡ min (length bytes.now) (total_of iovs.now.items) }
    {
        // What this call ensures is used: the limits of every region.
        let _ = self.data_off();
        self.write_along(iovs.as_slice(), bytes)
    }

    /// Fills `into` along iovecs that lie in the region and have at least so many bytes.
    pub fn copy_out(&self, iovs: &Iovs, into: &mut [u8])
        requires inside { LieInRegion self.now iovs.now.items }
        requires enough { length into.old ≤ total_of iovs.now.items }
        ensures { into.new ≡ take (length into.old) (along (bytes_of self.now) iovs.now.items) }
    {
        self.read_along(iovs.as_slice(), into);
    }
}
