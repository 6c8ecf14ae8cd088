//! What a clean takes out, over any bytes that the user side left.
ghost use Rattle.std.specs.Prelude.{◌≡◌, ◌≤◌, ◌==◌, ◌||◌, true, length, None, is_some, if◌then◌else◌};
ghost use Rattle.tcmu_types.specs.Numbers.{above_all};
ghost use Rattle.region_model.specs.Regions.{shrunk_to};
ghost use Rattle.region_model.specs.TargetSteps.{blocks_held};
ghost use Rattle.region_model.specs.TargetCleans.{all_cleaned, ends_at, logged_or_broken, region_cleaned, tail_fits, tail_read, target_clean_answer, target_cleaned};
ghost use Rattle.target_side.specs.Kept.{Fits};
ghost use Rattle.target_side.specs.RingRecord.{begins_with_command};
ghost use Rattle.target_side.specs.Cleaning.{clean_result, first_cleaned};

use crate::TargetFault;
use crate::books::Books;
use crate::completing::completion;
use entry_codec::read_response;
use shm_region::Region;

impl Books {
    /// Takes the command out whose answer stands in the first item, a command's. An expired one is in the log already.
    fn clean_command(&mut self, region: &Region)
        requires region { Fits region.now self.old }
        requires command { begins_with_command self.old.items ≡ true }
        ensures { self.new ≡ first_cleaned region.now self.old self.old.items }
    {
        let response = read_response(region.front(), self.entries.places.cleaned());
        match self.entries.commands.finish(response.id) {
            None => self.broken = Some(response.id),
            Some(pending) => {
                self.entries.places.pass();
                self.cleared += 1;
                if !pending.expired {
                    self.log
                        .push(completion(self.alloc, region, pending, &response));
                }
            }
        }
    }

    /// Cleans the first item.
    fn clean_first(&mut self, region: &Region)
        requires { Fits region.now self.old }
        ensures { self.new ≡ first_cleaned region.now self.old self.old.items }
    {
        if self.entries.places.begins_with_command() {
            self.clean_command(region);
        } else {
            self.entries.places.pass();
        }
    }

    /// Whether a clean up to a place has come to its end.
    fn is_cleaned_to(&self, tail: u32) -> bool
        ensures { result ≡ ((self.entry.now.cleaned == tail) || is_some self.entry.now.broken) }
    {
        self.entries.places.cleaned() == tail || self.broken.is_some()
    }

    /// Cleans the items up to a place, or to the first id that no command has.
    fn clean_items(&mut self, region: &Region, tail: u32)
        requires { Fits region.now self.old }
        ensures { self.new ≡ all_cleaned region.now tail self.old self.old.items }
    {
        for _ in 0..self.entries.places.len() {
            if self.is_cleaned_to(tail) {
                return;
            }
            self.clean_first(region);
        }
    }

    /// Lets the area end behind the highest block that is held, where the commands are not so many as they were.
    fn shrink_area(&mut self, region: &mut Region, before: u32)
        ensures same { self.new ≡ self.old }
        ensures region { region.new ≡ if length self.old.rows == before then region.old else shrunk_to region.old (above_all (blocks_held self.old.rows)) }
    {
        if self.entries.commands.len() != before {
            region.shrink(self.entries.commands.area_end());
        }
    }

    /// The id at which a clean stopped, since no command had it.
    fn stopped_at(&self) -> Option<u16>
        ensures { result ≡ self.entry.now.broken }
    {
        self.broken
    }

    /// What a clean answers that began with so many completions.
    fn cleaned_answer(&self, before: usize) -> Result<u64, TargetFault>
        requires { before ≤ length self.now.log }
        ensures { result ≡ clean_result (logged_or_broken before self.entry.now) }
    {
        match self.stopped_at() {
            Some(id) => Err(TargetFault::Broken { id }),
            None => Ok((self.log.len() - before) as u64),
        }
    }

    /// Whether a place is the cleaned one, or an item ends there.
    fn is_end(&self, tail: u32) -> bool
        ensures { result ≡ ((tail == self.entry.now.cleaned) || ends_at self.entry.now.settings.ring self.entry.now.cleaned self.entry.now.items tail) }
    {
        self.entries.places.is_end(tail)
    }

    /// Cleans up to the mailbox's tail, which is an item's end, or to the first id that no command has.
    fn clean_to(&mut self, region: &mut Region, tail: u32) -> Result<u64, TargetFault>
        requires region { Fits region.old self.old }
        requires on { self.old.broken ≡ None }
        requires tail { tail ≡ tail_read region.old }
        requires end { tail_fits region.old self.old ≡ true }
        ensures answer { result ≡ clean_result (target_clean_answer region.old self.old) }
        ensures target { self.new ≡ target_cleaned region.old self.old }
        ensures region { region.new ≡ region_cleaned region.old self.old }
    {
        let before = self.log.len();
        let count = self.entries.commands.len();
        self.clean_items(region, tail);
        self.shrink_area(region, count);
        self.cleaned_answer(before)
    }

    /// Takes the commands out whose answers stand before the mailbox's tail, and answers how many completions that logged.
    pub(crate) fn clean(&mut self, region: &mut Region) -> Result<u64, TargetFault>
        requires { Fits region.old self.old }
        ensures answer { result ≡ clean_result (target_clean_answer region.old self.old) }
        ensures target { self.new ≡ target_cleaned region.old self.old }
        ensures region { region.new ≡ region_cleaned region.old self.old }
    {
        if let Some(id) = self.stopped_at() {
            return Err(TargetFault::Broken { id });
        }
        let tail = region.tail();
        if !self.is_end(tail) {
            return Err(TargetFault::BadTail { tail });
        }
        self.clean_to(region, tail)
    }
}
