//! The tail: it moves over the items that were passed, up to the first command's entry that has no answer.
ghost use Rattle.std.specs.Prelude.{◌≡◌, ◌==◌, not, if◌then◌else◌};
ghost use Rattle.std.specs.Bool.{OnTrue, OnFalse};
ghost use Rattle.tcmu_types.specs.ByteFields.{le, put};
ghost use Rattle.region_model.specs.Layout.{tail_place};
ghost use Rattle.region_model.specs.UserSteps.{moving, region_published, user_publish_answer, user_published};
ghost use Rattle.user_lib.specs.Moving.{MovesOne};

use crate::books::{UserBooks, place_behind};
use shm_region::Region;
use tcmu_types::Publish;

/// Writes the tail where items moved.
fn write_tail(region: &mut Region, items: u64, tail: u32)
    ensures { region.new ≡ (if items == 0 then region.old else record region.old { front = put region.old.front tail_place (le 4 tail) }) }
{
    if items != 0 {
        region.set_tail(tail);
    }
}

impl UserBooks {
    /// Whether a publish would move an item.
    pub(crate) fn moves(&self) -> bool
        ensures { result ≡ not (moving self.now == 0) }
    {
        match self.items.front() {
            Some(item) => !item.is_cmd() || self.published < self.placed,
            None => false,
        }
    }

    /// Moves the tail over the first item, where it may.
    fn move_item(&mut self) -> bool
        ensures moved { OnTrue result (MovesOne self.old self.new) }
        ensures none { OnFalse result (moving self.old ≡ 0) }
        ensures same { OnFalse result (self.new ≡ self.old) }
    {
        if !self.moves() {
            return false;
        }
        match self.items.pop_front() {
            Some(item) => {
                self.tail = place_behind(self.tail, item.len, self.ring);
                self.published += item.commands();
                true
            }
            None => unreachable!(),
        }
    }

    /// Moves the tail over all items that may be published; it is written only where one moves.
    #[tactic(auto, unfolding(region_model::specs::UserSteps::region_published))]
    pub(crate) fn publish(&mut self, region: &mut Region) -> Publish
        ensures answer { result ≡ user_publish_answer self.old }
        ensures user { self.new ≡ user_published self.old }
        ensures region { region.new ≡ region_published region.old self.old }
    {
        let held = self.items.len();
        let published = self.published;
        while self.move_item() {}
        let items = (held - self.items.len()) as u64;
        write_tail(region, items, self.tail);
        Publish::Moved {
            items,
            commands: self.published - published,
        }
    }
}
