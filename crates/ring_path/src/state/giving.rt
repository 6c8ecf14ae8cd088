//! The next item of the ring goes to its handler, or is a note on task management.
ghost use Rattle.std.specs.Prelude.{◌≡◌, ◌+◌, ◌≤◌, ◌++◌, [], Some, length, map, IfOk, IsSome, OnOk, OnErr};
ghost use Rattle.tcmu_types.specs.Lists.{Every};
ghost use Rattle.tcmu_types.specs.Views.{dispatch_data};
ghost use Rattle.tcmu_model.specs.BlockLists.{kept_lists};
ghost use Rattle.tcmu_model.specs.Events.{after_dispatch, dispatch_answer};
ghost use Rattle.region_model.specs.Represents.{serial_with};
ghost use Rattle.ring_path.specs.Given.{CanBeGiven, IsGivenOut};

use super::State;
use crate::hand::Hand;
use std::alloc::Global;
use target_side::Target;
use tcmu_types::{Dispatch, Ids, NoMemory, Serials};
use user_lib::{Next, UserFault};

/// The serial of the command of an id.
fn serial_under(target: &Target, id: u16) -> u64
    requires { IsSome (serial_with target.now.rows id) }
    ensures { serial_with target.now.rows id ≡ Some result }
{
    target.serial_of(id).unwrap()
}

/// The serials of the commands of these ids, in the room that is there.
fn serials_under(target: &Target, ids: &Ids, into: &mut Serials)
    requires empty { into.old.items ≡ [] }
    requires room { length ids.now.items ≤ into.old.spare }
    requires there { Every (λ id. IsSome (serial_with target.now.rows id)) ids.now.items }
    ensures { map Some into.new.items ≡ map (serial_with target.now.rows) ids.now.items }
{
    for id in ids.as_slice() {
        into.push(serial_under(target, *id));
    }
}

/// Takes the job in hand that comes next, or tells the note by its serials, in the room that is there.
fn give(target: &Target, hand: &mut Hand, room: Serials, next: Next) -> Dispatch
    requires empty { room.items ≡ [] }
    requires can { CanBeGiven target.now.rows hand.old room.spare next }
    ensures { IsGivenOut target.now.rows hand.old.items next result hand.new.items }
{
    match next {
        Next::Job(job) => {
            let serial = serial_under(target, job.id);
            hand.push(serial, job);
            Dispatch::Job(serial)
        }
        Next::Note { kind, ids } => {
            let mut serials = room;
            serials_under(target, &ids, &mut serials);
            Dispatch::Note { kind, serials }
        }
        Next::Nothing => Dispatch::Nothing,
    }
}

impl State {
    /// The user side takes the next item of the ring. All memory is taken before it does.
    pub(crate) fn dispatch(&mut self, alloc: Global) -> Result<Dispatch, NoMemory>
        ensures answer { IfOk result (λ a. dispatch_data a ≡ dispatch_answer self.old.state) }
        ensures after { OnOk result (self.new.state ≡ after_dispatch self.old.state) }
        ensures lists { OnOk result (self.new.lists ≡ kept_lists self.new.state self.old.lists) }
        ensures err { OnErr result (self.new ≡ self.old) }
        ensures accepted { self.new.state.accepted ≡ self.old.state.accepted }
    {
        if !self.attached {
            self.told.dispatched();
            return Ok(Dispatch::Detached);
        }
        let mut room = Serials::new(alloc);
        room.reserve(self.longest)?;
        self.hand.reserve()?;
        match self.user.next(alloc, &mut self.region) {
            Ok(next) => {
                let answer = give(&self.target, &mut self.hand, room, next);
                self.told.dispatched();
                Ok(answer)
            }
            Err(UserFault::NoMemory) => Err(NoMemory),
            Err(UserFault::BadMailbox(_) | UserFault::BadEntry { .. }) => unreachable!(),
        }
    }
}
