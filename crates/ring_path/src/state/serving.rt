//! What a handler's reply becomes: it is kept, it stands in the ring, and the tail is moved behind it.
ghost use Rattle.std.specs.Prelude.{◌≡◌, ◌≤◌, Some, length, IsSome};
ghost use Rattle.tcmu_types.specs.Rules.{IsReply};
ghost use Rattle.tcmu_model.specs.BlockLists.{kept_lists};
ghost use Rattle.tcmu_model.specs.Device.{Unfinished};
ghost use Rattle.tcmu_model.specs.Events.{after_handle, after_publish, after_respond, command_out, publish_answer, respond_answer};

use super::State;
use tcmu_types::{Publish, Reply, Respond};

impl State {
    /// The command of a serial that is out has its reply.
    pub(crate) fn keep(&mut self, serial: u64, reply: Reply)
        requires there { IsSome (command_out self.old.state serial) }
        requires fits { (u : Unfinished) → command_out self.old.state serial ≡ Some u → length reply.payload ≤ u.command.in_len }
        ensures after { self.new.state ≡ after_handle self.old.state serial reply }
        ensures lists { self.new.lists ≡ kept_lists self.new.state self.old.lists }
        ensures accepted { self.new.state.accepted ≡ self.old.state.accepted }
        ensures reply { IsReply reply }
    {
        let _status = reply.status;
        self.told.handled(serial, &reply);
        self.hand.answer(serial, reply);
    }

    /// The device stays as it is.
    pub(crate) fn stay(&mut self)
        ensures after { self.new.state ≡ self.old.state }
        ensures lists { self.new.lists ≡ kept_lists self.new.state self.old.lists }
    {
        self.told.kept();
    }

    /// The reply to the command of a serial is placed in the ring, or parked.
    pub(crate) fn respond(&mut self, serial: u64) -> Respond
        ensures answer { result ≡ respond_answer self.old.state serial }
        ensures after { self.new.state ≡ after_respond self.old.state serial }
        ensures lists { self.new.lists ≡ kept_lists self.new.state self.old.lists }
        ensures accepted { self.new.state.accepted ≡ self.old.state.accepted }
    {
        let Some(answered) = self.hand.take_answered(serial) else {
            self.told.responded(serial);
            return Respond::NotHandled(serial);
        };
        let answer = self
            .user
            .respond(&mut self.region, answered.job, answered.reply);
        self.told.responded(serial);
        answer
    }

    /// The user side moves the mailbox's tail past what is answered.
    pub(crate) fn publish(&mut self) -> Publish
        ensures answer { result ≡ publish_answer self.old.state }
        ensures after { self.new.state ≡ after_publish self.old.state }
        ensures lists { self.new.lists ≡ kept_lists self.new.state self.old.lists }
        ensures accepted { self.new.state.accepted ≡ self.old.state.accepted }
    {
        if !self.attached {
            self.told.published();
            return Publish::Detached;
        }
        let answer = self.user.publish(&mut self.region);
        self.told.published();
        answer
    }
}
