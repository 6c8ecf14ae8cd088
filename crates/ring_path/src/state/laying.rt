//! What lays items in the ring: submit, enter, and notes on task management.
ghost use Rattle.std.specs.Prelude.{◌≡◌, ◌+◌, ◌<◌, ◌≤◌, ◌^◌, IfOk, OnErr};
ghost use Rattle.tcmu_types.specs.Events as ev;
ghost use Rattle.tcmu_types.specs.Numbers.{IsRising};
ghost use Rattle.tcmu_types.specs.Rules.{IsCommand};
ghost use Rattle.tcmu_model.specs.BlockLists.{lists_after};
ghost use Rattle.tcmu_model.specs.Events.{after_enter, after_submit, after_tmr, enter_answer, submit_answer, tmr_answer};

use super::State;
use std::alloc::Global;
use tcmu_types::{Command, Enter, NoMemory, Serials, Submit, Tmr};

impl State {
    /// An initiator sends a command.
    pub(crate) fn submit(&mut self, alloc: Global, command: &Command) -> Result<Submit, NoMemory>
        requires { self.old.state.accepted < 2 ^ 63 }
        ensures answer { IfOk result (λ a. a ≡ submit_answer self.old.state command.now) }
        ensures after { IfOk result (λ a. self.new.state ≡ after_submit self.old.state command.now a) }
        ensures lists { IfOk result (λ a. self.new.lists ≡ lists_after self.old.state self.old.lists (ev.Submit command.now) (ev.Submitted a) self.new.state) }
        ensures err { OnErr result (self.new ≡ self.old) }
        ensures least { self.old.state.accepted ≤ self.new.state.accepted }
        ensures most { self.new.state.accepted ≤ self.old.state.accepted + 1 }
        ensures command { IsCommand command.now }
    {
        // What these calls ensure is used: the rules of a command, and the limits of a region.
        let _rules = command.cdb();
        let _limits = self.region.data_off();
        let answer = self.target.submit(alloc, &mut self.region, command)?;
        self.told.submitted(command, &answer);
        Ok(answer)
    }

    /// The delayed command of the least serial enters the ring.
    pub(crate) fn enter(&mut self, alloc: Global) -> Result<Enter, NoMemory>
        ensures answer { IfOk result (λ a. a ≡ enter_answer self.old.state) }
        ensures after { IfOk result (λ a. self.new.state ≡ after_enter self.old.state a) }
        ensures lists { IfOk result (λ a. self.new.lists ≡ lists_after self.old.state self.old.lists ev.Enter (ev.Entered a) self.new.state) }
        ensures err { OnErr result (self.new ≡ self.old) }
        ensures accepted { self.new.state.accepted ≡ self.old.state.accepted }
    {
        // What this call ensures is used: the limits of a region.
        let _limits = self.region.data_off();
        let answer = self.target.enter(alloc, &mut self.region)?;
        self.told.entered(&answer);
        Ok(answer)
    }

    /// A task management note on these serials, which rise, is laid in the ring.
    pub(crate) fn tmr(
        &mut self,
        alloc: Global,
        kind: u8,
        serials: &Serials,
    ) -> Result<Tmr, NoMemory>
        requires { IsRising serials.now.items }
        ensures answer { IfOk result (λ a. a ≡ tmr_answer self.old.state serials.now.items) }
        ensures after { IfOk result (λ a. self.new.state ≡ after_tmr self.old.state kind serials.now.items a) }
        ensures lists { IfOk result (λ a. self.new.lists ≡ lists_after self.old.state self.old.lists (ev.Tmr kind serials.now.items) (ev.Noted a) self.new.state) }
        ensures err { OnErr result (self.new ≡ self.old) }
        ensures accepted { self.new.state.accepted ≡ self.old.state.accepted }
    {
        let answer = self.target.tmr(alloc, &mut self.region, kind, serials)?;
        self.longest = self.longest.max(serials.len() as u64);
        self.told.noted(kind, serials, &answer);
        Ok(answer)
    }
}
