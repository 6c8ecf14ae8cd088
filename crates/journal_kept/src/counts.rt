//! How far the lists of a script are made.
ghost use Rattle.std.specs.Prelude.{◌≡◌, length, replicate, map, slice_get, IfOk, MatchBool};
ghost use Rattle.std.specs.Option.{option_map};
ghost use Rattle.tcmu_types.specs.Views.{event_data};
ghost use Rattle.journal_kept.specs.Counted.{line_in, counted_with, CanCount, LinesCounted, AllCounted};

use crate::asking::Ask;
use scenario_text::{InitLine, Script};
use std::alloc::Global;
use std::marker::Model;
use tcmu_types::{Event, NoMemory};

/// How many commands of each initiator were sent, and how many events of the administration were made.
#[derive(Drop)]
pub struct Counts {
    lines: Vec<usize>,
    admin: usize,
}

impl Model for Counts {
    ghost use Rattle.journal_kept.specs.Keeping.{CountsData};

    ghost Value = { CountsData };

    ghost view = { λ a. record { lines = a.lines.items; admin = a.admin } };
}

impl Counts {
    /// Nothing is made, of so many initiators and of the administration.
    pub fn new(alloc: Global, initiators: usize) -> Result<Counts, NoMemory>
        ensures { IfOk result (λ c. c ≡ record { lines = replicate initiators 0; admin = 0 }) }
    {
        let mut lines = Vec::new(alloc);
        lines.resize(initiators, 0)?;
        Ok(Counts { lines, admin: 0 })
    }

    /// The next line of the initiator of this number.
    pub fn next_line(
        &self,
        alloc: Global,
        inits: &[InitLine],
        at: u32,
    ) -> Result<Option<Event>, NoMemory>
        ensures { IfOk result (λ o. option_map event_data o ≡ line_in inits.now self.now.lines at) }
    {
        let at = at as usize;
        let Some(init) = inits.get(at) else {
            return Ok(None);
        };
        let Some(sent) = self.lines.get(at) else {
            return Ok(None);
        };
        let Some(command) = init.commands.as_slice().get(*sent) else {
            return Ok(None);
        };
        Ok(Some(Event::Submit(command.try_clone(alloc)?)))
    }

    /// The next event of the administration.
    pub fn next_admin(&self, alloc: Global, admin: &[Event]) -> Result<Option<Event>, NoMemory>
        ensures { IfOk result (λ o. option_map event_data o ≡ slice_get (map event_data admin.now) self.now.admin) }
    {
        let Some(event) = admin.get(self.admin) else {
            return Ok(None);
        };
        Ok(Some(event.try_clone(alloc)?))
    }

    /// Counts what an ask made.
    pub fn count(&mut self, ask: &Ask)
        requires { CanCount ask.now self.old }
        ensures { self.new ≡ counted_with ask.now self.old }
    {
        match ask {
            Ask::Line(at) => self.lines[*at as usize] += 1,
            Ask::Admin => self.admin += 1,
            Ask::Work | Ask::Handle(_) | Ask::Respond(_) => {}
        }
    }

    /// Whether all lines of the script are made.
    pub fn is_all(&self, script: &Script) -> bool
        ensures { MatchBool result (AllCounted script.now self.now) (AllCounted script.now self.now → ⊥) }
    {
        if self.admin < script.admin.len() {
            return false;
        }
        are_all_sent(script.inits.as_slice(), self.lines.as_slice())
    }
}

/// Whether each initiator has sent all its commands.
fn are_all_sent(inits: &[InitLine], sent: &[usize]) -> bool
    ensures { MatchBool result (LinesCounted inits.now sent.now) (LinesCounted inits.now sent.now → ⊥) }
{
    for at in 0..inits.len() {
        if sent.len() <= at {
            return false;
        }
        let init = &inits[at];
        if sent[at] < init.commands.len() {
            return false;
        }
    }
    true
}
