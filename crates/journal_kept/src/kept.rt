//! A device with its script, and the journal of what was made.
ghost use Rattle.std.specs.Prelude.{◌≡◌, ◌≤◌, [], Some, None, length, IfOk, IfErr, OnOk, OnErr};
ghost use Rattle.std.specs.Option.{option_map};
ghost use Rattle.tcmu_types.specs.Views.{event_data};
ghost use Rattle.tcmu_model.specs.Drain.{drain_event};
ghost use Rattle.text_model.specs.Schedule.{IsSchedule};
ghost use Rattle.turn_lock.specs.History.{Appends};
ghost use Rattle.journal_kept.specs.Asked.{asked_event, work_event, AsksLines};
ghost use Rattle.journal_kept.specs.Answering.{tells_answer, TellsOn, MayTell};
ghost use Rattle.journal_kept.specs.Fronts.{CanKeep, IsOpened, IsFront};
ghost use Rattle.journal_kept.specs.Keeping.{AsksOnce, Lengthens};
ghost use Rattle.journal_kept.specs.declared.asking.Ask.TheVariants as asks;
ghost use Rattle.journal_kept.specs.declared.asking.Told.TheVariants as told;

use crate::asking::{Ask, Told};
use crate::counts::Counts;
use crate::entries::Entries;
use crate::picking::{drain_ask, work_event};
use crate::plan::Plan;
use scenario_text::Script;
use std::alloc::{AllocFailed, Global};
use std::marker::Model;
use std::snapshot::Snapshot;
use tcmu_path::{Path, next_event};
use tcmu_types::{Answer, Entry, Event, NoMemory};
use turn_lock::Stepped;

/// A device that is asked one event at a time, with its script and the journal of what was made. Contracts see what is fixed, the journal
/// and the device. The journal always is a front of a schedule of the script (`IsFront`).
#[derive(Drop)]
pub struct Kept<P: Path + Drop> {
    alloc: Global,
    plan: Plan<P>,
    counts: Counts,
    entries: Entries,
    path: P,
}

impl<P: Path + Drop> Model for Kept<P> {
    ghost use Rattle.journal_kept.specs.Keeping.{KeptData, IsKeptFront};

    ghost Value = { KeptData };

    ghost view = { λ k. record { plan = k.plan; journal = k.entries.items; device = P.device k.path } };

    ghost invariant = { λ k. IsKeptFront P.relation k.plan k.counts k.entries (P.device k.path) };
}

impl<P: Path + Drop> Kept<P> {
    /// Keeps a device as it opens, with nothing made. Where there is no memory the error has the path.
    pub fn new_or_give_back(
        alloc: Global,
        path: P,
        script: Script,
        device: u32,
    ) -> Result<Kept<P>, AllocFailed<P>>
        requires script { CanKeep script }
        requires opened { IsOpened (P.device path) }
        ensures kept { IfOk result (λ k. k ≡ record {
          plan = record { script = script; device = device; opening = P.device path };
          journal = [];
          device = P.device path;
        }) }
        ensures given_back { IfErr result (λ e. e.value ≡ path) }
    {
        let _count = script.admin.len();
        let Ok(counts) = Counts::new(alloc, script.inits.len()) else {
            return Err(AllocFailed { value: path });
        };
        let entries = Entries::new(alloc, device, script.admin.as_slice());
        let opening = Snapshot::of(&path);
        let plan = Plan {
            script,
            device,
            opening,
        };
        Ok(Kept {
            alloc,
            plan,
            counts,
            entries,
            path,
        })
    }

    /// As `new_or_give_back`; where there is no memory the path is dropped.
    pub fn new(alloc: Global, path: P, script: Script, device: u32) -> Result<Kept<P>, NoMemory>
        requires script { CanKeep script }
        requires opened { IsOpened (P.device path) }
        ensures kept { IfOk result (λ k. k ≡ record {
          plan = record { script = script; device = device; opening = P.device path };
          journal = [];
          device = P.device path;
        }) }
    {
        Ok(Kept::new_or_give_back(alloc, path, script, device)?)
    }

    /// The entries, in the order in which they were made.
    pub fn journal(&self) -> &[Entry]
        ensures value { result.now ≡ self.now.journal }
        ensures front { IsFront P.relation self.now.plan self.now.journal self.now.device }
    {
        self.entries.as_slice()
    }

    /// How many initiators the script has.
    pub fn initiators(&self) -> u32
        ensures value { result ≡ length self.now.plan.script.inits }
        ensures few { result ≤ 16 }
    {
        self.plan.script.inits.len() as u32
    }

    /// The device.
    pub fn path(&self) -> &P
        ensures { P.device result.now ≡ self.now.device }
    {
        &self.path
    }

    /// Gives the device back, and drops its journal.
    pub fn into_path(self) -> P
        ensures { P.device result ≡ self.device }
    {
        let Kept { path, .. } = self;
        path
    }

    /// Makes the lines that are left, the initiators' in order and then the administration's, and drains. Then the journal is a schedule
    /// of the script. After want of memory it is a front of one, which begins as it was.
    pub fn finish(&mut self) -> Result<(), NoMemory>
        ensures goes_on { Lengthens self.old self.new }
        ensures front { IsFront P.relation self.new.plan self.new.journal self.new.device }
        ensures schedule { OnOk result (IsSchedule P.relation self.new.plan.device self.new.plan.script self.new.plan.opening self.new.journal self.new.device) }
    {
        for at in 0..self.initiators() {
            self.use_up(&Ask::Line(at))?;
        }
        self.use_up(&Ask::Admin)?;
        self.drain()
    }

    /// Makes what is left of one list.
    fn use_up(&mut self, ask: &Ask) -> Result<(), NoMemory>
        requires { AsksLines ask.now }
        ensures goes_on { Lengthens self.old self.new }
        ensures front { IsFront P.relation self.new.plan self.new.journal self.new.device }
        ensures none { OnOk result (asked_event self.new.plan.script self.new.journal self.new.device.state ask.now ≡ None) }
    {
        while let Told::Answered(_) = self.ask(ask)? {}
        Ok(())
    }

    /// Makes the events of the drain.
    fn drain(&mut self) -> Result<(), NoMemory>
        ensures goes_on { Lengthens self.old self.new }
        ensures front { IsFront P.relation self.new.plan self.new.journal self.new.device }
        ensures done { OnOk result (drain_event self.new.device.state ≡ None) }
    {
        loop {
            let ask = drain_ask(&self.path.todo());
            let Told::Answered(_) = self.ask(&ask)? else {
                return Ok(());
            };
        }
    }

    /// The event that an ask makes now.
    fn event_of(&self, ask: &Ask) -> Result<Option<Event>, NoMemory>
        ensures front { IsFront P.relation self.now.plan self.now.journal self.now.device }
        ensures event { IfOk result (λ o. option_map event_data o ≡ asked_event self.now.plan.script self.now.journal self.now.device.state ask.now) }
    {
        let script = &self.plan.script;
        match ask {
            Ask::Line(at) => self
                .counts
                .next_line(self.alloc, script.inits.as_slice(), *at),
            Ask::Admin => self.counts.next_admin(self.alloc, script.admin.as_slice()),
            Ask::Work => Ok(work_event(&self.path.todo())),
            Ask::Handle(serial) => Ok(Some(Event::Handle(*serial))),
            Ask::Respond(serial) => Ok(Some(Event::Respond(*serial))),
        }
    }

    /// Makes the event of an ask.
    fn make(&mut self, ask: &Ask, event: Event) -> Result<Answer, NoMemory>
        requires { asked_event self.old.plan.script self.old.journal self.old.device.state ask.now ≡ Some (event_data event) }
        ensures asked { IfOk result (λ answer. AsksOnce P.relation self.old ask.now (told.Answered answer) self.new) }
        ensures front { IsFront P.relation self.new.plan self.new.journal self.new.device }
        ensures unchanged { OnErr result (self.new ≡ self.old) }
    {
        let answer = self.entries.make(self.alloc, &mut self.path, event)?;
        self.counts.count(ask);
        Ok(answer)
    }

    /// What an ask is told that makes no event.
    fn told_none(&self, ask: &Ask) -> Told
        requires { asked_event self.now.plan.script self.now.journal self.now.device.state ask.now ≡ None }
        ensures { TellsOn P.relation self.now.plan self.now.journal self.now.device ask.now result [] self.now.device }
    {
        match ask {
            Ask::Line(_) | Ask::Admin => Told::NoLine,
            Ask::Work => self.told_at_rest(),
            Ask::Handle(_) | Ask::Respond(_) => unreachable!(),
        }
    }

    /// What a worker is told that finds nothing to do.
    fn told_at_rest(&self) -> Told
        requires { work_event self.now.device.state ≡ None }
        ensures { TellsOn P.relation self.now.plan self.now.journal self.now.device asks.Work result [] self.now.device }
    {
        if !self.counts.is_all(&self.plan.script) {
            return Told::Idle;
        }
        match next_event(&self.path.todo()) {
            Some(_) => Told::Idle,
            None => Told::Ended,
        }
    }
}

impl<P: Path + Drop> Stepped for Kept<P> {
    type Ask = Ask;

    type Told = Told;

    type Script = Plan<P>;

    type Entry = Entry;

    ghost script = { λ k. k.plan };

    ghost history = { λ k. k.journal };

    ghost makes_entry = { tells_answer };

    ghost fits = { MayTell P.relation };

    /// The number of entries.
    fn length(&self) -> u64 {
        self.entries.as_slice().len() as u64
    }

    /// Makes one event at most. It takes all memory before: after want of memory nothing has changed.
    fn ask(&mut self, ask: &Ask) -> Result<Told, NoMemory>
        ensures told { IfOk result (λ told. Appends tells_answer (MayTell P.relation self.old.plan) self.old.journal ask.now told self.new.journal) }
        ensures asked { IfOk result (λ told. AsksOnce P.relation self.old ask.now told self.new) }
        ensures front { IsFront P.relation self.new.plan self.new.journal self.new.device }
        ensures unchanged { OnErr result (self.new ≡ self.old) }
    {
        match self.event_of(ask)? {
            Some(event) => Ok(Told::Answered(self.make(ask, event)?)),
            None => Ok(self.told_none(ask)),
        }
    }
}
