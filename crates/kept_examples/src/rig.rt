//! A kept device whose calls tell as text what came of them. Contracts see nothing of it.
ghost use Rattle.journal_kept.specs.Fronts.{CanKeep, IsOpened};

use journal_kept::{Ask, Kept, Told};
use report_text::{entry_text, event_line};
use scenario_text::Script;
use std::alloc::Global;
use std::marker::Model;
use std::test::Fail;
use tcmu_path::Path;
use tcmu_types::{Answer, Bytes, Done, Name, NoMemory};
use turn_lock::Stepped;

/// A kept device of number 0.
#[derive(Drop)]
pub struct Rig<P: Path + Drop> {
    kept: Kept<P>,
}

impl<P: Path + Drop> Model for Rig<P> {
    ghost Value = { Unit {0} };

    ghost view = { λ _. tt };
}

impl<P: Path + Drop> Rig<P> {
    /// Keeps a device as it opens.
    pub fn new(alloc: Global, path: P, script: Script) -> Result<Rig<P>, NoMemory>
        requires script { CanKeep script }
        requires opened { IsOpened (P.device path) }
    {
        let kept = Kept::new(alloc, path, script, 0)?;
        Ok(Rig { kept })
    }

    /// How many initiators its script has.
    pub fn initiators(&self) -> u32 {
        self.kept.initiators()
    }

    /// How many entries its journal has.
    pub fn length(&self) -> u64 {
        self.kept.length()
    }

    /// How many completions the device logged.
    pub fn finished(&self) -> usize {
        self.kept.path().log().len()
    }

    /// Makes an ask.
    fn ask(&mut self, ask: &Ask) -> Result<Told, NoMemory> {
        self.kept.ask(ask)
    }

    /// Makes an ask: the line of its event with the answer that was told, or in words why there is none.
    pub fn told(&mut self, alloc: Global, ask: &Ask) -> Result<Vec<u8>, Fail> {
        let word = match self.ask(ask)? {
            Told::Answered(answer) => return self.last_line(alloc, &answer),
            Told::NoLine => "no line",
            Told::Idle => "idle",
            Told::Ended => "ended",
        };
        let mut text = Vec::new(alloc);
        text.extend_from_slice(word.as_bytes())?;
        Ok(text)
    }

    /// The line of the last event, with this answer.
    fn last_line(&self, alloc: Global, answer: &Answer) -> Result<Vec<u8>, Fail> {
        let name = Name::new("d0").ok_or("a name")?;
        let entry = self.kept.journal().last().ok_or("an entry")?;
        Ok(event_line(alloc, &name, 0, &entry.event, answer)?)
    }

    /// Makes these asks, one behind the other.
    pub fn ask_all(&mut self, asks: &[Ask]) -> Result<(), NoMemory> {
        for ask in asks {
            self.ask(ask)?;
        }
        Ok(())
    }

    /// Makes what is left.
    pub fn finish(&mut self) -> Result<(), NoMemory> {
        self.kept.finish()
    }

    /// The lines of its journal.
    pub fn journal(&self, alloc: Global, qfull: u32) -> Result<Bytes, Fail> {
        let mut text = Bytes::new(alloc);
        let name = Name::new("d0").ok_or("a name")?;
        let mut log = self.kept.path().log();
        for entry in self.kept.journal() {
            let (logged, rest) = split(log, entry.logged);
            entry_text(alloc, &name, qfull, entry, logged, &mut text)?;
            log = rest;
        }
        Ok(text)
    }
}

/// The first completions of a log, and the others.
fn split(log: &[Done], count: u64) -> (&[Done], &[Done]) {
    log.split_at(log.len().min(count as usize))
}
