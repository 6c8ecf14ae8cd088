//! A device whose calls tell their answers alone: that it has accepted few commands stands in its type.
ghost use Rattle.std.specs.Prelude.{◌≡◌, ◌≤◌};

use std::alloc::Global;
use std::marker::Model;
use tcmu_path::{Path, make_event, next_event};
use tcmu_types::{
    Answer, Command, Dispatch, Done, Enter, Handle, NoMemory, Publish, Reset, Respond, Serials,
    Stat, Submit, Tmr,
};

/// A device that may be sent 4,294,967,295 commands. Its calls are those of `Path` by the same names; a command more is answered with
/// `NoMemory`.
#[derive(Drop)]
pub struct Rig<P: Path + Drop> {
    path: P,
    sent: u32,
}

impl<P: Path + Drop> Model for Rig<P> {
    ghost use Rattle.std.specs.Prelude.{◌≤◌};

    ghost Value = { Unit {0} };

    ghost view = { λ _. tt };

    ghost invariant = { λ a. (P.device a.path).state.accepted ≤ a.sent };
}

impl<P: Path + Drop> Rig<P> {
    /// A device that has accepted no command.
    pub fn new(path: P) -> Rig<P>
        requires { (P.device path).state.accepted ≡ 0 }
    {
        Rig { path, sent: 0 }
    }

    pub fn submit(&mut self, alloc: Global, command: &Command) -> Result<Submit, NoMemory> {
        if self.sent == u32::MAX {
            return Err(NoMemory);
        }
        self.sent += 1;
        self.path.submit(alloc, command)
    }

    pub fn dispatch(&mut self, alloc: Global) -> Result<Dispatch, NoMemory> {
        self.path.dispatch(alloc)
    }

    pub fn handle(&mut self, alloc: Global, serial: u64) -> Result<Handle, NoMemory> {
        self.path.handle(alloc, serial)
    }

    pub fn respond(&mut self, serial: u64) -> Respond {
        self.path.respond(serial)
    }

    pub fn publish(&mut self) -> Publish {
        self.path.publish()
    }

    pub fn clean(&mut self) -> u64 {
        self.path.clean()
    }

    pub fn tick(&mut self, n: u32) -> u64 {
        self.path.tick(n)
    }

    pub fn block(&mut self) -> bool {
        self.path.block()
    }

    pub fn unblock(&mut self) -> bool {
        self.path.unblock()
    }

    pub fn reset(&mut self, level: u8) -> Reset
        requires low { 1 ≤ level }
        requires high { level ≤ 2 }
    {
        self.path.reset(level)
    }

    pub fn restart(&mut self) -> u64 {
        self.path.restart()
    }

    /// A note that aborts the command of one serial.
    pub fn abort(&mut self, alloc: Global, serial: u64) -> Result<Tmr, NoMemory> {
        let serials = Serials::from_slice(alloc, &[serial])?;
        self.path.tmr(alloc, 1, &serials)
    }

    /// A note that aborts the commands of three serials, this one and the next two.
    pub fn abort_three(&mut self, alloc: Global, first: u64) -> Result<Tmr, NoMemory> {
        if first > 4_294_967_295 {
            return Err(NoMemory);
        }
        let serials = Serials::from_slice(alloc, &[first, first + 1, first + 2])?;
        self.path.tmr(alloc, 2, &serials)
    }

    /// A note that resets the unit, and names no command.
    pub fn reset_unit(&mut self, alloc: Global) -> Result<Tmr, NoMemory> {
        let serials = Serials::new(alloc);
        self.path.tmr(alloc, 5, &serials)
    }

    pub fn enter(&mut self, alloc: Global) -> Result<Enter, NoMemory> {
        self.path.enter(alloc)
    }

    pub fn stat(&self) -> Stat {
        self.path.stat()
    }

    pub fn log(&self) -> &[Done] {
        self.path.log()
    }

    /// Makes the event that the drain chooses, and gives its answer; none where none applies.
    pub fn step(&mut self, alloc: Global) -> Result<Option<Answer>, NoMemory> {
        let Some(event) = next_event(&self.path.todo()) else {
            return Ok(None);
        };
        let answer = make_event(alloc, &mut self.path, &event)?;
        Ok(Some(answer))
    }

    /// Makes the events of a drain, 100,000 at most.
    pub fn drain(&mut self, alloc: Global) -> Result<(), NoMemory> {
        for _ in 0..100_000u32 {
            if self.step(alloc)?.is_none() {
                return Ok(());
            }
        }
        Ok(())
    }
}
