//! A device that keeps plain lists.
ghost use Rattle.std.specs.Prelude.{◌≡◌};
ghost use Rattle.tcmu_model.specs.Device.{opening};
ghost use Rattle.tcmu_path.specs.Calls.{OpensLists};

use crate::path::Path;
use crate::state::State;
use handler_trait::Handler;
use std::alloc::Global;
use std::marker::Model;
use tcmu_types::{
    Command, Dispatch, Done, Enter, Handle, NoMemory, Publish, Reset, Respond, Serials, Settings,
    Stat, Submit, Tmr, Todo,
};

/// A device over a handler, kept as plain lists. Its invariant is that the device is sound (`IsSound`).
#[derive(Drop)]
pub struct PlainPath<H: Handler + Drop> {
    state: State,
    handler: H,
}

impl<H: Handler + Drop> Model for PlainPath<H> {
    ghost use Rattle.tcmu_model.specs.Device.{Device};
    ghost use Rattle.tcmu_model.specs.Sound.{IsSound};

    ghost Value = { Device };

    ghost view = { λ a. record { name = H.name a.handler; medium = H.medium a.handler; state = a.state } };

    ghost invariant = { λ a. IsSound a.state };
}

impl<H: Handler + Drop> PlainPath<H> {
    /// A device as it opens, over a handler's medium.
    pub fn new(alloc: Global, settings: Settings, handler: H) -> PlainPath<H>
        ensures device { result ≡ opening settings (H.name handler) (H.medium handler) }
        ensures lists { OpensLists (⟦<PlainPath<H> as Path>⟧.lists result) }
    {
        PlainPath {
            state: State::new(alloc, settings),
            handler,
        }
    }

    /// The handler, with the device's medium.
    pub fn into_handler(self) -> H
        ensures name { H.name result ≡ self.name }
        ensures medium { H.medium result ≡ self.medium }
    {
        let PlainPath { state: _, handler } = self;
        handler
    }
}

impl<H: Handler + Drop> Path for PlainPath<H> {
    ghost device = { λ p. p };

    ghost relation = { H.relation };

    fn submit(&mut self, _alloc: Global, command: &Command) -> Result<Submit, NoMemory> {
        self.state.submit(command)
    }

    fn dispatch(&mut self, _alloc: Global) -> Result<Dispatch, NoMemory> {
        self.state.dispatch()
    }

    fn handle(&mut self, alloc: Global, serial: u64) -> Result<Handle, NoMemory> {
        let Some(request) = self.state.request(serial)? else {
            return Ok(Handle::NotOut(serial));
        };
        let reply = self.handler.handle(alloc, &request)?;
        self.state.keep(serial, &reply);
        Ok(Handle::Done(reply))
    }

    fn respond(&mut self, serial: u64) -> Respond {
        self.state.respond(serial)
    }

    fn publish(&mut self) -> Publish {
        self.state.publish()
    }

    fn clean(&mut self) -> u64 {
        self.state.clean()
    }

    fn tick(&mut self, n: u32) -> u64 {
        self.state.tick(n)
    }

    fn block(&mut self) -> bool {
        self.state.block()
    }

    fn unblock(&mut self) -> bool {
        self.state.unblock()
    }

    fn reset(&mut self, level: u8) -> Reset {
        self.state.reset(level)
    }

    fn restart(&mut self) -> u64 {
        self.state.restart()
    }

    fn tmr(&mut self, _alloc: Global, kind: u8, serials: &Serials) -> Result<Tmr, NoMemory> {
        self.state.tmr(kind, serials)
    }

    fn enter(&mut self, _alloc: Global) -> Result<Enter, NoMemory> {
        self.state.enter()
    }

    fn stat(&self) -> Stat {
        self.state.stat()
    }

    fn log(&self) -> &[Done] {
        self.state.log()
    }

    fn todo(&self) -> Todo {
        self.state.todo()
    }
}
