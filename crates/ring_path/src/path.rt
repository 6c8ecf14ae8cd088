//! A device over a region, with its handler.
ghost use Rattle.std.specs.Prelude.{◌≡◌, ◌≤◌, [], IfOk, IfErr, Some};
ghost use Rattle.ring_path.specs.Dumped.{with_length};
ghost use Rattle.tcmu_model.specs.Device.{opening};

use crate::shown::Shown;
use crate::state::State;
use handler_trait::Handler;
use std::alloc::Global;
use std::marker::Model;
use tcmu_path::Path;
use tcmu_types::{
    Command, CopyRoom, Dispatch, Done, Dump, Enter, Handle, Listed, NoMemory, Publish, Reset,
    Respond, Serials, Settings, Stat, Submit, Tmr, Todo,
};

/// A handler whose device was not made: memory was wanting. Its medium is as it was.
#[derive(Drop)]
pub struct Unopened<H: Handler + Drop> {
    pub handler: H,
}

/// Keeps how many bytes a command sends or asks for, where it is accepted, in the room that is there.
fn keep_length(lengths: &mut Listed<u32>, command: &Command, answer: &Submit)
    requires { 1 ≤ lengths.old.spare }
    ensures { lengths.new.items ≡ with_length lengths.old.items command.now answer.now }
{
    match answer {
        Submit::Queued(_) | Submit::Delayed(_) => lengths.push(command.payload_length()),
        _ => {}
    }
}

/// A device over a handler, kept as the bytes of a region. `lengths` has how many bytes each accepted command
/// sends or asks for, by serial from 1: nothing of the region keeps that of a command whose answer is placed. Its invariant is that the region, with what both of its sides keep and the jobs in
/// hand, stands for the device with its block lists.
#[derive(Drop)]
pub struct RingPath<H: Handler + Drop> {
    state: State,
    handler: H,
    lengths: Listed<u32>,
}

impl<H: Handler + Drop> Model for RingPath<H> {
    ghost use Rattle.ring_path.specs.Shown.{RingView};

    ghost Value = { RingView };

    ghost view = { λ a. record { device = record { name = H.name a.handler; medium = H.medium a.handler; state = a.state.state }; lists = a.state.lists } };

    ghost use Rattle.ring_path.specs.Dumped.{HasLengths};

    ghost invariant = { λ a. HasLengths a.lengths.items a.state.state };
}

impl<H: Handler + Drop> RingPath<H> {
    /// A device as it opens, over a handler's medium. All its memory is taken before the handler is; where memory is wanting the handler is
    /// given back.
    #[tactic(auto, using(crate::proofs::Lengths::lengths_opened))]
    pub fn new(alloc: Global, settings: Settings, handler: H) -> Result<RingPath<H>, Unopened<H>>
        ensures device { IfOk result (λ p. p.device ≡ opening settings (H.name handler) (H.medium handler)) }
        ensures lists { IfOk result (λ p. p.lists ≡ []) }
        ensures back { IfErr result (λ u. u.handler ≡ handler) }
    {
        match State::new(alloc, settings) {
            Ok(state) => Ok(RingPath {
                state,
                handler,
                lengths: Listed::new(alloc),
            }),
            Err(NoMemory) => Err(Unopened { handler }),
        }
    }

    /// The handler, with the device's medium.
    pub fn into_handler(self) -> H
        ensures name { H.name result ≡ self.device.name }
        ensures medium { H.medium result ≡ self.device.medium }
    {
        let RingPath {
            state: _,
            handler,
            lengths: _,
        } = self;
        handler
    }
}

impl<H: Handler + Drop> Path for RingPath<H> {
    ghost device = { λ p. p.device };

    ghost relation = { H.relation };

    ghost use Rattle.std.specs.Prelude.{Some};

    ghost lists = { λ p. Some p.lists };

    fn submit(&mut self, alloc: Global, command: &Command) -> Result<Submit, NoMemory> {
        self.lengths.reserve(1)?;
        let answer = self.state.submit(alloc, command)?;
        keep_length(&mut self.lengths, command, &answer);
        Ok(answer)
    }

    fn dispatch(&mut self, alloc: Global) -> Result<Dispatch, NoMemory> {
        self.state.dispatch(alloc)
    }

    fn handle(&mut self, alloc: Global, serial: u64) -> Result<Handle, NoMemory> {
        let Some(request) = self.state.request(alloc, serial)? else {
            self.state.stay();
            return Ok(Handle::NotOut(serial));
        };
        let mut room = CopyRoom::new(alloc);
        room.reserve(request.in_len as usize, 0)?;
        let reply = self.handler.handle(alloc, &request)?;
        let answer = reply.copied_into(&mut room);
        self.state.keep(serial, reply);
        Ok(Handle::Done(answer))
    }

    fn respond(&mut self, serial: u64) -> Respond {
        self.state.respond(serial)
    }

    fn publish(&mut self) -> Publish {
        self.state.publish()
    }

    fn clean(&mut self) -> u64 {
        self.state.clean()
    }

    fn tick(&mut self, n: u32) -> u64 {
        self.state.tick(n)
    }

    fn block(&mut self) -> bool {
        self.state.block()
    }

    fn unblock(&mut self) -> bool {
        self.state.unblock()
    }

    fn reset(&mut self, level: u8) -> Reset {
        self.state.reset(level)
    }

    fn restart(&mut self) -> u64 {
        self.state.restart()
    }

    fn tmr(&mut self, alloc: Global, kind: u8, serials: &Serials) -> Result<Tmr, NoMemory> {
        self.state.tmr(alloc, kind, serials)
    }

    fn enter(&mut self, alloc: Global) -> Result<Enter, NoMemory> {
        self.state.enter(alloc)
    }

    fn stat(&self) -> Stat {
        self.state.stat()
    }

    fn log(&self) -> &[Done] {
        self.state.log()
    }

    fn todo(&self) -> Todo {
        self.state.todo()
    }
}

impl<H: Handler + Drop> Shown for RingPath<H> {
    fn dump(&self, alloc: Global) -> Result<Dump, NoMemory> {
        self.state.dump(alloc, self.lengths.as_slice())
    }
}
