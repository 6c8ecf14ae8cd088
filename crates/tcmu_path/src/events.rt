//! An event as a value: made on a path, and the one that a drain makes next.
ghost use Rattle.std.specs.Prelude.{◌≡◌, ℕ, ◌^◌, ◌≤◌, ◌<◌, length, drop, IfOk, IfSome, OnOk, OnErr, IsErrOf};
ghost use Rattle.std.specs.Option.{option_map};
ghost use Rattle.tcmu_types.specs.Views.{event_data, answer_data};
ghost use Rattle.tcmu_model.specs.Steps.{Makes, most_accepted};
ghost use Rattle.tcmu_model.specs.Drain.{chosen};
ghost use Rattle.tcmu_path.specs.Calls.{Keeps, Accepts, ListsFollow};
ghost use Rattle.tcmu_path.specs.Tasks.{CanBeMade};

use crate::Path;
use std::alloc::Global;
use tcmu_types::{Answer, Event, NoMemory, Todo};

/// Makes an event on a path, and gives its answer. `NoMemory` leaves the device as it was. A reset has a level, and a note a kind and
/// rising serials, that the path takes (`CanBeMade`).
pub fn make_event<P: Path>(alloc: Global, path: &mut P, event: &Event) -> Result<Answer, NoMemory>
    requires few { (P.device path.old).state.accepted < 2 ^ 63 }
    requires can { CanBeMade (event_data event.now) }
    ensures makes { IfOk result (λ a. Makes P.relation (P.device path.old) (event_data event.now) (answer_data a) (P.device path.new)) }
    ensures lists { IfOk result (λ a. ListsFollow (P.lists path.old) (P.device path.old) (event_data event.now) (answer_data a) (P.device path.new) (P.lists path.new)) }
    ensures unchanged { OnErr result (Keeps (P.device path.old) (P.device path.new) (P.lists path.old) (P.lists path.new)) }
    ensures accepts { Accepts (most_accepted (event_data event.now)) (P.device path.old) (P.device path.new) }
{
    match event {
        Event::Submit(command) => Ok(Answer::Submit(path.submit(alloc, command)?)),
        Event::Dispatch => Ok(Answer::Dispatch(path.dispatch(alloc)?)),
        Event::Handle(serial) => Ok(Answer::Handle(path.handle(alloc, *serial)?)),
        Event::Respond(serial) => Ok(Answer::Respond(path.respond(*serial))),
        Event::Publish => Ok(Answer::Publish(path.publish())),
        Event::Clean => Ok(Answer::Logged(path.clean())),
        Event::Tick(n) => Ok(Answer::Logged(path.tick(*n))),
        Event::Block => Ok(Answer::Changed(path.block())),
        Event::Unblock => Ok(Answer::Changed(path.unblock())),
        Event::Reset(level) => Ok(Answer::Reset(path.reset(*level))),
        Event::Restart => Ok(Answer::Lost(path.restart())),
        Event::Tmr { kind, serials } => Ok(Answer::Tmr(path.tmr(alloc, *kind, serials)?)),
        Event::Stat => Ok(Answer::Stat(path.stat())),
        Event::Enter => Ok(Answer::Enter(path.enter(alloc)?)),
    }
}

/// The event that a drain makes next: the first that applies in its order, and none where the device has nothing to do.
pub fn next_event(todo: &Todo) -> Option<Event>
    ensures value { option_map event_data result ≡ chosen todo.now }
    ensures can { IfSome result (λ e. CanBeMade (event_data e)) }
    ensures accepts { IfSome result (λ e. most_accepted (event_data e) ≡ 0) }
{
    if let Some(serial) = todo.handle {
        return Some(Event::Handle(serial));
    }
    if let Some(serial) = todo.respond {
        return Some(Event::Respond(serial));
    }
    if todo.publish {
        return Some(Event::Publish);
    }
    if todo.clean {
        return Some(Event::Clean);
    }
    if todo.enter {
        return Some(Event::Enter);
    }
    if todo.dispatch {
        return Some(Event::Dispatch);
    }
    None
}
