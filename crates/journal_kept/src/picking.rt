//! What there is to do, as an event and as an ask.
ghost use Rattle.std.specs.Prelude.{◌≡◌};
ghost use Rattle.std.specs.Option.{option_map};
ghost use Rattle.tcmu_types.specs.Views.{event_data};
ghost use Rattle.tcmu_model.specs.Drain.{chosen};
ghost use Rattle.journal_kept.specs.Asked.{work_in, drain_ask};

use crate::asking::Ask;
use tcmu_path::next_event;
use tcmu_types::{Event, Todo};

/// The first of publish, clean, enter and dispatch that there is to do.
pub fn work_event(todo: &Todo) -> Option<Event>
    ensures { option_map event_data result ≡ chosen (work_in todo.now) }
{
    let work = Todo {
        handle: None,
        respond: None,
        publish: todo.publish,
        clean: todo.clean,
        enter: todo.enter,
        dispatch: todo.dispatch,
    };
    next_event(&work)
}

/// The ask that makes the first event of the drain.
pub fn drain_ask(todo: &Todo) -> Ask
    ensures { result ≡ drain_ask todo.now }
{
    if let Some(serial) = todo.handle {
        return Ask::Handle(serial);
    }
    if let Some(serial) = todo.respond {
        return Ask::Respond(serial);
    }
    Ask::Work
}
