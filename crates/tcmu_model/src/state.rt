//! The states of an unfinished command.
ghost use Rattle.std.specs.Prelude.{◌≡◌};
ghost use Rattle.tcmu_model.specs.States.{same_state};

/// The state of a command that is laid in the ring and not finished.
#[derive(Clone, Copy, Debug)]
pub enum CommandState {
    /// Its item is not dispatched.
    Waiting,
    /// It is out at its handler: dispatched, and not answered.
    Out,
    /// Its handler answered.
    Handled,
    /// Its answer waits for those of earlier commands.
    Parked,
    /// Its answer stands in the ring.
    Placed,
    /// The user side that had it is gone.
    Lost,
}

impl CommandState {
    /// Whether the two states are one.
    pub fn is(self, other: CommandState) -> bool
        ensures { result ≡ same_state self other }
    {
        match (self, other) {
            (CommandState::Waiting, CommandState::Waiting) => true,
            (CommandState::Out, CommandState::Out) => true,
            (CommandState::Handled, CommandState::Handled) => true,
            (CommandState::Parked, CommandState::Parked) => true,
            (CommandState::Placed, CommandState::Placed) => true,
            (CommandState::Lost, CommandState::Lost) => true,
            _ => false,
        }
    }
}
