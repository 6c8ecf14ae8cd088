//! The jobs that were given, in their order, as contracts alone see them.
ghost use Rattle.std.specs.Prelude.{◌≡◌, [], ◌∷◌, ◌++◌, drop, None};
ghost use Rattle.tcmu_types.specs.Lists.{without_first, with_first};
ghost use Rattle.user_lib.specs.Given.{is_open, with_key};
ghost use Rattle.user_lib.specs.Changes.{given_behind};

use std::marker::Model;
use std::snapshot::Snapshot;

/// A job that was given: its id, and where it is kept once it has its reply.
#[derive(Clone, Copy, Debug)]
pub(crate) struct Given {
    pub(crate) id: u16,
    pub(crate) key: Option<usize>,
}

/// The last change of the jobs, and what stood before it. Nothing of it is kept at run time but its kind.
#[derive(Drop)]
enum Change {
    Empty,
    Pushed {
        id: Snapshot<u16>,
        before: Snapshot<Change>,
    },
    Removed {
        id: Snapshot<u16>,
        before: Snapshot<Change>,
    },
    Parked {
        id: Snapshot<u16>,
        key: Snapshot<usize>,
        before: Snapshot<Change>,
    },
    Popped {
        before: Snapshot<Change>,
    },
}

/// The jobs that are neither placed nor given up, in the order in which they were given. Contracts alone see them.
#[derive(Drop)]
pub(crate) struct Past {
    last: Change,
}

impl Model for Past {
    ghost use Rattle.std.specs.Prelude.{List};
    ghost use Rattle.user_lib.specs.declared.past.Given.{Given};
    ghost use Rattle.user_lib.specs.Changes.{given_behind};

    ghost Value = { List Given };

    ghost view = { λ p. given_behind p.last };
}

impl Past {
    /// No job.
    pub(crate) fn new() -> Past
        ensures { result ≡ [] }
    {
        Past {
            last: Change::Empty,
        }
    }

    /// A job was given.
    pub(crate) fn pushed(&mut self, id: u16)
        ensures { self.new ≡ self.old ++ record { id = id; key = None } ∷ [] }
    {
        self.last = Change::Pushed {
            id: Snapshot::of(&id),
            before: Snapshot::of(&self.last),
        };
    }

    /// The first open job of an id is out.
    pub(crate) fn removed(&mut self, id: u16)
        ensures { self.new ≡ without_first (is_open id) self.old }
    {
        self.last = Change::Removed {
            id: Snapshot::of(&id),
            before: Snapshot::of(&self.last),
        };
    }

    /// The first open job of an id has its reply, under a key.
    pub(crate) fn parked(&mut self, id: u16, key: usize)
        ensures { self.new ≡ with_first (is_open id) (with_key key) self.old }
    {
        self.last = Change::Parked {
            id: Snapshot::of(&id),
            key: Snapshot::of(&key),
            before: Snapshot::of(&self.last),
        };
    }

    /// The first job is out.
    pub(crate) fn popped(&mut self)
        ensures { self.new ≡ drop 1 self.old }
    {
        self.last = Change::Popped {
            before: Snapshot::of(&self.last),
        };
    }

    /// All jobs are out.
    pub(crate) fn cleared(&mut self)
        ensures { self.new ≡ [] }
    {
        self.last = Change::Empty;
    }
}
