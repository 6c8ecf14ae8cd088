//! Handlers in the manner of tcmu-runner: each serves the commands of one device over one medium.
ghost use Rattle.std.specs.Prelude.{◌≡◌, ℕ, ◌≤◌, List, length, IfOk, OnErr};
ghost use Rattle.tcmu_types.specs.Data.{ReplyData};
ghost use Rattle.tcmu_model.specs.MediumState.{MediumState};
ghost use Rattle.tcmu_model.specs.Steps.{Asked};

use std::alloc::Global;
use std::marker::Model;
use tcmu_types::{Bytes, Cdb, NoMemory, Reply};

/// What a handler is asked: a command descriptor block, the bytes sent with it, and how many bytes it may answer.
#[derive(Debug, Drop)]
pub struct Request {
    pub cdb: Cdb,
    pub sent: Bytes,
    pub in_len: u32,
}

impl Model for Request {
    ghost use Rattle.tcmu_model.specs.Steps.{Asked};

    ghost Value = { Asked };

    ghost view = { λ a. record { cdb = a.cdb; sent = a.sent.items; in_len = a.in_len } };
}

/// A handler serves the commands of one device over one medium.
pub trait Handler {
    /// The device's name.
    ghost name: { Self → List ℕ };

    /// The medium that it serves from, as its calls left it.
    ghost medium: { Self → MediumState };

    /// How many calls of what is below have failed.
    ghost faults: { Self → ℕ };

    /// What it may answer, and what it may leave: from its name, the medium before and what it is asked, to its reply and the
    /// medium after. It belongs to the type.
    ghost relation: { List ℕ → MediumState → Asked → ReplyData → MediumState → Type 0 };

    /// Serves one command. The reply has at most `in_len` bytes. No call changes the name, the count of faults never falls, and after
    /// want of memory nothing changed.
    fn handle(&mut self, alloc: Global, request: &Request) -> Result<Reply, NoMemory>
        ensures same_name { name self.new ≡ name self.old }
        ensures faults { faults self.old ≤ faults self.new }
        ensures allowed { IfOk result (λ reply. relation (name self.old) (medium self.old) request.now reply (medium self.new)) }
        ensures fits { IfOk result (λ reply. length reply.payload ≤ request.now.in_len) }
        ensures same_medium { OnErr result (medium self.new ≡ medium self.old) }
        ensures same_faults { OnErr result (faults self.new ≡ faults self.old) };
}
