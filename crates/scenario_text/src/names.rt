//! Names in the order in which they first came, found by their hashes.
ghost use Rattle.std.specs.Prelude.{◌≡◌, ◌<◌, [], length, IfSome, OnOk};
ghost use Rattle.text_model.specs.Scenario.{with_name};
ghost use Rattle.scenario_text.specs.Counts.{place_in};

use indexmap::IndexSet;
use std::alloc::Global;
use std::marker::Model;
use tcmu_types::{Name, NoMemory};

/// Names, each once.
#[derive(Drop)]
pub struct Names {
    names: IndexSet<Name>,
}

impl Model for Names {
    ghost use Rattle.std.specs.Prelude.{ℕ, List};

    ghost Value = { List (List ℕ) };

    ghost view = { λ a. a.names.keys };
}

impl Names {
    /// No name yet.
    pub fn new(alloc: Global) -> Names
        ensures { result ≡ [] }
    {
        Names {
            names: IndexSet::new(alloc),
        }
    }

    /// The names, in the order in which they first came.
    pub fn as_slice(&self) -> &[Name]
        ensures { result.now ≡ self.now }
    {
        self.names.as_slice()
    }

    /// The place of a name, from 0.
    pub fn place_of(&self, text: &[u8]) -> Option<usize>
        ensures value { result ≡ place_in self.now text.now }
        ensures within { IfSome result (λ at. at < length self.now) }
    {
        let name = Name::from_bytes(text)?;
        self.names.get_index_of(&name)
    }

    /// Notes a name behind the others, where it is not there.
    pub fn note(&mut self, name: &Name) -> Result<(), NoMemory>
        ensures { OnOk result (self.new ≡ with_name self.old name.now) }
    {
        self.names.insert(name.copy())?;
        Ok(())
    }
}
