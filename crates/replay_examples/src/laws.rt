//! Each law called once, those of every handler at one that may do what the SCSI commands mean.
ghost use Rattle.std.specs.Prelude.{[]};
ghost use Rattle.scsi_model.specs.Medium.{memory_state};
ghost use Rattle.scsi_model.specs.Scsi.{Serves};

use handler_trait::{Handler, Request};
use std::alloc::Global;
use tcmu_types::{NoMemory, Reply};
use text_laws::{
    carried_law, cdbs_again, comments_ignored, completions_ignored, configs_again, devices_again,
    dumps_told, ends_ignored, events_again, flags_again, hex_again, journal_text_law,
    numbers_again, one_text_law, pictures_whole, reading_law, replay_in_memory_law,
    replay_text_law, rising_again, runs_again, scenario_replay_law, serials_again, spelled_law,
    text_in_memory_law,
};

/// A handler that finds memory wanting whatever it is asked.
struct Wanting;

impl Handler for Wanting {
    ghost name = { λ h. [] };

    ghost medium = { λ h. memory_state 1 [] 0 };

    ghost faults = { λ h. 0 };

    ghost relation = { Serves };

    fn handle(&mut self, _alloc: Global, _request: &Request) -> Result<Reply, NoMemory> {
        Err(NoMemory)
    }
}

#[test]
fn pieces_are_read_again() {
    numbers_again();
    hex_again();
    cdbs_again();
    runs_again();
    rising_again();
    serials_again();
    flags_again();
}

#[test]
fn lines_are_read_again() {
    configs_again();
    devices_again();
    events_again();
    comments_ignored();
    completions_ignored();
    ends_ignored();
    dumps_told();
    pictures_whole();
    carried_law();
    spelled_law();
}

#[test]
fn journals_are_read_again() {
    journal_text_law::<Wanting>();
    replay_text_law::<Wanting>();
    scenario_replay_law::<Wanting>();
    reading_law::<Wanting, Wanting>();
    one_text_law();
    replay_in_memory_law();
    text_in_memory_law();
}
