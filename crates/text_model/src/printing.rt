//! Laws of what is printed: its entries are a journal, and without dumps it is a journal alone.
ghost use Rattle.std.specs.Prelude.{◌≡◌, ℕ, false, List, ◌∷◌, ◌++◌, map, slice_get, Some};
ghost use Rattle.std.specs.List.{All, filter};
ghost use Rattle.tcmu_types.specs.Dumps.{DumpData};
ghost use Rattle.tcmu_model.specs.Device.{Device};
ghost use Rattle.text_model.specs.Journals.{Journaled, is_of, entries_of, IsLegalEach};
ghost use Rattle.text_model.specs.Printed.{Printed, AnEntry, ADump, entries_in, Picture, ShowsRun, IsLegalPrint};
ghost use Rattle.text_model.specs.Replay.{Plays, Prints};
ghost use Rattle.text_model.specs.Scenario.{is_dump};
ghost use Rattle.text_model.specs.ScenarioData.{LineData};
ghost use Rattle.text_model.specs.Several.{ReplaysEach};

use tcmu_model::Answering;

/// The entries that are printed are a legal journal, made of just the events that the lines ask for; and each dump is the picture of its
/// device with the block lists of the run up to it.
pub fn printed_law<H: Answering>()
    ensures legal { (picture : Picture) (opened ends : List Device) (ps : List Printed) → IsLegalPrint H.relation picture opened ps ends → IsLegalEach H.relation opened (entries_in ps) ends }
    ensures asked { (ds ends : List Device) (ls : List LineData) (ps : List Printed) → ReplaysEach (Prints H.relation) ds ls ps ends → ReplaysEach (Plays H.relation) ds ls (entries_of (entries_in ps)) ends }
    ensures dumps { (picture : Picture) (opened ends : List Device) (ps qs : List Printed) (at : ℕ) (dump : DumpData) (d d' : Device) → IsLegalPrint H.relation picture opened (ps ++ ADump at dump ∷ qs) ends → slice_get opened at ≡ Some d → slice_get ends at ≡ Some d' → ShowsRun H.relation picture d (entries_of (filter (is_of at) (entries_in ps))) dump }
{}

/// Where no line is a dump, what is printed is a journal alone; and each legal journal of the events that the lines ask for is printed so.
pub fn undumped_law<H: Answering>()
    ensures alone { (ds ends : List Device) (ls : List LineData) (ps : List Printed) → All (λ l. is_dump l ≡ false) ls → ReplaysEach (Prints H.relation) ds ls ps ends → ps ≡ map AnEntry (entries_in ps) }
    ensures legal { (picture : Picture) (opened ends : List Device) (js : List Journaled) → IsLegalEach H.relation opened js ends → IsLegalPrint H.relation picture opened (map AnEntry js) ends }
    ensures asked { (ds ends : List Device) (ls : List LineData) (js : List Journaled) → All (λ l. is_dump l ≡ false) ls → ReplaysEach (Plays H.relation) ds ls (entries_of js) ends → ReplaysEach (Prints H.relation) ds ls (map AnEntry js) ends }
{}
