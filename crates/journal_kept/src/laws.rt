//! What a receipt tells, which scripts can be kept, and what a finished journal makes as lines.
ghost use Rattle.std.specs.Prelude.{◌≡◌, List, [], ◌∷◌};
ghost use Rattle.tcmu_types.specs.Events.{EntryData};
ghost use Rattle.tcmu_model.specs.Device.{Device};
ghost use Rattle.text_model.specs.Replay.{lines_of, Plays};
ghost use Rattle.text_model.specs.ScenarioRules.{IsScript};
ghost use Rattle.text_model.specs.Schedule.{IsSchedule};
ghost use Rattle.text_model.specs.Script.{ScriptData};
ghost use Rattle.text_model.specs.Several.{ReplaysEach};
ghost use Rattle.journal_kept.specs.Asked.{PlanData};
ghost use Rattle.journal_kept.specs.Fronts.{CanKeep};
ghost use Rattle.journal_kept.specs.Receipts.{ReceiptsTell};

use tcmu_path::Path;

/// A receipt that tells an answer is of the entry of its number: the event that its ask makes behind the entries before, with just this
/// answer.
pub fn receipt_law<P: Path>()
    ensures { ReceiptsTell P.relation }
{}

/// Each script of a scenario can be kept.
pub fn can_keep_law()
    ensures { (x : ScriptData) → IsScript x → CanKeep x }
{}

/// The events of a finished journal of device 0, as lines and with the drain behind them, make that journal again.
pub fn again_law<P: Path>()
    ensures { (p : PlanData) (es : List EntryData) (d : Device) → p.device ≡ 0 → IsSchedule P.relation p.device p.script p.opening es d → ReplaysEach (Plays P.relation) (p.opening ∷ []) (lines_of es) es (d ∷ []) }
{}
