//! What the jobs in hand tell of the commands: which are out, which are handled, and what a respond begins with.
ghost use Rattle.std.specs.Prelude.{◌≡◌, ℕ, false, true, List, [], Some, map, take};
ghost use Rattle.std.specs.List.{list_any};
ghost use Rattle.std.specs.Option.{is_some};
ghost use Rattle.tcmu_types.specs.Data.{ReplyData};
ghost use Rattle.tcmu_types.specs.Rules.{takes_payload};
ghost use Rattle.tcmu_types.specs.declared.answer.Respond.TheVariants as respond;
ghost use Rattle.tcmu_types.specs.Lists.{Every, first_of};
ghost use Rattle.tcmu_types.specs.Numbers.{IsRising};
ghost use Rattle.tcmu_model.specs.Device.{DeviceState, Unfinished, has_serial};
ghost use Rattle.tcmu_model.specs.Events.{after_respond, command_out, is_handled, respond_answer};
ghost use Rattle.tcmu_model.specs.BlockLists.{Taken};
ghost use Rattle.tcmu_model.specs.Sound.{IsSound};
ghost use Rattle.region_model.specs.Sides.{InHand, JobState, PendingRow, UserState};
ghost use Rattle.region_model.specs.Represents.{IdsStand, IsJobOf, JobsStand, UserKeeps};
ghost use Rattle.region_model.specs.Iovecs.{gathered};
ghost use Rattle.region_model.specs.UserNext.{data_length};
ghost use Rattle.tcmu_model.specs.Owned.{ListsSound};
ghost use Rattle.ring_laws.specs.Handed.{is_answered, is_asked};
ghost use Rattle.ring_laws.specs.Responded.{CanRespond};

/// A job is in hand without its reply just where its command is out, and with it just where the command is handled. Such a job is the
/// command's: the bytes that its iovecs name are the payload that was sent, and no more; a command that takes no payload has sent none. With
/// the points of the region a respond can begin with the job. Where no command of the serial is handled, a respond is refused and changes
/// nothing. The jobs stand in rising serial.
pub fn hand_law()
    ensures asked { (user : UserState) (hand : List InHand) (rows : List PendingRow) (d : DeviceState) (lists : List Taken) (s : ℕ) →
        IsSound d → JobsStand user hand rows d lists → list_any (is_asked s) hand ≡ is_some (command_out d s) }
    ensures answered { (user : UserState) (hand : List InHand) (rows : List PendingRow) (d : DeviceState) (lists : List Taken) (s : ℕ) →
        IsSound d → JobsStand user hand rows d lists → list_any (is_answered s) hand ≡ is_handled d s }
    ensures job { (user : UserState) (hand : List InHand) (rows : List PendingRow) (d : DeviceState) (lists : List Taken) (s : ℕ) (h : InHand) →
        IsSound d → JobsStand user hand rows d lists → first_of (is_asked s) hand ≡ Some h →
        (u : Unfinished) × (command_out d s ≡ Some u) × (parts : List (List ℕ)) × IsJobOf d.settings rows lists u h.job parts }
    ensures request { (rows : List PendingRow) (d : DeviceState) (lists : List Taken) (u : Unfinished) (job : JobState) (parts : List (List ℕ)) →
        IsSound d → ListsSound d lists → first_of (has_serial u.serial) d.unfinished ≡ Some u → takes_payload u.command.cdb ≡ true →
        IsJobOf d.settings rows lists u job parts → take (data_length job.iovs) (gathered parts) ≡ u.command.sent }
    ensures none { (d : DeviceState) → IsSound d → Every (λ u. takes_payload u.command.cdb ≡ false → u.command.sent ≡ []) d.unfinished }
    ensures begins { (front : List ℕ) (user : UserState) (hand : List InHand) (rows : List PendingRow) (d : DeviceState) (lists : List Taken) (s : ℕ) (h : InHand) (reply : ReplyData) →
        IsSound d → ListsSound d lists → IdsStand front rows d → JobsStand user hand rows d lists → UserKeeps user d → first_of (is_answered s) hand ≡ Some h → h.reply ≡ Some reply →
        (u : Unfinished) × (parts : List (List ℕ)) × CanRespond user rows d lists s u (record { job = h.job; reply = reply }) parts }
    ensures rising { (user : UserState) (hand : List InHand) (rows : List PendingRow) (d : DeviceState) (lists : List Taken) →
        IsSound d → JobsStand user hand rows d lists → IsRising (map (λ h. h.serial) hand) }
    ensures refused { (d : DeviceState) (s : ℕ) → is_handled d s ≡ false → (respond_answer d s ≡ respond.NotHandled s) × (after_respond d s ≡ d) }
{}
