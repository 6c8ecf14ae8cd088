//! What both sides, the region and the jobs in hand show of the device: its numbers, what is to be done, and its picture.
ghost use Rattle.std.specs.Prelude.{◌≡◌, ℕ, false, length, take, List, Option};
ghost use Rattle.tcmu_types.specs.Lists.{Every};
ghost use Rattle.tcmu_types.specs.Rules.{payload_length};
ghost use Rattle.tcmu_model.specs.Device.{DeviceState};
ghost use Rattle.tcmu_model.specs.BlockLists.{Taken, list_of};
ghost use Rattle.tcmu_model.specs.Drain.{todo_of};
ghost use Rattle.tcmu_model.specs.Events.{is_in_hand, stat_answer};
ghost use Rattle.tcmu_model.specs.Lengths.{block_size};
ghost use Rattle.tcmu_model.specs.Owned.{ListsSound};
ghost use Rattle.tcmu_model.specs.Sound.{IsSound};
ghost use Rattle.region_model.specs.Areas.{bytes_along};
ghost use Rattle.region_model.specs.Layout.{ring_start};
ghost use Rattle.region_model.specs.Picture.{payload_of, picture_of};
ghost use Rattle.region_model.specs.Represents.{BlocksStand, JobsStand, RingStands, TargetKeeps, UserKeeps};
ghost use Rattle.region_model.specs.Sides.{InHand, Recorded, TargetState, UserState};
ghost use Rattle.ring_laws.specs.PictureRead.{items_read};
ghost use Rattle.ring_laws.specs.SidesShow.{stat_on, todo_on};

/// The numbers of a stat are those that its two sides and the jobs in hand show.
pub fn stat_law()
    ensures { (front : List ℕ) (t : TargetState) (user : UserState) (hand : List InHand) (d : DeviceState) (lists : List Taken) →
        IsSound d → ListsSound d lists → RingStands front t.items d lists → JobsStand user hand t.rows d lists → TargetKeeps t d lists → UserKeeps user d →
        stat_on d.attached t user hand ≡ stat_answer d }
{}

/// What is to be done on the device is what its two sides and the jobs in hand show, by places and replies alone.
pub fn todo_law()
    ensures { (front : List ℕ) (t : TargetState) (user : UserState) (hand : List InHand) (d : DeviceState) (lists : List Taken) →
        IsSound d → ListsSound d lists → RingStands front t.items d lists → JobsStand user hand t.rows d lists → TargetKeeps t d lists → UserKeeps user d →
        todo_on d.attached t user hand ≡ todo_of d }
{}

/// The device's picture is read of the region: its mailbox; its items along the target's record, each with its ids as zero; and the payload
/// of a command that is not in hand, as long as the command says, along the command's blocks. That of one in hand is in its job's blocks.
pub fn picture_law()
    ensures mailbox { (front : List ℕ) (items : List Recorded) (d : DeviceState) (lists : List Taken) → RingStands front items d lists → take ring_start front ≡ (picture_of d lists).mailbox }
    ensures items { (front : List ℕ) (t : TargetState) (d : DeviceState) (lists : List Taken) → IsSound d → RingStands front t.items d lists → TargetKeeps t d lists →
        items_read front t.settings.ring t.cleaned t.items ≡ (picture_of d lists).items }
    ensures lengths { (d : DeviceState) → IsSound d → Every (λ u. length (payload_of u) ≡ payload_length u.command) d.unfinished }
    ensures payloads { (area : List (Option (List ℕ))) (d : DeviceState) (lists : List Taken) → IsSound d → BlocksStand area d lists →
        Every (λ u. is_in_hand u ≡ false → take (payload_length u.command) (bytes_along (block_size d.settings.pages) area (list_of lists u.serial)) ≡ payload_of u) d.unfinished }
{}
