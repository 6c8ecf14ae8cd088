//! What the user side finds when it is attached to a region that represents a device.
ghost use Rattle.std.specs.Prelude.{◌≡◌, List, Ok};
ghost use Rattle.tcmu_model.specs.RingState.{head};
ghost use Rattle.tcmu_model.specs.Device.{DeviceState};
ghost use Rattle.tcmu_model.specs.BlockLists.{Taken};
ghost use Rattle.region_model.specs.Layout.{device_mailbox};
ghost use Rattle.region_model.specs.Regions.{RegionState};
ghost use Rattle.tcmu_model.specs.Sound.{IsSound};
ghost use Rattle.region_model.specs.Picture.{tail};
ghost use Rattle.region_model.specs.Sides.{Recorded, UserState};
ghost use Rattle.region_model.specs.Represents.{RingStands};
ghost use Rattle.region_model.specs.UserSteps.{region_abandoned, region_reattached, user_attached, user_mailbox};
ghost use Rattle.ring_laws.specs.Attached.{attached_user};

/// The mailbox reads back as the device's, so no call of the user side finds a bad one. It is attached with the ring, the pages and the
/// flags of the device's settings, and is reattached, the blocks of its parked jobs going back.
pub fn attaching_law()
    ensures mailbox { (r : RegionState) (items : List Recorded) (d : DeviceState) (lists : List Taken) →
        IsSound d → RingStands r.front items d lists → user_mailbox r ≡ Ok (device_mailbox d.settings.flags d.ring.size (head d.ring) (tail d.ring)) }
    ensures attached { (r : RegionState) (items : List Recorded) (d : DeviceState) (lists : List Taken) →
        IsSound d → RingStands r.front items d lists → r.pages ≡ d.settings.pages → user_attached r ≡ Ok (attached_user d) }
    ensures reattached { (r : RegionState) (user : UserState) (items : List Recorded) (d : DeviceState) (lists : List Taken) →
        IsSound d → RingStands r.front items d lists → r.pages ≡ d.settings.pages → region_reattached r user ≡ region_abandoned r user.jobs }
{}
