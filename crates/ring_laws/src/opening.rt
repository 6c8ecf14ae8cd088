//! What holds of a region as it opens.
ghost use Rattle.std.specs.Prelude.{◌≡◌, [], Ok};
ghost use Rattle.tcmu_types.specs.Data.{SettingsData};
ghost use Rattle.tcmu_types.specs.Rules.{IsSettings};
ghost use Rattle.tcmu_model.specs.Device.{opening_state};
ghost use Rattle.region_model.specs.Regions.{opening_region};
ghost use Rattle.region_model.specs.TargetSteps.{opening_target};
ghost use Rattle.region_model.specs.UserSteps.{opening_user, user_attached};
ghost use Rattle.tcmu_model.specs.Owned.{ListsSound};
ghost use Rattle.region_model.specs.Represents.{Represents};

/// A region as it opens represents the device as it opens, with no block list, and an attach to it gives the user side as it opens.
pub fn opening_law()
    ensures represents { (s : SettingsData) → IsSettings s → Represents (opening_region s) (opening_target s) (opening_user s) [] (opening_state s) [] }
    ensures lists { (s : SettingsData) → ListsSound (opening_state s) [] }
    ensures attached { (s : SettingsData) → IsSettings s → user_attached (opening_region s) ≡ Ok (opening_user s) }
{}
