//! The sizes of blocks, at each step that changes the area.
ghost use Rattle.std.specs.Prelude.{◌≡◌, ℕ, List};
ghost use Rattle.tcmu_types.specs.Data.{SettingsData};
ghost use Rattle.tcmu_model.specs.Device.{DeviceState, Unfinished};
ghost use Rattle.tcmu_model.specs.BlockLists.{Taken};
ghost use Rattle.region_model.specs.Regions.{RegionState, opening_region};
ghost use Rattle.region_model.specs.Sides.{InHand, JobState, Parked, PendingRow, TargetState, UserState};
ghost use Rattle.region_model.specs.Represents.{IsJobOf, JobsStand};
ghost use Rattle.region_model.specs.TargetCleans.{region_cleaned, region_reset};
ghost use Rattle.region_model.specs.UserNext.{nexted};
ghost use Rattle.region_model.specs.UserSteps.{region_abandoned, region_published, user_responded, with_job_back};
ghost use Rattle.ring_laws.specs.Sizes.{IsSized};

/// Each block at home keeps the size of a block, whatever the bytes are. For a respond, and for jobs that go back, the jobs have to stand:
/// what comes home are the blocks that were lent. The laws of laying, submit, enter, note and restart say the same of their steps.
pub fn sizes_law()
    ensures opening { (s : SettingsData) → IsSized (opening_region s) }
    ensures next { (r : RegionState) (user : UserState) → IsSized r → IsSized (nexted r user).region }
    ensures respond { (r : RegionState) (user : UserState) (hand : List InHand) (rows : List PendingRow) (d : DeviceState) (lists : List Taken) (u : Unfinished) (p : Parked) (parts : List (List ℕ)) →
        r.pages ≡ d.settings.pages → JobsStand user hand rows d lists → IsJobOf d.settings rows lists u p.job parts → IsSized r →
        IsSized (user_responded r user p).region }
    ensures back { (r : RegionState) (rows : List PendingRow) (d : DeviceState) (lists : List Taken) (u : Unfinished) (job : JobState) (parts : List (List ℕ)) →
        r.pages ≡ d.settings.pages → IsJobOf d.settings rows lists u job parts → IsSized r → IsSized (with_job_back r job) }
    ensures abandon { (r : RegionState) (user : UserState) (hand : List InHand) (rows : List PendingRow) (d : DeviceState) (lists : List Taken) →
        r.pages ≡ d.settings.pages → JobsStand user hand rows d lists → IsSized r → IsSized (region_abandoned r user.jobs) }
    ensures publish { (r : RegionState) (user : UserState) → IsSized r → IsSized (region_published r user) }
    ensures clean { (r : RegionState) (t : TargetState) → IsSized r → IsSized (region_cleaned r t) }
    ensures reset { (r : RegionState) → IsSized (region_reset r) }
{}
