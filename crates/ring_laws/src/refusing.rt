//! Answers of submit and enter after which nothing has changed.
ghost use Rattle.std.specs.Prelude.{◌≡◌, ℕ, true};
ghost use Rattle.tcmu_types.specs.Data.{CommandData};
ghost use Rattle.tcmu_types.specs.declared.answer.Enter.{Enter};
ghost use Rattle.tcmu_types.specs.declared.answer.Submit.{Submit};
ghost use Rattle.tcmu_model.specs.Device.{DeviceState};
ghost use Rattle.tcmu_model.specs.Events.{after_enter, after_submit};
ghost use Rattle.region_model.specs.Regions.{RegionState};
ghost use Rattle.region_model.specs.Sides.{TargetState};
ghost use Rattle.region_model.specs.TargetSteps.{region_entered, region_submitted, target_entered, target_submitted};
ghost use Rattle.ring_laws.specs.Refused.{enters_none, is_refusal};

/// A submit that is refused, and an enter at which no command enters, leave device, target and region as they are.
pub fn refused_law()
    ensures submit { (r : RegionState) (t : TargetState) (d : DeviceState) (c : CommandData) (id : ℕ) (a : Submit) →
        is_refusal a ≡ true → (after_submit d c a ≡ d) × (target_submitted t c id a ≡ t) × (region_submitted r t c id a ≡ r) }
    ensures enter { (r : RegionState) (t : TargetState) (d : DeviceState) (id : ℕ) (a : Enter) →
        enters_none a ≡ true → (after_enter d a ≡ d) × (target_entered t id a ≡ t) × (region_entered r t id a ≡ r) }
{}
