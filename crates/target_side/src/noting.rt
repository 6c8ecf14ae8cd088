//! Notes on task management.
ghost use Rattle.std.specs.Prelude.{◌≡◌, IfOk, OnErr};
ghost use Rattle.tcmu_types.specs.Numbers.{IsRising};
ghost use Rattle.region_model.specs.TargetSteps.{target_noted, target_tmr_answer, region_noted};
ghost use Rattle.target_side.specs.Kept.{Fits, Kept};

use crate::books::Books;
use shm_region::Region;
use std::alloc::Global;
use tcmu_model::tmr_length;
use tcmu_types::{NoMemory, Serials, Tmr};

impl Books {
    /// Lays a task management entry of a type on these commands, where there is room for it.
    #[tactic(auto, unfolding(region_model::specs::TargetSteps::target_tmr_answer, region_model::specs::TargetSteps::target_noted, region_model::specs::TargetSteps::region_noted))]
    pub(crate) fn tmr(
        &mut self,
        alloc: Global,
        region: &mut Region,
        kind: u8,
        serials: &Serials,
    ) -> Result<Tmr, NoMemory>
        requires kept { Kept self.old }
        requires region { Fits region.old self.old }
        requires rising { IsRising serials.now.items }
        ensures answer { IfOk result (λ a. a ≡ target_tmr_answer self.old serials.now.items) }
        ensures noted { IfOk result (λ a. self.new ≡ target_noted self.old serials.now.items a) }
        ensures written { IfOk result (λ a. region.new ≡ region_noted region.old self.old kind serials.now.items a) }
        ensures target { OnErr result (self.new ≡ self.old) }
        ensures unchanged { OnErr result (region.new ≡ region.old) }
    {
        if !self.flags.tmr {
            return Ok(Tmr::Off);
        }
        if self.blocked {
            return Ok(Tmr::Busy);
        }
        if let Some(serial) = self.entries.unknown(serials) {
            return Ok(Tmr::Unknown(serial));
        }
        let need = self.entries.places.need(tmr_length(serials.len() as u32));
        let free = self.entries.places.free();
        if need > free {
            return Ok(Tmr::FullRing { need, free });
        }
        self.entries.note(alloc, region, kind, serials)?;
        Ok(Tmr::Noted)
    }
}
