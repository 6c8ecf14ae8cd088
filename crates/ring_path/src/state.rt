//! All of a device over a region but its handler.
ghost use Rattle.std.specs.Prelude.{◌≡◌, IfOk};
ghost use Rattle.ring_path.specs.Devices.{opening_device};

mod dumping;
mod ending;
mod giving;
mod laying;
mod requesting;
mod serving;
mod showing_items;
mod shown;

use crate::hand::Hand;
use crate::told::Told;
use shm_region::Region;
use std::alloc::Global;
use std::marker::Model;
use target_side::Target;
use tcmu_types::{NoMemory, Settings};
use user_lib::User;

/// A region, both of its sides, and the jobs in hand. `longest` is no less than the serials of any note in the ring.
#[derive(Drop)]
pub(crate) struct State {
    region: Region,
    target: Target,
    user: User,
    hand: Hand,
    attached: bool,
    longest: u64,
    told: Told,
}

impl Model for State {
    ghost use Rattle.ring_path.specs.Devices.{RingDevice};
    ghost use Rattle.ring_path.specs.Rings.{IsRing};

    ghost Value = { RingDevice };

    ghost view = { λ a. a.told };

    ghost invariant = { λ a. IsRing a.region a.target a.user a.hand.items a.attached a.longest a.told };
}

impl State {
    /// The device as it opens.
    pub(crate) fn new(alloc: Global, settings: Settings) -> Result<State, NoMemory>
        ensures { IfOk result (λ s. s ≡ opening_device settings) }
    {
        let region = Region::new(alloc, settings)?;
        let target = Target::new(alloc, settings)?;
        let Ok(user) = User::attach(alloc, &region) else {
            unreachable!()
        };
        Ok(State {
            region,
            target,
            user,
            hand: Hand::new(alloc),
            attached: true,
            longest: 0,
            told: Told::opened(&settings),
        })
    }
}
