//! How many commands are open.
ghost use Rattle.std.specs.Prelude.{◌≡◌, ◌+◌, ◌-◌, ◌^◌, ◌≤◌, ◌<◌};
ghost use Rattle.tcmu_model.specs.Sound.{IsSound, open_count};

use crate::Path;
use tcmu_types::Stat;

/// The commands in the ring.
fn in_ring(stat: &Stat) -> u64
    ensures value { result ≡ stat.entry.now.waiting + stat.entry.now.out + stat.entry.now.handled + stat.entry.now.parked + stat.entry.now.placed + stat.entry.now.lost }
    ensures small { result < 2 ^ 40 }
{
    let early = u64::from(stat.waiting) + u64::from(stat.out) + u64::from(stat.handled);
    early + u64::from(stat.parked) + u64::from(stat.placed) + u64::from(stat.lost)
}

/// How many accepted commands have no completion: those in the ring that are not expired, and those that wait for room.
pub fn open_count<P: Path>(path: &P) -> u64
    requires sound { IsSound (P.device path.now).state }
    requires few { (P.device path.now).state.accepted < 2 ^ 63 }
    ensures { result ≡ open_count (P.device path.now).state }
{
    let stat = path.stat();
    in_ring(&stat) - u64::from(stat.expired) + stat.delayed
}
