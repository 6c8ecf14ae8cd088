//! A device that shows itself.
ghost use Rattle.std.specs.Prelude.{IfOk};
ghost use Rattle.ring_path.specs.Shown.{Pictures};

use std::alloc::Global;
use tcmu_path::Path;
use tcmu_types::{Dump, NoMemory};

/// A device that tells its block lists, and shows them with its region.
pub trait Shown: Path {
    /// The device's picture. It takes memory, and changes nothing.
    fn dump(&self, alloc: Global) -> Result<Dump, NoMemory>
        ensures { IfOk result (λ dump. Pictures (Self.device self.now) (Self.lists self.now) dump) };
}
