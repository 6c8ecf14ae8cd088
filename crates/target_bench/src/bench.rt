//! A region with its target, and a user side that answers GOOD.
ghost use Rattle.std.specs.Prelude.{◌≤◌};

use shm_region::Region;
use std::alloc::Global;
use std::marker::Model;
use target_side::Target;
use tcmu_types::{Bytes, Cdb, Command, Flags, Name, NoMemory, Settings, Submit};

/// READ(10) and WRITE(10) of eight logical blocks, which are a data block.
const READ: [u8; 10] = [0x28, 0, 0, 0, 0, 0, 0, 0, 8, 0];

const WRITE: [u8; 10] = [0x2a, 0, 0, 0, 0, 0, 0, 0, 8, 0];

/// Where the mailbox has its tail, and how far behind an entry's ring offset its response has its flags and its status.
const TAIL: u64 = 64;

const FLAGS: u64 = 128 + 7;

/// A read of a data block.
pub(crate) fn read(alloc: Global) -> Option<Command> {
    let cdb = Cdb::new(&READ).ok()?;
    Command::new(Name::new("a")?, 1, cdb, Bytes::new(alloc), 4096)
}

/// A write of a data block.
pub(crate) fn write(alloc: Global) -> Option<Command> {
    let cdb = Cdb::new(&WRITE).ok()?;
    let mut sent = Bytes::new(alloc);
    sent.reserve(4096).ok()?;
    sent.fill(0x5a, 4096);
    Command::new(Name::new("a")?, 1, cdb, sent, 0)
}

/// A region with its target.
#[derive(Drop)]
pub(crate) struct Bench {
    alloc: Global,
    region: Region,
    target: Target,
}

impl Model for Bench {
    ghost use Rattle.region_model.specs.Regions.{RegionState};
    ghost use Rattle.region_model.specs.Sides.{TargetState};
    ghost use Rattle.target_side.specs.Kept.{Fits};

    ghost Value = { RegionState × TargetState };

    ghost view = { λ a. (a.region, a.target) };

    ghost invariant = { λ a. Fits a.region a.target };
}

impl Bench {
    /// A ring of 65,536 bytes, and sixteen data blocks of a page.
    pub(crate) fn new(alloc: Global) -> Result<Bench, NoMemory> {
        let settings = Settings {
            ring: 65536,
            blocks: 16,
            flags: Flags {
                ooo: true,
                read_len: true,
                tmr: true,
            },
            timeout: 0,
            qfull: 0,
            pages: 1,
        };
        Ok(Bench {
            alloc,
            region: Region::new(alloc, settings)?,
            target: Target::new(alloc, settings)?,
        })
    }

    /// Writes bytes before the data area, where they lie in it.
    fn put(&mut self, at: u64, bytes: &[u8])
        requires { at ≤ 4294967430 }
    {
        if at + bytes.len() as u64 <= self.region.data_off() {
            self.region.write_front(at, bytes);
        }
    }

    /// Answers the last command that was laid, and all before it, with GOOD and all its bytes.
    fn answer(&mut self) {
        let entry = match self.target.item(1) {
            Some(item) => Some(item),
            None => self.target.item(0),
        };
        if let Some(item) = entry {
            self.put(FLAGS + item.at as u64, &[0, 0]);
        }
        let head = self.target.numbers().head;
        self.put(TAIL, &head.to_le_bytes());
    }

    /// Whether a command is laid, answered, and completed.
    pub(crate) fn complete(&mut self, command: &Command) -> bool {
        if self.target.numbers().accepted > u32::MAX as u64 {
            return false;
        }
        let submitted = self.target.submit(self.alloc, &mut self.region, command);
        if !matches!(submitted, Ok(Submit::Queued(_))) {
            return false;
        }
        self.answer();
        let cleaned = self.target.clean(&mut self.region);
        matches!(cleaned, Ok(1))
    }
}
