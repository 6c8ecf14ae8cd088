//! A command that is to be laid, with the memory that it needs.
ghost use Rattle.std.specs.Prelude.{◌≡◌, ◌≤◌, [], length, IfOk};
ghost use Rattle.tcmu_types.specs.Overwriting.{zeros};
ghost use Rattle.target_side.specs.Entering.{IsEntrant};

use std::alloc::Global;
use tcmu_types::{BlockList, Bytes, Command, Name, NoMemory};

/// A command that is to be laid: what the target keeps of it, how many data blocks it is to hold, and the lists for their numbers and for
/// the bytes of its completion.
#[derive(Drop)]
pub(crate) struct Entrant {
    pub(crate) serial: u64,
    pub(crate) init: Name,
    pub(crate) tag: u32,
    pub(crate) in_len: u32,
    pub(crate) deadline: Option<u64>,
    pub(crate) count: u32,
    pub(crate) blocks: BlockList,
    pub(crate) buffer: Bytes,
}

/// So many zero bytes.
fn zero_bytes(alloc: Global, count: u32) -> Result<Bytes, NoMemory>
    ensures { IfOk result (λ b. b.items ≡ zeros count) }
{
    let mut bytes = Bytes::new(alloc);
    bytes.reserve(count as u64)?;
    bytes.fill(0, count as usize);
    Ok(bytes)
}

/// A list with room for so many numbers of blocks.
fn room_for_blocks(alloc: Global, count: u32) -> Result<BlockList, NoMemory>
    ensures { IfOk result (λ b. (b.items ≡ []) × (count ≤ b.spare)) }
{
    let mut blocks = BlockList::new(alloc);
    blocks.reserve(count as u64)?;
    Ok(blocks)
}

impl Entrant {
    /// A command that is to be laid under a serial, due from a deadline on, with so many data blocks.
    pub(crate) fn new(
        alloc: Global,
        command: &Command,
        serial: u64,
        deadline: Option<u64>,
        count: u32,
    ) -> Result<Entrant, NoMemory>
        ensures { IfOk result (λ e. IsEntrant e serial command.now deadline count) }
    {
        let blocks = room_for_blocks(alloc, count)?;
        let buffer = zero_bytes(alloc, command.in_len())?;
        Ok(Entrant {
            serial,
            init: command.init().copy(),
            tag: command.tag(),
            in_len: command.in_len(),
            deadline,
            count,
            blocks,
            buffer,
        })
    }
}
