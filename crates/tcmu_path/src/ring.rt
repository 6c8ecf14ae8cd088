//! The command ring of a plain device: what was laid in it since the last reset, and how far that is dispatched, published and
//! cleared. Heads, sums and counts are kept as numbers, so that no call walks over what is cleared.
ghost use Rattle.std.specs.Prelude.{◌≡◌, ℕ, ◌+◌, ◌-◌, ◌<◌, ◌≤◌, ◌^◌, nat_lt, [], ◌∷◌, ◌++◌, length, vec_len, take, drop, slice_get, OnOk, OnErr, MatchOption, Some, None};
ghost use Rattle.std.specs.List.{sum_by, prefix_len};
ghost use Rattle.std.specs.Option.{option_to_list};
ghost use Rattle.std.specs.Vec.{vec_capacity};
ghost use Rattle.tcmu_model.specs.RingState.{Item, empty_ring, pad, need, free, fits, with_item, next_place, front_with, commands_in, cleared_commands, published_commands, head, used, pads, lengths, is_pad, is_command, serial_in};
ghost use Rattle.tcmu_model.specs.Events.{passed};

use std::alloc::Global;
use std::marker::Model;
use std::snapshot::Snapshot;
use tcmu_types::{Command, NoMemory, Serials};

/// What an item of the ring is. The command itself stands in its row: here clauses alone see it.
#[derive(Drop)]
pub enum Content {
    Pad,
    /// Its serial, from 1.
    Command {
        serial: u64,
        command: Snapshot<Command>,
    },
    /// A task management function: its type (`TCMU_TMR_*`) and the serials that it names.
    Note {
        kind: u8,
        serials: Serials,
    },
}

/// An item of the ring, with its length in bytes.
#[derive(Drop)]
pub struct RingItem {
    /// A multiple of 8.
    pub len: u32,
    /// Set when the item is laid, and never changed.
    pub content: Content,
}

impl Model for RingItem {
    ghost use Rattle.tcmu_model.specs.RingState.{Item};
    ghost use Rattle.tcmu_path.specs.Laid.{laid_in};

    ghost Value = { Item };

    ghost view = { λ a. record { len = a.len; laid = laid_in a.content } };
}

impl RingItem {
    /// Whether it is padding.
    pub fn is_pad(&self) -> bool
        ensures { result ≡ is_pad self.now }
    {
        matches!(&self.content, Content::Pad)
    }

    /// Whether it is a command.
    pub fn is_command(&self) -> bool
        ensures { result ≡ is_command self.now }
    {
        matches!(&self.content, Content::Command { .. })
    }

    /// The serial of the command that is laid here.
    pub fn serial(&self) -> Option<u64>
        ensures { option_to_list result ≡ serial_in self.now }
    {
        match &self.content {
            Content::Command { serial, .. } => Some(*serial),
            Content::Pad => None,
            Content::Note { .. } => None,
        }
    }
}

/// Appends an item behind its padding, where there is room for both.
fn append(laid: &mut Vec<RingItem>, pad: u32, item: RingItem)
    requires { vec_len laid.old + 2 ≤ vec_capacity laid.old }
    ensures { laid.new.items ≡ laid.old.items ++ pads pad ++ item ∷ [] }
{
    if pad != 0 {
        let _ = laid.push(RingItem {
            len: pad,
            content: Content::Pad,
        });
    }
    let _ = laid.push(item);
}

/// How many items of padding stand at the front.
fn pads_ahead(items: &[RingItem]) -> usize
    ensures value { result ≡ prefix_len is_pad items.now }
    ensures bound { result ≤ length items.now }
{
    items.iter().take_while(|item| item.is_pad()).count()
}

/// How many items the longest front with no more than so many commands has, and how many commands.
fn front_with(items: &[RingItem], most: usize) -> (usize, usize)
    ensures value { result.0 ≡ front_with most items.now }
    ensures bound { result.0 ≤ length items.now }
    ensures commands { result.1 ≡ commands_in (take result.0 items.now) }
{
    let mut left = most;
    for (at, item) in items.iter().enumerate() {
        if item.is_command() {
            if left == 0 {
                return (at, most);
            }
            left -= 1;
        }
    }
    (items.len(), most - left)
}

/// The bytes of all these items together.
fn lengths_of(items: &[RingItem]) -> u32
    requires { sum_by (λ i. i.len) items.now < 2 ^ 32 }
    ensures { result ≡ lengths items.now }
{
    items.iter().map(|item| item.len).sum()
}

/// The ring.
#[derive(Drop)]
pub struct Ring {
    size: u32,
    laid: Vec<RingItem>,
    cleared: usize,
    published: usize,
    dispatched: usize,
    head: u32,
    used: u32,
    cleared_commands: usize,
    published_commands: usize,
}

impl Model for Ring {
    ghost use Rattle.tcmu_model.specs.RingState.{RingState};
    ghost use Rattle.tcmu_path.specs.Numbers.{HasNumbers};

    ghost Value = { RingState };

    ghost view = { λ a. record { size = a.size; laid = a.laid.items; cleared = a.cleared; published = a.published; dispatched = a.dispatched } };

    ghost invariant = { λ a. HasNumbers (record { size = a.size; laid = a.laid.items; cleared = a.cleared; published = a.published; dispatched = a.dispatched }) a.head a.used a.cleared_commands a.published_commands };
}

impl Ring {
    /// An empty ring of `size` bytes.
    pub fn new(alloc: Global, size: u32) -> Ring
        requires low { 4096 ≤ size }
        requires high { size ≤ 4194304 }
        ensures { result ≡ empty_ring size }
    {
        Ring {
            size,
            laid: Vec::new(alloc),
            cleared: 0,
            published: 0,
            dispatched: 0,
            head: 0,
            used: 0,
            cleared_commands: 0,
            published_commands: 0,
        }
    }

    /// Its size, in bytes.
    pub fn size(&self) -> u32
        ensures { result ≡ self.now.size }
    {
        self.size
    }

    /// Where the next item begins, in bytes from its start.
    pub fn head(&self) -> u32
        ensures { result ≡ head self.now }
    {
        self.head
    }

    /// How many bytes are laid and not cleared.
    pub fn used(&self) -> u32
        ensures { result ≡ used self.now }
    {
        self.used
    }

    /// How many bytes may still be laid: one byte stays free, so that a full ring is not taken for an empty one.
    pub fn free(&self) -> u32
        ensures { result ≡ free self.now }
    {
        self.size - self.used - 1
    }

    /// How many bytes of padding an item needs before it.
    pub fn pad(&self, len: u32) -> u32
        ensures value { result ≡ pad self.now len }
        ensures bound { result ≤ 4194304 }
    {
        let left = self.size - self.head;
        if left < len { left } else { 0 }
    }

    /// How many bytes an item takes, with its padding.
    pub fn need(&self, len: u32) -> u32
        requires { len ≤ 4194304 }
        ensures value { result ≡ need self.now len }
        ensures bound { result ≤ 8388608 }
    {
        self.pad(len) + len
    }

    /// Whether an item of `len` bytes has room, with its padding.
    pub fn fits(&self, len: u32) -> bool
        requires { len ≤ 4194304 }
        ensures { result ≡ fits self.now len }
    {
        self.need(len) <= self.free()
    }

    /// Lays an item that fits, behind its padding.
    pub fn lay(&mut self, item: RingItem) -> Result<(), NoMemory>
        requires short { item.len ≤ 4194304 }
        requires fits { need self.old item.len ≤ free self.old }
        ensures ok { OnOk result (self.new ≡ with_item self.old item) }
        ensures err { OnErr result (self.new ≡ self.old) }
    {
        self.laid.reserve(2)?;
        let pad = self.pad(item.len);
        let need = pad + item.len;
        append(&mut self.laid, pad, item);
        self.head = (self.head + need) % self.size;
        self.used += need;
        Ok(())
    }

    /// The place of the next item to be dispatched, past padding.
    pub fn next_place(&self) -> usize
        ensures { result ≡ next_place self.now }
    {
        self.dispatched + pads_ahead(&self.laid[self.dispatched..])
    }

    /// The item at a place, counted from the first that was ever laid.
    pub fn item(&self, at: usize) -> Option<&RingItem>
        ensures { MatchOption result (slice_get self.now.laid at ≡ None) (λ i. slice_get self.now.laid at ≡ Some i.now) }
    {
        self.laid.get(at)
    }

    /// The items from a place on.
    pub fn items_from(&self, at: usize) -> &[RingItem]
        requires { at ≤ length self.now.laid }
        ensures value { result.now ≡ drop at self.now.laid }
        ensures few { length self.now.laid < 2 ^ 64 }
    {
        let _count = self.laid.len();
        &self.laid[at..]
    }

    /// Counts the next item, which is there, as dispatched.
    pub fn pass(&mut self, at: usize)
        requires next { at ≡ next_place self.old }
        requires within { at < length self.old.laid }
        ensures { self.new ≡ passed self.old }
    {
        let _count = self.laid.len();
        self.dispatched = at + 1;
    }

    /// Whether items are laid that are not dispatched.
    pub fn has_more(&self) -> bool
        ensures { result ≡ nat_lt self.now.dispatched (length self.now.laid) }
    {
        self.dispatched < self.laid.len()
    }

    /// How many commands are published.
    pub fn published_commands(&self) -> usize
        ensures { result ≡ published_commands self.now }
    {
        self.published_commands
    }

    /// How many commands are cleared.
    pub fn cleared_commands(&self) -> usize
        ensures value { result ≡ cleared_commands self.now }
        ensures bound { result ≤ published_commands self.now }
    {
        self.cleared_commands
    }

    /// How many more items may be published where so many answers are placed, and how many commands among them.
    fn more(&self, placed: usize) -> (usize, usize)
        requires { published_commands self.now ≤ placed }
        ensures items { self.now.published + result.0 ≡ front_with placed (take self.now.dispatched self.now.laid) }
        ensures commands { published_commands self.now + result.1 ≡ commands_in (take (front_with placed (take self.now.dispatched self.now.laid)) self.now.laid) }
        ensures bound { self.now.published + result.0 ≤ self.now.dispatched }
    {
        front_with(
            &self.laid[self.published..self.dispatched],
            placed - self.published_commands,
        )
    }

    /// Whether more may be published.
    pub fn may_publish(&self, placed: usize) -> bool
        requires { published_commands self.now ≤ placed }
        ensures { result ≡ nat_lt self.now.published (front_with placed (take self.now.dispatched self.now.laid)) }
    {
        if self.published == self.dispatched {
            return false;
        }
        let _count = self.laid.len();
        let next = &self.laid[self.published];
        !next.is_command() || self.published_commands < placed
    }

    /// Publishes what so many placed answers allow, and tells how many items that moved and how many commands among them.
    pub fn publish(&mut self, placed: usize) -> (usize, usize)
        requires { published_commands self.old ≤ placed }
        ensures after { self.new ≡ record self.old { published = front_with placed (take self.old.dispatched self.old.laid) } }
        ensures items { result.0 ≡ front_with placed (take self.old.dispatched self.old.laid) - self.old.published }
        ensures commands { result.1 ≡ commands_in (take (front_with placed (take self.old.dispatched self.old.laid)) self.old.laid) - published_commands self.old }
    {
        let (items, commands) = self.more(placed);
        self.published += items;
        self.published_commands += commands;
        (items, commands)
    }

    /// Whether published items are not cleared.
    pub fn may_clear(&self) -> bool
        ensures { result ≡ nat_lt self.now.cleared self.now.published }
    {
        self.cleared < self.published
    }

    /// Counts the published items as cleared.
    pub fn clear(&mut self)
        ensures { self.new ≡ record self.old { cleared = self.old.published } }
    {
        self.used -= lengths_of(&self.laid[self.cleared..self.published]);
        self.cleared = self.published;
        self.cleared_commands = self.published_commands;
    }

    /// Forgets all that was laid.
    pub fn reset(&mut self)
        ensures { self.new ≡ empty_ring self.old.size }
    {
        self.laid.clear();
        self.cleared = 0;
        self.published = 0;
        self.dispatched = 0;
        self.head = 0;
        self.used = 0;
        self.cleared_commands = 0;
        self.published_commands = 0;
    }
}
