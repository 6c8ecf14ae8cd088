//! The device that a region represents, with its block lists, as contracts alone see them.
ghost use Rattle.std.specs.Prelude.{◌≡◌};
ghost use Rattle.tcmu_types.specs.Events as ev;
ghost use Rattle.tcmu_model.specs.BlockLists.{kept_lists, lists_after};
ghost use Rattle.tcmu_model.specs.Events.{after_block, after_clean, after_dispatch, after_enter, after_handle, after_publish, after_reset, after_respond, after_restart, after_submit, after_tick, after_tmr};
ghost use Rattle.ring_path.specs.Devices.{device_blocked, device_cleaned, device_dispatched, device_entered, device_handled, device_kept, device_noted, device_published, device_reset, device_responded, device_restarted, device_submitted, device_ticked, opening_device};

use std::marker::Model;
use std::snapshot::Snapshot;
use tcmu_types::{Command, Enter, Reply, Serials, Settings, Submit, Tmr};

/// The last event, and what stood before it. Nothing of it is kept at run time.
#[derive(Drop)]
enum Change {
    Opened(Snapshot<Settings>),
    Submitted {
        command: Snapshot<Command>,
        answer: Snapshot<Submit>,
        before: Snapshot<Change>,
    },
    Entered {
        answer: Snapshot<Enter>,
        before: Snapshot<Change>,
    },
    Noted {
        kind: Snapshot<u8>,
        serials: Snapshot<Serials>,
        answer: Snapshot<Tmr>,
        before: Snapshot<Change>,
    },
    Dispatched {
        before: Snapshot<Change>,
    },
    Handled {
        serial: Snapshot<u64>,
        reply: Snapshot<Reply>,
        before: Snapshot<Change>,
    },
    /// The device stayed as it was.
    Kept {
        before: Snapshot<Change>,
    },
    Responded {
        serial: Snapshot<u64>,
        before: Snapshot<Change>,
    },
    Published {
        before: Snapshot<Change>,
    },
    Cleaned {
        before: Snapshot<Change>,
    },
    Ticked {
        n: Snapshot<u32>,
        before: Snapshot<Change>,
    },
    Blocked {
        blocked: Snapshot<bool>,
        before: Snapshot<Change>,
    },
    Reset {
        level: Snapshot<u8>,
        before: Snapshot<Change>,
    },
    Restarted {
        before: Snapshot<Change>,
    },
}

/// A device with its block lists. Contracts alone see it.
#[derive(Drop)]
pub(crate) struct Told {
    last: Change,
}

impl Model for Told {
    ghost use Rattle.ring_path.specs.Devices.{RingDevice};

    ghost Value = { RingDevice };

    ghost use Rattle.ring_path.specs.Changes.{device_behind};

    ghost view = { λ t. device_behind t.last };
}

impl Told {
    /// The device as it opens.
    pub(crate) fn opened(settings: &Settings) -> Told
        ensures { result ≡ opening_device settings.now }
    {
        Told {
            last: Change::Opened(Snapshot::of(settings)),
        }
    }

    /// A submit was answered.
    pub(crate) fn submitted(&mut self, command: &Command, answer: &Submit)
        ensures whole { self.new ≡ device_submitted self.old command.now answer.now }
        ensures state { self.new.state ≡ after_submit self.old.state command.now answer.now }
        ensures lists { self.new.lists ≡ lists_after self.old.state self.old.lists (ev.Submit command.now) (ev.Submitted answer.now) self.new.state }
    {
        self.last = Change::Submitted {
            command: Snapshot::of(command),
            answer: Snapshot::of(answer),
            before: Snapshot::of(&self.last),
        };
    }

    /// An enter was answered.
    pub(crate) fn entered(&mut self, answer: &Enter)
        ensures whole { self.new ≡ device_entered self.old answer.now }
        ensures state { self.new.state ≡ after_enter self.old.state answer.now }
        ensures lists { self.new.lists ≡ lists_after self.old.state self.old.lists ev.Enter (ev.Entered answer.now) self.new.state }
    {
        self.last = Change::Entered {
            answer: Snapshot::of(answer),
            before: Snapshot::of(&self.last),
        };
    }

    /// A note was answered.
    pub(crate) fn noted(&mut self, kind: u8, serials: &Serials, answer: &Tmr)
        ensures whole { self.new ≡ device_noted self.old kind serials.now.items answer.now }
        ensures state { self.new.state ≡ after_tmr self.old.state kind serials.now.items answer.now }
        ensures lists { self.new.lists ≡ kept_lists self.new.state self.old.lists }
    {
        self.last = Change::Noted {
            kind: Snapshot::of(&kind),
            serials: Snapshot::of(serials),
            answer: Snapshot::of(answer),
            before: Snapshot::of(&self.last),
        };
    }

    /// The next item was dispatched.
    pub(crate) fn dispatched(&mut self)
        ensures whole { self.new ≡ device_dispatched self.old }
        ensures state { self.new.state ≡ after_dispatch self.old.state }
        ensures lists { self.new.lists ≡ kept_lists self.new.state self.old.lists }
    {
        self.last = Change::Dispatched {
            before: Snapshot::of(&self.last),
        };
    }

    /// The handler replied to the command of a serial.
    pub(crate) fn handled(&mut self, serial: u64, reply: &Reply)
        ensures whole { self.new ≡ device_handled self.old serial reply.now }
        ensures state { self.new.state ≡ after_handle self.old.state serial reply.now }
        ensures lists { self.new.lists ≡ kept_lists self.new.state self.old.lists }
    {
        self.last = Change::Handled {
            serial: Snapshot::of(&serial),
            reply: Snapshot::of(reply),
            before: Snapshot::of(&self.last),
        };
    }

    /// An event left the device as it was.
    pub(crate) fn kept(&mut self)
        ensures whole { self.new ≡ device_kept self.old }
        ensures state { self.new.state ≡ self.old.state }
        ensures lists { self.new.lists ≡ kept_lists self.new.state self.old.lists }
    {
        self.last = Change::Kept {
            before: Snapshot::of(&self.last),
        };
    }

    /// A respond of a serial was answered.
    pub(crate) fn responded(&mut self, serial: u64)
        ensures whole { self.new ≡ device_responded self.old serial }
        ensures state { self.new.state ≡ after_respond self.old.state serial }
        ensures lists { self.new.lists ≡ kept_lists self.new.state self.old.lists }
    {
        self.last = Change::Responded {
            serial: Snapshot::of(&serial),
            before: Snapshot::of(&self.last),
        };
    }

    /// The tail was moved.
    pub(crate) fn published(&mut self)
        ensures whole { self.new ≡ device_published self.old }
        ensures state { self.new.state ≡ after_publish self.old.state }
        ensures lists { self.new.lists ≡ kept_lists self.new.state self.old.lists }
    {
        self.last = Change::Published {
            before: Snapshot::of(&self.last),
        };
    }

    /// The target cleaned.
    pub(crate) fn cleaned(&mut self)
        ensures whole { self.new ≡ device_cleaned self.old }
        ensures state { self.new.state ≡ after_clean self.old.state }
        ensures lists { self.new.lists ≡ kept_lists self.new.state self.old.lists }
    {
        self.last = Change::Cleaned {
            before: Snapshot::of(&self.last),
        };
    }

    /// So many ticks passed.
    pub(crate) fn ticked(&mut self, n: u32)
        ensures whole { self.new ≡ device_ticked self.old n }
        ensures state { self.new.state ≡ after_tick self.old.state n }
        ensures lists { self.new.lists ≡ kept_lists self.new.state self.old.lists }
    {
        self.last = Change::Ticked {
            n: Snapshot::of(&n),
            before: Snapshot::of(&self.last),
        };
    }

    /// The device was blocked, or goes on.
    pub(crate) fn blocked(&mut self, blocked: bool)
        ensures whole { self.new ≡ device_blocked self.old blocked }
        ensures state { self.new.state ≡ after_block self.old.state blocked }
        ensures lists { self.new.lists ≡ kept_lists self.new.state self.old.lists }
    {
        self.last = Change::Blocked {
            blocked: Snapshot::of(&blocked),
            before: Snapshot::of(&self.last),
        };
    }

    /// A reset of a level was answered.
    pub(crate) fn reset(&mut self, level: u8)
        ensures whole { self.new ≡ device_reset self.old level }
        ensures state { self.new.state ≡ after_reset self.old.state level }
        ensures lists { self.new.lists ≡ kept_lists self.new.state self.old.lists }
    {
        self.last = Change::Reset {
            level: Snapshot::of(&level),
            before: Snapshot::of(&self.last),
        };
    }

    /// The user side is gone.
    pub(crate) fn restarted(&mut self)
        ensures whole { self.new ≡ device_restarted self.old }
        ensures state { self.new.state ≡ after_restart self.old.state }
        ensures lists { self.new.lists ≡ kept_lists self.new.state self.old.lists }
    {
        self.last = Change::Restarted {
            before: Snapshot::of(&self.last),
        };
    }
}
