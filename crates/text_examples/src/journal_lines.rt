//! Each writer of journal lines once, against lines written by hand.
use report_text::{completion_line, dump_text, end_text, entry_text, event_line, runs_text};
use std::alloc::Global;
use std::test::Fail;
use tcmu_types::{
    Answer, BlockList, Bytes, Done, Dump, Entry, Event, Held, HeldList, Item, ItemKind, Items,
    Name, NoMemory, Publish, ScsiStatus, Sense, Stat,
};

fn name() -> Option<Name> {
    Name::new("d0")
}

fn done(alloc: Global) -> Option<Done> {
    Some(Done {
        serial: 3,
        init: Name::new("a")?,
        tag: 7,
        status: ScsiStatus(2),
        sense: Some(Sense {
            key: 5,
            asc: 0x21,
            ascq: 0,
        }),
        payload: Bytes::new(alloc),
    })
}

fn dump(alloc: Global) -> Result<Dump, NoMemory> {
    let mut items = Items::new(alloc);
    items.reserve(1)?;
    items.push(Item {
        at: 64,
        kind: ItemKind::Pad,
        bytes: Bytes::from_slice(alloc, &[1, 1, 0])?,
    });
    let mut held = HeldList::new(alloc);
    held.reserve(1)?;
    held.push(Held {
        serial: 4,
        blocks: BlockList::from_slice(alloc, &[0, 2])?,
        payload: Bytes::new(alloc),
    });
    let mailbox = Bytes::from_slice(alloc, &[2, 0, 0])?;
    Ok(Dump {
        mailbox,
        items,
        held,
    })
}

#[test]
fn lines(rt: HostRuntime) -> Result<(), Fail> {
    let alloc = rt.alloc();
    let name = name().ok_or("name")?;
    let done = [done(alloc).ok_or("done")?];
    let tick = event_line(alloc, &name, 0, &Event::Tick(5), &Answer::Logged(1))?;
    let logged = completion_line(alloc, &name, &done[0])?;
    assert_eq!(rt; tick.as_slice(), b"tick d0 5 # expired 1\n".as_slice());
    assert_eq!(rt;
        logged.as_slice(),
        b"# done d0 3 a 7 02 05/21/00 -\n".as_slice()
    );
    let mut text = Bytes::new(alloc);
    end_text(alloc, &name, 2, &mut text)?;
    runs_text(alloc, &[0xab, 0xab, 0x0c], &mut text)?;
    assert_eq!(rt; text.as_slice(), b"# open d0 2\nab*2,0c*1".as_slice());
    Ok(())
}

#[test]
fn entries_and_dumps(rt: HostRuntime) -> Result<(), Fail> {
    let alloc = rt.alloc();
    let name = name().ok_or("name")?;
    let done = [done(alloc).ok_or("done")?];
    let entry = Entry {
        device: 0,
        event: Event::Clean,
        answer: Answer::Logged(1),
        logged: 1,
    };
    let mut text = Bytes::new(alloc);
    entry_text(alloc, &name, 0, &entry, &done, &mut text)?;
    dump_text(alloc, &name, &dump(alloc)?, &mut text)?;
    assert_eq!(rt;
        text.as_slice(),
        b"clean d0 # cleaned 1\n# done d0 3 a 7 02 05/21/00 -\ndump d0 # shown 3\n# box 02*1,00*2\n# item 64 pad 3 01*2,00*1\n# held 4 0,2 -\n".as_slice()
    );
    Ok(())
}

/// The word of each kind of item, as a dump shows it.
#[test]
fn items_of_each_kind(rt: HostRuntime) -> Result<(), Fail> {
    let alloc = rt.alloc();
    let name = name().ok_or("name")?;
    for (kind, line) in [
        (
            ItemKind::Pad,
            b"dump d0 # shown 2\n# box 02*1\n# item 8 pad 1 07*1\n",
        ),
        (
            ItemKind::Cmd,
            b"dump d0 # shown 2\n# box 02*1\n# item 8 cmd 1 07*1\n",
        ),
        (
            ItemKind::Tmr,
            b"dump d0 # shown 2\n# box 02*1\n# item 8 tmr 1 07*1\n",
        ),
    ] {
        let bytes = Bytes::from_slice(alloc, &[7])?;
        let mut items = Items::new(alloc);
        items.reserve(1)?;
        items.push(Item { at: 8, kind, bytes });
        let mailbox = Bytes::from_slice(alloc, &[2])?;
        let held = HeldList::new(alloc);
        let mut text = Bytes::new(alloc);
        dump_text(
            alloc,
            &name,
            &Dump {
                mailbox,
                items,
                held,
            },
            &mut text,
        )?;
        assert_eq!(rt; text.as_slice(), line.as_slice());
    }
    Ok(())
}

/// A command that is held, with its blocks and its payload.
fn held(alloc: Global, serial: u64, blocks: &[u32], payload: &[u8]) -> Result<Held, NoMemory> {
    Ok(Held {
        serial,
        blocks: BlockList::from_slice(alloc, blocks)?,
        payload: Bytes::from_slice(alloc, payload)?,
    })
}

/// A command without blocks, and one with a payload in its block.
#[test]
fn commands_that_are_held(rt: HostRuntime) -> Result<(), Fail> {
    let alloc = rt.alloc();
    let name = name().ok_or("name")?;
    let mut both = HeldList::new(alloc);
    both.reserve(2)?;
    both.push(held(alloc, 4, &[], &[])?);
    both.push(held(alloc, 7, &[1], &[0x5a, 0x5a, 0])?);
    let mailbox = Bytes::from_slice(alloc, &[2])?;
    let dump = Dump {
        mailbox,
        items: Items::new(alloc),
        held: both,
    };
    let mut text = Bytes::new(alloc);
    dump_text(alloc, &name, &dump, &mut text)?;
    assert_eq!(rt;
        text.as_slice(),
        b"dump d0 # shown 3\n# box 02*1\n# held 4 - -\n# held 7 1 5a*2,00*1\n".as_slice()
    );
    Ok(())
}

/// Numbers of a device, each another.
const STAT: Stat = Stat {
    now: 9,
    blocked: true,
    attached: false,
    head: 128,
    used: 256,
    waiting: 1,
    out: 2,
    handled: 3,
    parked: 4,
    placed: 5,
    lost: 6,
    expired: 7,
    held: 8,
    delayed: 10,
};

/// A device on which commands may wait shows how many do.
#[test]
fn numbers(rt: HostRuntime) -> Result<(), Fail> {
    let alloc = rt.alloc();
    let name = name().ok_or("name")?;
    let moved = Publish::Moved {
        items: 2,
        commands: 1,
    };
    let stat = event_line(alloc, &name, 4, &Event::Stat, &Answer::Stat(STAT))?;
    let publish = event_line(alloc, &name, 4, &Event::Publish, &Answer::Publish(moved))?;
    assert_eq!(rt;
        stat.as_slice(),
        b"stat d0 # now 9 blocked 1 attached 0 head 128 used 256 waiting 1 out 2 handled 3 parked 4 placed 5 lost 6 expired 7 held 8 delayed 10\n".as_slice()
    );
    assert_eq!(rt; publish.as_slice(), b"publish d0 # moved 2 1\n".as_slice());
    Ok(())
}
