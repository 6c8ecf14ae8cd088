//! Loads against commands worked out by hand.
use load_gen::load_scenario;
use report_text::device_text;
use scenario_text::{Line, LineKind};
use std::test::Fail;
use tcmu_types::{Bytes, Command, Event};

/// The command of a submit line.
fn command_of(line: &Line) -> Option<&Command> {
    match &line.what {
        LineKind::Event(Event::Submit(command)) => Some(command),
        _ => None,
    }
}

/// Of each of the first commands of seed 0: its tag, its block, the byte that it sends and how often, and how many bytes it asks for. Seed 0 begins
/// with `submit d0 a 1 2a00000000dd00000200 out=7b*1024`, which follows from the first number, 0x14057b7ef767814f.
const FIRST: [(u32, [u8; 10], u8, usize, u32); 4] = [
    (1, [0x2a, 0, 0, 0, 0x00, 0xdd, 0, 0, 2, 0], 0x7b, 1024, 0),
    (2, [0x28, 0, 0, 0, 0x0b, 0x76, 0, 0, 2, 0], 0x00, 0, 1024),
    (3, [0x2a, 0, 0, 0, 0x00, 0xd6, 0, 0, 2, 0], 0x78, 1024, 0),
    (4, [0x28, 0, 0, 0, 0x0f, 0x1c, 0, 0, 7, 0], 0x00, 0, 3584),
];

#[test]
fn the_first_commands(rt: HostRuntime) -> Result<(), Fail> {
    let scenario = load_scenario(rt.alloc(), 0, 4)?;
    let mut lines = scenario.lines.as_slice().iter();
    for (tag, block, byte, sent, asked) in FIRST {
        let line = lines.next().ok_or("line")?;
        let command = command_of(line).ok_or("command")?;
        assert_eq!(rt; command.tag(), tag);
        assert_eq!(rt; command.init().as_bytes(), b"a".as_slice());
        assert_eq!(rt; command.cdb().as_bytes(), block.as_slice());
        assert_eq!(rt; command.sent().len(), sent);
        assert!(rt; command.sent().as_slice().iter().all(|one| *one == byte));
        assert_eq!(rt; command.in_len(), asked);
    }
    assert!(rt; lines.next().is_none());
    Ok(())
}

/// Its device, as its line would be.
#[test]
fn its_device(rt: HostRuntime) -> Result<(), Fail> {
    let scenario = load_scenario(rt.alloc(), 7, 0)?;
    let device = scenario.devices.as_slice().first().ok_or("device")?;
    let mut text = Bytes::new(rt.alloc());
    device_text(rt.alloc(), device, &mut text)?;
    let line =
        b"device d0 tcm-user/0/d0/mem/4096 ring=65536 blocks=1024 flags=ooo,len timeout=0 # ready\n";
    assert_eq!(rt; text.as_slice(), line.as_slice());
    Ok(())
}

/// One device, and a drain after each sixteenth command.
#[test]
fn drains_behind_sixteen(rt: HostRuntime) -> Result<(), Fail> {
    let scenario = load_scenario(rt.alloc(), 0, 16)?;
    assert_eq!(rt; scenario.devices.len(), 1);
    assert_eq!(rt; scenario.lines.len(), 17);
    let last = scenario.lines.as_slice().last().ok_or("line")?;
    assert!(rt; matches!(&last.what, LineKind::Drain));
    Ok(())
}
