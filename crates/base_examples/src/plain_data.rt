//! Plain data: each public function once on its happy path, and values from the standards.
use std::alloc::Global;
use std::process::Abort;
use std::test::Fail;
use tcmu_types::{
    Bytes, Cdb, CdbLength, Command, Name, Sense, Serials, Words, sense_bytes, sense_of,
    takes_payload,
};

#[test]
fn command_blocks_have_the_length_of_their_group(rt: HostRuntime) -> Result<(), Fail> {
    let bytes = [0x00u8; 17];
    for (code, want) in [
        (0x00u8, 6usize),
        (0x1f, 6),
        (0x20, 10),
        (0x5f, 10),
        (0x60, 16),
        (0x88, 16),
        (0xa0, 12),
        (0xbf, 12),
        (0xc0, 16),
        (0xff, 16),
    ] {
        let mut block = bytes;
        block[0] = code;
        for length in 1..=17usize {
            assert_eq!(rt;
                Cdb::new(&block[..length]).is_ok(),
                length == want,
                "{code} at {length}"
            );
        }
    }
    assert_eq!(rt; Cdb::new(&[]).err(), Some(CdbLength { want: 0, have: 0 }));
    assert_eq!(rt;
        Cdb::new(&[0x28, 0]).err(),
        Some(CdbLength { want: 10, have: 2 })
    );
    Ok(())
}

#[test]
fn names_are_short_and_plain(rt: HostRuntime) -> Result<(), Fail> {
    for (text, is_name) in [
        ("a", true),
        ("disk_0", true),
        ("a234567890123456", true),
        ("a2345678901234567", false),
        ("", false),
        ("0a", false),
        ("_a", false),
        ("aB", false),
        ("a-b", false),
    ] {
        assert_eq!(rt; Name::new(text).is_some(), is_name, "{text}");
    }
    let name = Name::new("disk_0").ok_or("a name")?;
    assert_eq!(rt; name.copy().as_bytes(), b"disk_0".as_slice());
    assert!(rt; name == name.copy());
    assert!(rt; Name::new("disk_1").is_some_and(|other| name != other));
    Ok(())
}

fn write_of_a_block() -> Result<Cdb, Fail> {
    Ok(Cdb::new(&[0x2a, 0, 0, 0, 0, 3, 0, 0, 1, 0]).map_err(|_| "a block")?)
}

fn filled(alloc: Global, byte: u8, count: usize) -> Result<Bytes, Fail> {
    let mut bytes = Bytes::new(alloc);
    bytes.reserve(count as u64)?;
    bytes.fill(byte, count);
    Ok(bytes)
}

fn command(alloc: Global) -> Result<Command, Fail> {
    let name = Name::new("a").ok_or("a name")?;
    let cdb = write_of_a_block()?;
    let sent = filled(alloc, 0x5a, 512)?;
    Ok(Command::new(name, 7, cdb, sent, 0).ok_or("a command")?)
}

fn check_command(rt: &impl Abort, command: &Command) {
    assert!(rt; takes_payload(command.cdb()));
    assert_eq!(rt; command.tag(), 7);
    assert!(rt; command.init().as_bytes() == b"a".as_slice());
    assert_eq!(rt; command.cdb().as_bytes().len(), 10);
    assert_eq!(rt; (command.in_len(), command.payload_length()), (0, 512));
}

fn check_sent(rt: &impl Abort, sent: &[u8]) {
    assert_eq!(rt; sent.len(), 512);
    assert!(rt; sent.iter().all(|byte| *byte == 0x5a));
}

#[test]
fn a_command_is_made_and_copied(rt: HostRuntime) -> Result<(), Fail> {
    let alloc = rt.alloc();
    let command = command(alloc)?;
    let copy = command.try_clone(alloc)?;
    check_command(&rt, &copy);
    check_sent(&rt, copy.sent().as_slice());
    Ok(())
}

#[test]
fn lists_keep_their_items(rt: HostRuntime) -> Result<(), Fail> {
    let mut serials = Serials::from_slice(rt.alloc(), &[3, 5])?;
    serials.reserve(3)?;
    serials.push(8);
    serials.extend(&[13, 21]);
    assert!(rt; serials.as_slice() == [3, 5, 8, 13, 21].as_slice());
    assert_eq!(rt; (serials.len(), serials.is_empty()), (5, false));
    assert!(rt; serials.contains(5) && !serials.contains(4));
    let mut again = Serials::from_vec(serials.into_vec());
    again.clear();
    assert!(rt; again.is_empty());
    Ok(())
}

fn one_word(alloc: Global) -> Result<Words, Fail> {
    let word = Bytes::from_slice(alloc, b"replay")?;
    let mut words = Words::new(alloc);
    words.reserve(1)?;
    words.push(word);
    Ok(words)
}

#[test]
fn words_are_copied(rt: HostRuntime) -> Result<(), Fail> {
    let alloc = rt.alloc();
    let words = one_word(alloc)?;
    let copy = Words::from_words(alloc, words.as_slice())?;
    assert_eq!(rt; copy.as_slice().len(), 1);
    let word = copy.as_slice().first().ok_or("a word")?;
    assert!(rt; word.as_slice() == b"replay".as_slice());
    Ok(())
}

#[test]
fn sense_data_is_written_and_read(rt: HostRuntime) {
    let sense = Sense {
        key: 0x0b,
        asc: 0x08,
        ascq: 0x01,
    };
    let bytes = sense_bytes(sense);
    assert_eq!(rt;
        bytes,
        [
            0x70, 0, 0x0b, 0, 0, 0, 0, 0x0a, 0, 0, 0, 0, 0x08, 0x01, 0, 0, 0, 0
        ]
    );
    let mut buffer = [0; 96];
    buffer[..18].copy_from_slice(&bytes);
    assert_eq!(rt; sense_of(&buffer), sense);
    buffer[2] = 0xfb;
    assert_eq!(rt; sense_of(&buffer), sense);
}
