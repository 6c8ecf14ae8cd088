//! The worked bytes of a mailbox, and each fault at its border.
use mailbox_bytes::{Mailbox, MailboxFault, read, write};
use std::test::Fail;
use tcmu_types::little_endian::{put_u16, put_u32};

/// A new device's: completions in any order, and a ring of 4096 bytes.
const OPENING: Mailbox = Mailbox {
    version: 2,
    flags: 1,
    cmdr_off: 128,
    cmdr_size: 4096,
    head: 0,
    tail: 0,
};

#[test]
fn writes_the_box_of_a_new_device(rt: HostRuntime) -> Result<(), Fail> {
    let mut bytes = [0xaau8; 130];
    write(&OPENING, &mut bytes);
    assert_eq!(rt;
        &bytes[..10],
        [2, 0, 1, 0, 0x80, 0, 0, 0, 0, 0x10].as_slice()
    );
    assert!(rt; bytes[10..128].iter().all(|byte| *byte == 0));
    assert_eq!(rt; &bytes[128..], [0xaa, 0xaa].as_slice());
    assert_eq!(rt; read(&bytes), Ok(OPENING));
    Ok(())
}

#[test]
fn names_the_first_broken_rule(rt: HostRuntime) -> Result<(), Fail> {
    let mut opening = [0u8; 128];
    write(&OPENING, &mut opening);
    assert_eq!(rt; read(&[0; 127]), Err(MailboxFault::Short(127)));
    for (at, word, want) in [
        (0, 0x1_0001u32, Some(MailboxFault::Version(1))),
        (0, 0xffff_0002, None),
        (4, 127, Some(MailboxFault::Offset(127))),
        (8, 0, Some(MailboxFault::Size(0))),
        (8, 4097, Some(MailboxFault::Size(4097))),
        (8, 4_194_304, None),
        (8, 4_198_400, Some(MailboxFault::Size(4_198_400))),
        (12, 4, Some(MailboxFault::Unaligned(4))),
        (12, 4088, None),
        (12, 4096, Some(MailboxFault::OutOfRing(4096))),
        (64, 4092, Some(MailboxFault::Unaligned(4092))),
        (64, 4104, Some(MailboxFault::OutOfRing(4104))),
    ] {
        let mut bytes = opening;
        if at <= 124 {
            put_u32(&mut bytes, at, word);
        }
        assert_eq!(rt; read(&bytes).err(), want, "{word} at {at}");
    }
    Ok(())
}

#[test]
fn the_first_of_two_faults_is_the_answer(rt: HostRuntime) -> Result<(), Fail> {
    let mut bytes = [0u8; 128];
    write(&OPENING, &mut bytes);
    put_u32(&mut bytes, 64, 4096);
    put_u32(&mut bytes, 12, 4100);
    assert_eq!(rt; read(&bytes), Err(MailboxFault::Unaligned(4100)));
    put_u32(&mut bytes, 8, 8);
    assert_eq!(rt; read(&bytes), Err(MailboxFault::Size(8)));
    put_u16(&mut bytes, 0, 3);
    assert_eq!(rt; read(&bytes), Err(MailboxFault::Version(3)));
    Ok(())
}
