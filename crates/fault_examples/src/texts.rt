//! The texts of the faults that libraries answer, each once, as a caller shows them.
use device_config::ConfigFault;
use edge::Failed;
use media::MakeFault;
use region_model::{EntryFault, MailboxFault};
use scenario_text::{ScenarioFault, Why};
use scsi_model::CdbFault;
use std::test::Fail;
use tcmu_types::{CdbLength, NoMemory};

#[test]
fn faults_of_texts(rt: HostRuntime) -> Result<(), Fail> {
    for (fault, text) in [
        (ConfigFault::Colon(7), "a colon at byte 7"),
        (ConfigFault::Prefix, "no tcm-user/ in front"),
        (ConfigFault::Hba, "no number of a host bus adapter"),
        (ConfigFault::Name, "no name of a device"),
        (ConfigFault::Subtype, "no known subtype"),
        (ConfigFault::Path, "no path of this subtype"),
        (ConfigFault::NoMemory, "no memory"),
    ] {
        let told = format!(in rt.alloc(); "{fault}")?;
        assert_eq!(rt; told.as_str(), text);
    }
    let line = 12;
    let why = Why::Direction;
    for (fault, text) in [
        (ScenarioFault::Bad { line, why }, "line 12: direction"),
        (ScenarioFault::NoMemory, "no memory"),
    ] {
        let told = format!(in rt.alloc(); "{fault}")?;
        assert_eq!(rt; told.as_str(), text);
    }
    Ok(())
}

#[test]
fn faults_of_commands_and_media(rt: HostRuntime) -> Result<(), Fail> {
    let (want, have) = (10, 9);
    let told = format!(in rt.alloc(); "{}", CdbLength { want, have })?;
    assert_eq!(rt;
        told.as_str(),
        "a command descriptor block of 10 bytes is wanted, not of 9"
    );
    for (fault, text) in [
        (CdbFault::Opcode(0x0b), "operation code 0bh is not served"),
        (CdbFault::Field(13), "byte 13 holds an invalid field"),
    ] {
        let told = format!(in rt.alloc(); "{fault}")?;
        assert_eq!(rt; told.as_str(), text);
    }
    for (fault, text) in [
        (MakeFault::Open, "the file of a medium could not be opened"),
        (MakeFault::NoMemory, "no memory"),
    ] {
        let told = format!(in rt.alloc(); "{fault}")?;
        assert_eq!(rt; told.as_str(), text);
    }
    let told = format!(in rt.alloc(); "{Failed}")?;
    assert_eq!(rt; told.as_str(), "a call of the outside failed");
    let told = format!(in rt.alloc(); "{NoMemory}")?;
    assert_eq!(rt; told.as_str(), "no memory");
    Ok(())
}

#[test]
fn faults_of_a_region(rt: HostRuntime) -> Result<(), Fail> {
    for (fault, text) in [
        (
            MailboxFault::Short(127),
            "127 bytes are no mailbox, which has 128",
        ),
        (MailboxFault::Version(1), "the version is 1, not 2"),
        (
            MailboxFault::Offset(64),
            "the ring begins at byte 64, not 128",
        ),
        (MailboxFault::Size(4097), "a ring has no 4097 bytes"),
        (
            MailboxFault::Unaligned(9),
            "the ring offset 9 is no multiple of 8",
        ),
        (
            MailboxFault::OutOfRing(4096),
            "the ring offset 4096 is past the ring's end",
        ),
    ] {
        let told = format!(in rt.alloc(); "{fault}")?;
        assert_eq!(rt; told.as_str(), text);
    }
    let (len, limit) = (128, 64);
    for (fault, text) in [
        (
            EntryFault::BadLength(0),
            "an entry of its kind has more than 0 bytes",
        ),
        (
            EntryFault::PastEnd { len, limit },
            "the entry has 128 bytes, and 64 are there",
        ),
        (
            EntryFault::BadCount(5),
            "the entry has no room for a count of 5, or the count must be 0",
        ),
        (
            EntryFault::CdbOutside(8),
            "the command descriptor block at byte 8 is not in the entry",
        ),
        (EntryFault::IovOutside(3), "iovec 3 is not in the data area"),
    ] {
        let told = format!(in rt.alloc(); "{fault}")?;
        assert_eq!(rt; told.as_str(), text);
    }
    Ok(())
}
