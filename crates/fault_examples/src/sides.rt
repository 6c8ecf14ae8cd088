//! The texts of what the two sides of a region and the target's books refuse, each once.
use data_blocks::BlocksFault;
use region_model::{EntryFault, MailboxFault};
use std::test::Fail;
use target_side::TargetFault;
use user_lib::{AttachFault, UserFault};

#[test]
fn faults_of_the_target(rt: HostRuntime) -> Result<(), Fail> {
    let told = format!(in rt.alloc(); "{}", BlocksFault::Lacks { need: 3, free: 2 })?;
    assert_eq!(rt; told.as_str(), "need 3 blocks, free are 2");
    for (fault, text) in [
        (
            TargetFault::BadTail { tail: 72 },
            "the tail 72 is no item's end",
        ),
        (TargetFault::Broken { id: 9 }, "no command has the id 9"),
    ] {
        let told = format!(in rt.alloc(); "{fault}")?;
        assert_eq!(rt; told.as_str(), text);
    }
    Ok(())
}

#[test]
fn faults_of_the_user_side(rt: HostRuntime) -> Result<(), Fail> {
    for (fault, text) in [
        (
            AttachFault::Mailbox(MailboxFault::Version(3)),
            "bad mailbox: the version is 3, not 2",
        ),
        (AttachFault::NoMemory, "no memory"),
    ] {
        let told = format!(in rt.alloc(); "{fault}")?;
        assert_eq!(rt; told.as_str(), text);
    }
    let (at, fault) = (112, EntryFault::IovOutside(0));
    for (fault, text) in [
        (
            UserFault::BadMailbox(MailboxFault::Short(0)),
            "bad mailbox: 0 bytes are no mailbox, which has 128",
        ),
        (
            UserFault::BadEntry { at, fault },
            "bad entry at 112: iovec 0 is not in the data area",
        ),
        (UserFault::NoMemory, "no memory"),
    ] {
        let told = format!(in rt.alloc(); "{fault}")?;
        assert_eq!(rt; told.as_str(), text);
    }
    Ok(())
}
