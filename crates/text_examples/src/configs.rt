//! Config texts, and the first faults of others.
use device_config::{ConfigFault, MediumKind, parse_config};
use std::test::Fail;

/// Each fault where it can come, and a part that is broken behind one that is.
#[test]
fn faults(rt: HostRuntime) -> Result<(), Fail> {
    let alloc = rt.alloc();
    for (text, want) in [
        ("tcm-user/0/d0/mem/64", None),
        ("tcm-user/65535/d0/file/a#b", None),
        ("tcm-user/0/d0/ro/mem/32768", None),
        ("tcm-user/0/d0/fail/1+2/file/a/b", None),
        ("x/y/z:w", Some(ConfigFault::Colon(5))),
        ("", Some(ConfigFault::Prefix)),
        ("tcm-user", Some(ConfigFault::Prefix)),
        ("tcm-user/", Some(ConfigFault::Hba)),
        ("tcm-user/00/d0/mem/64", Some(ConfigFault::Hba)),
        ("tcm-user/65536/0d/mem/64", Some(ConfigFault::Hba)),
        ("tcm-user/0/d0", Some(ConfigFault::Name)),
        ("tcm-user/0/0d/tape/64", Some(ConfigFault::Name)),
        ("tcm-user/0/d0/mem", Some(ConfigFault::Subtype)),
        ("tcm-user/0/d0/tape/0", Some(ConfigFault::Subtype)),
        ("tcm-user/0/d0/mem/", Some(ConfigFault::Path)),
        ("tcm-user/0/d0/mem/064", Some(ConfigFault::Path)),
        ("tcm-user/0/d0/mem/32769", Some(ConfigFault::Path)),
        ("tcm-user/0/d0/file/", Some(ConfigFault::Path)),
        ("tcm-user/0/d0/file/a b", Some(ConfigFault::Path)),
        ("tcm-user/0/d0/ro/ro/mem/64", Some(ConfigFault::Path)),
        ("tcm-user/0/d0/fail//mem/64", Some(ConfigFault::Path)),
        ("tcm-user/0/d0/fail/1+1/mem/64", Some(ConfigFault::Path)),
        ("tcm-user/0/d0/fail/1000001/mem/64", Some(ConfigFault::Path)),
    ] {
        let got = parse_config(alloc, text).err();
        assert_eq!(rt; got, want, "{text}");
    }
    Ok(())
}

#[test]
fn parts(rt: HostRuntime) -> Result<(), Fail> {
    let alloc = rt.alloc();
    let Ok(config) = parse_config(alloc, "tcm-user/7/d0/fail/2+5/mem/64") else {
        panic!(rt; "no config");
    };
    assert_eq!(rt; config.hba, 7);
    assert_eq!(rt; config.name.as_bytes(), b"d0".as_slice());
    assert_eq!(rt; config.fails.as_slice(), &[2u64, 5][..]);
    assert!(rt; matches!(&config.kind, MediumKind::Memory(64)));
    Ok(())
}
