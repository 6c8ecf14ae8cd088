//! Devices by name and by number: each public function once on its happy path.
use device_set::DeviceSet;
use std::test::Fail;
use tcmu_types::Name;

/// A set of devices, which here are words, under their names.
fn three(rt: &HostRuntime) -> Result<DeviceSet<&'static str>, Fail> {
    let mut set = DeviceSet::new(rt.alloc());
    for (text, device) in [("d0", "disk"), ("d1", "tape"), ("a", "changer")] {
        let name = Name::new(text).ok_or("a name")?;
        if set.position(&name).is_none() && set.len() < 3 {
            set.add(name, device).map_err(|_| "no memory")?;
        }
    }
    Ok(set)
}

#[test]
fn devices_have_names_and_numbers(rt: HostRuntime) -> Result<(), Fail> {
    let set = three(&rt)?;
    assert_eq!(rt; set.len(), 3);
    for (text, at) in [
        ("d0", Some(0u32)),
        ("d1", Some(1)),
        ("a", Some(2)),
        ("d2", None),
    ] {
        let name = Name::new(text).ok_or("a name")?;
        assert_eq!(rt; set.position(&name), at, "{text}");
    }
    if set.len() == 3 {
        assert_eq!(rt; *set.get(0), "disk");
        assert_eq!(rt; *set.get(2), "changer");
    }
    Ok(())
}

#[test]
fn a_changed_device_keeps_its_name(rt: HostRuntime) -> Result<(), Fail> {
    let mut set = three(&rt)?;
    let name = Name::new("d1").ok_or("a name")?;
    if 1 < set.len() {
        *set.get_mut(1) = "another tape";
    }
    assert_eq!(rt; set.position(&name), Some(1));
    if 1 < set.len() {
        assert_eq!(rt; *set.get(1), "another tape");
    }
    Ok(())
}

#[test]
fn the_last_device_is_taken_out_first(rt: HostRuntime) -> Result<(), Fail> {
    let mut set = three(&rt)?;
    for device in [Some("changer"), Some("tape"), Some("disk"), None] {
        assert_eq!(rt; set.pop(), device);
    }
    assert_eq!(rt; set.len(), 0);
    Ok(())
}
