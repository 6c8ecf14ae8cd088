//! The bytes of each page and of both capacities, as SPC-4 and SBC-3 lay them out.
use inquiry_pages::{capacity10, capacity16, mode_sense, report_luns, standard_inquiry, vpd_page};
use std::test::Fail;
use tcmu_types::Name;

#[test]
fn capacities(rt: HostRuntime) -> Result<(), Fail> {
    assert_eq!(rt; capacity10(64), [0, 0, 0, 0x3f, 0, 0, 2, 0]);
    assert_eq!(rt;
        capacity10(4_294_967_296),
        [0xff, 0xff, 0xff, 0xff, 0, 0, 2, 0]
    );
    assert_eq!(rt;
        capacity10(4_294_967_297),
        [0xff, 0xff, 0xff, 0xff, 0, 0, 2, 0]
    );
    let data = capacity16(4_294_967_297);
    assert_eq!(rt;
        &data[..12],
        [0, 0, 0, 1, 0, 0, 0, 0, 0, 0, 2, 0].as_slice()
    );
    assert!(rt; data[12..].iter().all(|byte| *byte == 0));
    Ok(())
}

#[test]
fn standard_data(rt: HostRuntime) -> Result<(), Fail> {
    let data = standard_inquiry();
    assert_eq!(rt;
        &data[..8],
        [0x00, 0x00, 0x05, 0x02, 0x1f, 0, 0, 0].as_slice()
    );
    assert_eq!(rt; &data[8..], b"RTLTCMU ring disk       0001".as_slice());
    Ok(())
}

#[test]
fn vital_product_data(rt: HostRuntime) -> Result<(), Fail> {
    let alloc = rt.alloc();
    let name = Name::new("d0").ok_or("a name")?;
    let pages = vpd_page(alloc, &name, 0x00)?;
    assert_eq!(rt;
        pages.as_slice(),
        [0x00, 0x00, 0x00, 0x04, 0x00, 0x80, 0x83, 0xb0].as_slice()
    );
    let serial = vpd_page(alloc, &name, 0x80)?;
    assert_eq!(rt; serial.as_slice(), b"\x00\x80\x00\x02d0".as_slice());
    let designator = vpd_page(alloc, &name, 0x83)?;
    assert_eq!(rt;
        designator.as_slice(),
        b"\x00\x83\x00\x0e\x02\x01\x00\x0aRTLTCMU d0".as_slice()
    );
    let limits = vpd_page(alloc, &name, 0xb0)?;
    let limits = limits.as_slice();
    assert_eq!(rt; limits.len(), 64);
    assert_eq!(rt;
        &limits[..6],
        [0x00, 0xb0, 0x00, 0x3c, 0x01, 0xff].as_slice()
    );
    assert_eq!(rt;
        &limits[20..28],
        [0x00, 0x00, 0x80, 0x00, 0x00, 0x00, 0x01, 0x00].as_slice()
    );
    assert_eq!(rt; &limits[36..44], [0, 0, 0, 0, 0, 0, 0x08, 0x00].as_slice());
    assert_eq!(rt; limits.iter().filter(|byte| **byte != 0).count(), 7);
    Ok(())
}

#[test]
fn mode_data(rt: HostRuntime) -> Result<(), Fail> {
    let alloc = rt.alloc();
    let caching = mode_sense(alloc, 0x08, false)?;
    assert_eq!(rt; caching.len(), 24);
    assert_eq!(rt;
        &caching.as_slice()[..6],
        [0x17, 0x00, 0x00, 0x00, 0x08, 0x12].as_slice()
    );
    let control = mode_sense(alloc, 0x0a, true)?;
    assert_eq!(rt; control.len(), 16);
    assert_eq!(rt;
        &control.as_slice()[..6],
        [0x0f, 0x00, 0x80, 0x00, 0x0a, 0x0a].as_slice()
    );
    let both = mode_sense(alloc, 0x3f, true)?;
    assert_eq!(rt; both.len(), 36);
    assert_eq!(rt;
        &both.as_slice()[..6],
        [0x23, 0x00, 0x80, 0x00, 0x08, 0x12].as_slice()
    );
    assert_eq!(rt; &both.as_slice()[24..26], [0x0a, 0x0a].as_slice());
    Ok(())
}

#[test]
fn logical_units(rt: HostRuntime) -> Result<(), Fail> {
    let alloc = rt.alloc();
    let units = report_luns(alloc, 0)?;
    assert_eq!(rt;
        units.as_slice(),
        [0, 0, 0, 8, 0, 0, 0, 0, 0, 0, 0, 0, 0, 0, 0, 0].as_slice()
    );
    let well_known = report_luns(alloc, 1)?;
    assert_eq!(rt; well_known.as_slice(), [0, 0, 0, 0, 0, 0, 0, 0].as_slice());
    Ok(())
}
