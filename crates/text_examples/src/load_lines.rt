//! Lines of loads, worked out by hand.
use load_run::load_line;
use std::test::Fail;

#[test]
fn no_command(rt: HostRuntime) -> Result<(), Fail> {
    let line = load_line(rt.alloc(), 0, 0)?;
    assert_eq!(rt;
        line.as_slice(),
        b"load 0 0 queued 0 good 0 bytes 0 open 0\n".as_slice()
    );
    Ok(())
}

#[test]
fn one_command(rt: HostRuntime) -> Result<(), Fail> {
    let line = load_line(rt.alloc(), 0, 1)?;
    assert_eq!(rt;
        line.as_slice(),
        b"load 0 1 queued 1 good 1 bytes 1024 open 0\n".as_slice()
    );
    Ok(())
}
