use super::traces::listing;
use std::process::Abort;
use std::test::Fail;

fn lists(rt: &(impl Abort + AllocGlobal), trace: &[u8], lines: &str) -> Result<(), Fail> {
    let given = listing(rt.alloc(), trace)?;
    assert!(rt; given.as_slice() == lines.as_bytes());
    Ok(())
}

#[test]
fn lengths(rt: HostRuntime) -> Result<(), Fail> {
    lists(&rt, &[], "0 fault 16\n")?;
    lists(&rt, &[0xF0, 0, 0], "0 fault 16\n")?;
    lists(&rt, &[0xF0, 0, 0, 1], "")?;
    lists(&rt, &[0xF0, 0, 0, 1, 0], "0 fault 16\n")?;
    lists(&rt, &[0; 16_384], "0 fault 17\n")?;
    lists(&rt, &[0; 16_388], "0 fault 16\n")
}

#[test]
fn heads(rt: HostRuntime) -> Result<(), Fail> {
    lists(&rt, &[0xF0, 0, 0, 0], "0 fault 17\n")?;
    lists(&rt, &[0xF0, 0, 0, 4], "")?;
    lists(&rt, &[0xF0, 0, 0, 5], "0 fault 17\n")?;
    lists(&rt, &[0xF0, 0, 1, 1], "0 fault 17\n")?;
    lists(&rt, &[0xE0, 0, 0, 1], "0 fault 17\n")
}

#[test]
fn a_fault_ends_the_run(rt: HostRuntime) -> Result<(), Fail> {
    let trace = [
        0xF0, 0, 0, 2, 0x10, 0x30, 0, 0, 0xF0, 0, 0, 2, 0x20, 0x10, 0, 0,
    ];
    lists(&rt, &trace, "1 open ok\n2 fault 18\n")
}
