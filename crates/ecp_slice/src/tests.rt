mod messages;

use super::*;
use std::process::Abort;
use std::test::Fail;
use std::thread::{Threads, join};

#[test]
fn the_first_reason_stays(rt: HostRuntime) -> Result<(), Fail> {
    let mut one = Cancel::new(rt.alloc())?;
    assert!(rt; one.known() == 0 && one.read() == 0 && !one.wrote());
    let mut two = one.copy()?;
    assert!(rt; two.known() == 0 && !two.wrote());
    assert_eq!(rt; one.set(HELPER_LOST), 0);
    assert!(rt; one.known() == 1 && one.wrote());
    assert!(rt; two.known() == 0);
    assert_eq!(rt; two.set(ATTEMPT_REPLACED), 1);
    assert!(rt; two.known() == 1 && !two.wrote());
    assert_eq!(rt; (one.read(), two.read()), (1, 1));
    let three = one.copy()?;
    assert!(rt; three.known() == 1 && !three.wrote() && one.wrote());
    Ok(())
}

#[test]
fn the_reasons_are_1_to_4(rt: HostRuntime) -> Result<(), Fail> {
    let reasons = [HELPER_LOST, STORE_FAILED, ATTEMPT_REPLACED, CALL_ENDED];
    assert_eq!(rt; reasons, [1, 2, 3, 4]);
    Ok(())
}

#[test]
fn a_handle_on_another_thread_learns_the_reason(rt: HostRuntime) -> Result<(), Fail> {
    let here = Cancel::new(rt.alloc())?;
    learnt_elsewhere(&rt, here)
}

fn learnt_elsewhere<R: Threads + Abort + Sync>(rt: &R, mut here: Cancel) -> Result<(), Fail> {
    let there = here.copy()?;
    let ((mut here, found), (mut there, first)) = join(
        rt,
        move || with_reason(here),
        move || with_look(there),
    );
    assert!(rt; found == 0 && here.wrote() && !there.wrote());
    assert!(rt; first == 0 || first == STORE_FAILED);
    assert_eq!(rt; (here.read(), there.read()), (STORE_FAILED, STORE_FAILED));
    Ok(())
}

fn with_reason(mut handle: Cancel) -> (Cancel, u64) {
    let found = handle.set(STORE_FAILED);
    (handle, found)
}

fn with_look(mut handle: Cancel) -> (Cancel, u64) {
    let found = handle.read();
    (handle, found)
}
