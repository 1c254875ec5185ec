use crate::{Hall, Tally, heard_while_filling, run_all};
use frame_pool::Pool;
use std::test::Fail;
use turnstile::Turnstile;

// A lease is copied on one thread while another fills the next frame.
#[test]
fn a_lease_is_heard_while_a_frame_is_filled(rt: HostRuntime) -> Result<(), Fail> {
    let Ok((_pool, keeper)) = Pool::new(rt.alloc(), 2, 8) else {
        panic!(rt; "memory")
    };
    let Ok(block) = Vec::from_slice(rt.alloc(), b"abcdefgh") else {
        panic!(rt; "memory")
    };
    let Ok(other) = Vec::from_slice(rt.alloc(), b"ABCDEFGH") else {
        panic!(rt; "memory")
    };
    let Ok(made) = heard_while_filling(&rt, rt.alloc(), keeper, block, other) else {
        panic!(rt; "memory")
    };
    let (_keeper, _lease, heard) = made;
    assert!(rt; heard == *b"abcdefgh");
    Ok(())
}

// Sixteen callers take five hundred turns each, and each turn adds one entry.
#[test]
fn entries_of_sixteen_callers_add_up(rt: HostRuntime) -> Result<(), Fail> {
    let tally = Tally {
        start: 5,
        total: 5,
        history: Vec::new(rt.alloc()),
    };
    let (turnstile, mut passes) = match Turnstile::new(rt.alloc(), tally, 16) {
        Ok(made) => made,
        Err(refused) => {
            drop(refused);
            panic!(rt; "memory")
        }
    };
    let hall = Hall { turnstile };
    run_all(&rt, &hall, passes.as_mut_slice(), 500);
    let Hall { turnstile } = hall;
    let tally = turnstile.close(passes);
    assert!(rt; tally.total == 8005 && tally.history.len() == 8000);
    for caller in 1..17 {
        let made = tally
            .history
            .iter()
            .filter(|entry| entry.caller == caller)
            .count();
        assert!(rt; made == 500);
    }
    Ok(())
}
