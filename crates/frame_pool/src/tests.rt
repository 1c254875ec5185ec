ghost use Rattle.std.specs.Prelude.{◌≡◌, ◌≤◌, true};

use crate::{Lease, Part, Pool};
use voice_units::{Lane, NoMemory};

// A lease reads what was granted, is released and taken back, and its frame is filled anew.
#[test]
fn a_frame_is_granted_again(rt: HostRuntime) -> Result<(), NoMemory> {
    let (_pool, mut keeper) = Pool::new(rt.alloc(), 1, 8)?;
    let mut room = Vec::from_slice(rt.alloc(), b"abcdefgh")?;
    keeper.fill(0, &mut room);
    let parts = [Part {
        frame: 0,
        from: 2,
        len: 5,
    }];
    let mut lease = keeper.grant(rt.alloc(), Lane(0), &parts)?;
    let mut out = [0u8; 8];
    assert!(rt; lease.lane() == Lane(0) && lease.len() == 5 && lease.live());
    assert!(rt; lease.copy(0, &mut out) == 5 && out == *b"cdefg\0\0\0");
    let mut one = [0u8];
    assert!(rt; lease.copy(4, &mut one) == 1 && one == *b"g");
    assert!(rt; lease.copy(5, &mut one) == 0);
    assert!(rt; !keeper.observe(Lane(0)));
    assert!(rt; !lease.hinted());
    keeper.hint(Lane(0), true);
    assert!(rt; lease.hinted());
    lease.release();
    let over = keeper.observe(Lane(0));
    assert!(rt; over && !lease.live() && !lease.taken_back());
    room.copy_from_slice(b"ABCDEFGH");
    keeper.fill(0, &mut room);
    keeper.take_back(&mut lease);
    assert!(rt; lease.taken_back() && !lease.live() && lease.len() == 5);
    keeper.take_back(&mut lease);
    let mut lease = keeper.grant(rt.alloc(), Lane(0), &parts)?;
    assert!(rt; !lease.hinted());
    assert!(rt; lease.copy(0, &mut out) == 5 && out == *b"CDEFG\0\0\0");
    keeper.take_back(&mut lease);
    Ok(())
}

// What a lease has from `at` on, with dots behind its end.
fn copied<const N: usize>(lease: &mut Lease, at: u32) -> [u8; N]
    requires { (lease.old.live ≡ true) × (at ≤ lease.old.len) }
    ensures { lease.new ≡ lease.old }
{
    let mut out = [b'.'; N];
    lease.copy(at, &mut out);
    out
}

// Each copy goes over several parts.
#[test]
fn parts_are_copied_in_order(rt: HostRuntime) -> Result<(), NoMemory> {
    let (_pool, mut keeper) = Pool::new(rt.alloc(), 2, 24)?;
    let mut room = Vec::from_slice(rt.alloc(), b"abcdefghijklmnopqrstuvwx")?;
    keeper.fill(1, &mut room);
    room.copy_from_slice(b"ABCDEFGHIJKLMNOPQRSTUVWX");
    keeper.fill(6, &mut room);
    let parts = [
        Part {
            frame: 1,
            from: 3,
            len: 20,
        },
        Part {
            frame: 6,
            from: 0,
            len: 24,
        },
        Part {
            frame: 1,
            from: 0,
            len: 2,
        },
        Part {
            frame: 6,
            from: 9,
            len: 5,
        },
    ];
    let mut lease = keeper.grant(rt.alloc(), Lane(1), &parts)?;
    assert!(rt; copied(&mut lease, 0) == *b"defghijklmnopqrstuvwABCDEFGHIJKLMNOPQRSTUVWXabJKLMN");
    assert!(rt; copied(&mut lease, 0) == *b"d");
    assert!(rt; copied(&mut lease, 5) == *b"ijklmnop");
    assert!(rt; copied(&mut lease, 5) == *b"ijklmnopqrstuvwA");
    assert!(rt; copied(&mut lease, 13) == *b"qrstuvwABCDEFGHIJKLM");
    assert!(rt; copied(&mut lease, 43) == *b"XabJKLMN");
    assert!(rt; copied(&mut lease, 50) == *b"N...");
    keeper.take_back(&mut lease);
    Ok(())
}
