//! Players of a pool of one lane.

ghost use Rattle.std.specs.Prelude.{◌≡◌, IfOk};
ghost use Rattle.frame_pool.specs.Pool.{lanes_of};

use crate::{Player, Took};
use frame_pool::{Keeper, Part, Pool};
use std::alloc::Global;
use std::test::Fail;
use voice_units::{Lane, NoMemory};

const WINDOW: [Part; 2] = [
    Part {
        frame: 0,
        from: 2,
        len: 6,
    },
    Part {
        frame: 1,
        from: 0,
        len: 4,
    },
];

// A keeper whose first two frames have letters, and a player that hears ten of them.
fn playing(alloc: Global) -> Result<(Keeper, Player), NoMemory>
    ensures { IfOk result (λ r. lanes_of r.0 ≡ 1) }
{
    let (_pool, mut keeper) = Pool::new(alloc, 1, 8)?;
    let mut room = Vec::from_slice(alloc, b"abcdefgh")?;
    keeper.fill(0, &mut room);
    room.copy_from_slice(b"ijklmnop");
    keeper.fill(1, &mut room);
    let lease = keeper.grant(alloc, Lane(0), &WINDOW)?;
    let mut player = Player::new(Lane(0));
    player.hear(lease);
    Ok((keeper, player))
}

#[test]
fn a_player_copies_its_window(rt: HostRuntime) -> Result<(), Fail> {
    let (_keeper, mut player) = playing(rt.alloc())?;
    let mut out = [b'.'; 7];
    assert_eq!(rt; player.next(&mut out), Took::Samples(7));
    assert!(rt; out == *b"cdefghi");
    assert_eq!(rt; player.next(&mut out), Took::Samples(3));
    assert!(rt; out == *b"jklfghi");
    assert_eq!(rt; player.next(&mut out), Took::Dry);
    assert!(rt; out == *b"jklfghi" && player.copied() == 10);
    Ok(())
}

#[test]
fn a_stop_is_heard(rt: HostRuntime) -> Result<(), Fail> {
    let (mut keeper, mut player) = playing(rt.alloc())?;
    let mut out = [b'.'; 8];
    assert_eq!(rt; player.next(&mut out), Took::Samples(8));
    keeper.hint(Lane(0), true);
    assert_eq!(rt; player.next(&mut out), Took::Hinted);
    assert!(rt; out == *b"cdefghij" && player.copied() == 8);
    assert!(rt; player.has_window());
    Ok(())
}

// All of the window was copied, so the hint isn't looked at.
#[test]
fn a_stop_behind_the_window_is_not_heard(rt: HostRuntime) -> Result<(), Fail> {
    let (mut keeper, mut player) = playing(rt.alloc())?;
    let mut out = [b'.'; 16];
    assert_eq!(rt; player.next(&mut out), Took::Samples(10));
    keeper.hint(Lane(0), true);
    assert_eq!(rt; player.next(&mut out), Took::Dry);
    Ok(())
}

#[test]
fn a_player_hangs_up(rt: HostRuntime) -> Result<(), Fail> {
    let (mut keeper, mut player) = playing(rt.alloc())?;
    let mut out = [b'.'; 4];
    assert_eq!(rt; player.next(&mut out), Took::Samples(4));
    player.hang_up();
    player.hang_up();
    assert_eq!(rt; player.next(&mut out), Took::Dry);
    assert!(rt; keeper.observe(Lane(0)) && player.copied() == 4);
    let Some(lease) = player.hand_out() else {
        return Err(Fail::from(NoMemory));
    };
    assert!(rt; !lease.live() && !player.has_window());
    player.keep(lease);
    assert!(rt; player.has_window() && player.copied() == 4);
    assert_eq!(rt; Player::new(Lane(0)).next(&mut out), Took::Dry);
    Ok(())
}
