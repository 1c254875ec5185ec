//! A job of play, heard by the caller who asks for its windows.

ghost use Rattle.std.specs.Prelude.{◌≡◌, true};
ghost use Rattle.voice_model.specs.State.{State};
ghost use Rattle.voice_store.specs.Shown.{Keeps};

use frame_pool::Lease;
use lane_calls::Fed;
use std::alloc::Global;
use voice_outside::Disk;
use voice_store::Store;
use voice_units::{Lane, NoMemory};

// More windows than a passage on a disk of 16 blocks has.
const WINDOWS: u32 = 128;

// Puts the samples of a window behind those that were heard.
fn take_in(alloc: Global, lease: &mut Lease, heard: &mut Vec<u8>) -> Result<(), NoMemory>
    requires { lease.old.live ≡ true }
    ensures same { lease.new ≡ lease.old }
{
    let mut window = vec![in alloc; 0u8; lease.len() as usize]?;
    let _all = lease.copy(0, &mut window);
    heard.extend_from_slice(&window)?;
    Ok(())
}

/// What is heard of a lane's first job: window after window, each brought back once all of it was heard, until the job is over or a read fails. After `NoMemory` a window may be out, which its lease brings back.
pub fn hear<D: Disk>(
    alloc: Global,
    store: &mut Store<D>,
    caller: u16,
    lane: Lane,
) -> Result<Vec<u8>, NoMemory>
    ensures state { (first : State) → Keeps D.told first store.old → Keeps D.told first store.new }
{
    let mut heard = Vec::new(alloc);
    let mut fed = store.feed(caller, lane)?;
    for _ in 0..WINDOWS {
        let Fed::Window(_at, mut lease) = fed else {
            break;
        };
        take_in(alloc, &mut lease, &mut heard)?;
        let all = lease.len();
        fed = store.serve(caller, &mut lease, all)?;
    }
    Ok(heard)
}
