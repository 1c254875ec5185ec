//! A player's window, copied behind what was heard.

ghost use Rattle.std.specs.Prelude.{◌≡◌, IfOk};
ghost use Rattle.frame_pool.specs.Pool.{Identity};
ghost use Rattle.players.specs.Players.{IsOfPool};
ghost use Rattle.servings.specs.Copied.{IsToHear, HasCopied};

use players::{Player, Took};
use voice_units::NoMemory;

// How many samples are copied at a time.
const PIECE: usize = 2048;

/// Copies a window that is out, of which nothing was copied, behind what was heard: all of it, or less where the hint of a stop is seen. It waits for nobody.
pub fn hear_window(player: &mut Player, heard: &mut Vec<u8>) -> Result<(), NoMemory>
    requires window { IsToHear player.old }
    ensures lane { player.new.lane ≡ player.old.lane }
    ensures pool { (pool : Identity) → IsOfPool pool player.old.lease → IsOfPool pool player.new.lease }
    ensures ok { IfOk result (λ _. HasCopied player.old player.new heard.old.items heard.new.items) }
{
    let mut piece = [0u8; PIECE];
    while let Took::Samples(n) = player.next(&mut piece) {
        heard.extend_from_slice(&piece[..n])?;
    }
    Ok(())
}
