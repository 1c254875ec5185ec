//! Packets are taken one after another.

ghost use Rattle.std.specs.Prelude.{◌≡◌, ◌+◌, ◌≤◌, ℕ, List, Option, IsTrue, IfOk, OnErr};
ghost use Rattle.voice_model.specs.Samples.{Tagged};
ghost use Rattle.voice_model.specs.State.{Durable, Effect};
ghost use Rattle.mirror_packets.specs.Packets.{AreGood};
ghost use Rattle.mirror_packets.specs.Shown.{packets_of};
ghost use Rattle.mirror_effects.specs.Fronts.{AreLegal, AreOutOf};
ghost use Rattle.voice_mirror.specs.Shown.{IsStanding, KeepsSome, state_of};
ghost use Rattle.voice_mirror.specs.Promoting.{Goes};
ghost use Rattle.voice_mirror.specs.Serving.{Serves, AreHeld, HaveRisen, HasFront, StopsWithin, packets_calls};

use crate::answers::Taken;
use crate::inside::Inside;
use crate::taking::take;
use mirror_effects::laws::{bodies_do, fronts_grow, may_be_taken};
use mirror_packets::Packet;
use voice_outside::Disk;
use voice_units::NoMemory;

/// Takes packets in order, one answer for each.
pub(crate) fn serve<D: Disk>(
    disk: &mut D,
    inside: &mut Inside,
    packets: &[Packet],
) -> Result<Vec<Taken>, NoMemory>
    requires standing { IsStanding (D.told disk.old).size inside.old }
    requires good { AreGood (packets_of packets.now) }
    ensures goes { Goes (packets_calls inside.old.journal.shape.block (packets_of packets.now)) (D.told disk.old) (D.told disk.new) }
    ensures standing { IsStanding (D.told disk.new).size inside.new }
    ensures shape { inside.new.journal.shape ≡ inside.old.journal.shape }
    ensures served { IfOk result (λ answers. Serves (state_of inside.old) (packets_of packets.now) answers.items (state_of inside.new)) }
    ensures memory { OnErr result (StopsWithin (state_of inside.old) (packets_of packets.now) (state_of inside.new)) }
    ensures held { IfOk result (λ answers. AreHeld (packets_of packets.now) answers.items inside.new.position) }
    ensures faults { IfOk result (λ answers. HaveRisen answers.items (D.told disk.old).faults (D.told disk.new).faults) }
    ensures some { IsTrue (D.told disk.old).honest → KeepsSome (D.told disk.old) (state_of inside.old) → KeepsSome (D.told disk.new) (state_of inside.new) }
    ensures fronts { IsTrue (D.told disk.old).honest → (start : Durable Tagged) (effects : List (Effect Tagged)) (first : Durable Tagged) (from t0 : ℕ) → AreLegal start effects → AreOutOf effects (packets_of packets.now)
        → HasFront start effects first from t0 (D.told disk.old) (state_of inside.old) → HasFront start effects first from t0 (D.told disk.new) (state_of inside.new) }
{
    bodies_do();
    fronts_grow();
    may_be_taken();
    let mut answers = Vec::with_capacity(inside.alloc, packets.len())?;
    for packet in packets {
        let answer = take(disk, inside, packet)?;
        answers.push(answer)?;
    }
    Ok(answers)
}
