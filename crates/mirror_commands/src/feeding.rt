//! Packets are fed to the mirror of a disk.

ghost use Rattle.std.specs.Prelude.{ℕ, ◌≡◌, IfOk, IfErr, IsErrAnd, IsTrue};
ghost use Rattle.voice_outside.specs.Counters.{HasRisen};
ghost use Rattle.voice_journal.specs.Looks.{Looks};
ghost use Rattle.voice_journal.specs.Opens.{IsBadAt};
ghost use Rattle.mirror_packets.specs.Packets.{AreGood};
ghost use Rattle.mirror_packets.specs.Shown.{packets_of};
ghost use Rattle.mirror_readings.specs.Readings.{MirrorReading, mirror_reading};
ghost use Rattle.mirror_commands.specs.Feeding.{GoesOn, IsBounded, IsNoMirrorAt, IsTold, ServesFronts, Stays, Tells};
ghost use Rattle.voice_mirror.specs.Promoting.{Goes};
ghost use Rattle.voice_mirror.specs.Serving.{packets_calls};

use crate::texts::text_of;
use mirror_effects::laws::fronts_grow;
use mirror_packets::Packet;
use std::alloc::Global;
use voice_mirror::{Mirror, OpenError};
use voice_outside::Disk;
use voice_units::NoMemory;

// Serves packets to a mirror, and tells what became of them.
fn told<D: Disk>(
    alloc: Global,
    mirror: &mut Mirror<D>,
    packets: &[Packet],
) -> Result<Vec<u8>, NoMemory>
    requires { AreGood (packets_of packets.now) }
    ensures goes { Goes (packets_calls mirror.old.state.journal.shape.block (packets_of packets.now)) (D.told mirror.old.disk) (D.told mirror.new.disk) }
    ensures told { IfOk result (λ text. IsTold (packets_of packets.now) text.items (D.told mirror.old.disk) (D.told mirror.new.disk) mirror.old.state mirror.new.state) }
    ensures fronts { ServesFronts (packets_of packets.now) (D.told mirror.old.disk) (D.told mirror.new.disk) mirror.old.state mirror.new.state }
{
    let answers = mirror.serve(packets)?;
    text_of(alloc, packets, &answers, mirror.position())
}

/// Opens the mirror of a disk, serves it packets in order, and tells what became of each, and the position behind them. `BadDisk` comes exactly where the disk's bytes are no mirror's, with the place of the damage, and `DiskFault` where the device failed as the disk was opened; a fault behind that is the answer to a packet. Where memory wants, the packets before it stand. The disk is handed back. It makes at most 6 device calls, and for each packet 8 and one for each block of a voice file.
pub fn feed<D: Disk>(alloc: Global, packets: &[Packet], disk: D) -> (Result<Vec<u8>, OpenError>, D)
    requires { AreGood (packets_of packets.now) }
    ensures goes { GoesOn (D.told disk) (D.told result.1) }
    ensures calls { IsBounded (packets_of packets.now) (D.told disk) (D.told result.1) }
    ensures tells { IfOk result.0 (λ text. Tells (packets_of packets.now) text.items (D.told disk) (D.told result.1)) }
    ensures bad { IfErr result.0 (λ e. (place : ℕ) → e ≡ OpenError.BadDisk place → IsNoMirrorAt (D.told disk) place) }
    ensures damaged { IsTrue (D.told disk).honest → (place : ℕ) → mirror_reading (D.told disk).bytes ≡ MirrorReading.Bad place → IsErrAnd result.0 (IsBadAt place) }
    ensures fault { IfErr result.0 (λ e. e ≡ OpenError.DiskFault → HasRisen (D.told disk).faults (D.told result.1).faults) }
    // Where it is not opened the disk was only looked at.
    ensures looked { IfErr result.0 (λ e. ¬ (e ≡ OpenError.NoMemory) → Looks 6 (D.told disk) (D.told result.1)) }
    ensures stays { Stays (packets_of packets.now) (D.told disk) (D.told result.1) }
{
    fronts_grow();
    let mut mirror = match Mirror::open(alloc, disk) {
        Ok(mirror) => mirror,
        Err((e, disk)) => return (Err(e), disk),
    };
    let told = told(alloc, &mut mirror, packets);
    let disk = mirror.close();
    match told {
        Ok(text) => (Ok(text), disk),
        Err(NoMemory) => (Err(OpenError::NoMemory), disk),
    }
}
