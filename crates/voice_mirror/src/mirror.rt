//! The mirror.

ghost use Rattle.std.specs.Prelude.{◌≡◌, ◌+◌, ℕ, List, map, Option, None, IsTrue, IfOk, IfErr, IsErrAnd, OnErr};
ghost use Rattle.voice_outside.specs.Counters.{HasRisen};
ghost use Rattle.voice_journal.specs.Looks.{Looks, Since};
ghost use Rattle.voice_journal.specs.Opens.{IsBadAt};
ghost use Rattle.voice_journal.specs.Readings.{framed_size};
ghost use Rattle.voice_model.specs.Samples.{Tagged};
ghost use Rattle.voice_model.specs.State.{Durable, Effect};
ghost use Rattle.voice_model.specs.Spelling.{spelling};
ghost use Rattle.voice_model.specs.Base.{base_of};
ghost use Rattle.voice_model.specs.Replay.{Rebuilt};
ghost use Rattle.recovery.specs.declared.parts.Parts.{Parts};
ghost use Rattle.recovery.specs.Shown.{Rebuilds};
ghost use Rattle.mirror_packets.specs.Packets.{IsGoodPacket, AreGood};
ghost use Rattle.mirror_packets.specs.Shown.{packet_of, packets_of};
ghost use Rattle.mirror_readings.specs.Readings.{MirrorReading, mirror_reading};
ghost use Rattle.mirror_laws.specs.Standing.{Took};
ghost use Rattle.mirror_tables.specs.Numbered.{numbered_base_of, plain_size};
ghost use Rattle.mirror_effects.specs.Fronts.{AreLegal, AreOutOf};
ghost use Rattle.voice_mirror.specs.Shown.{IsOpened, IsRead, Keeps, KeepsSome};
ghost use Rattle.voice_mirror.specs.Taking.{settled, packet_calls, kept_then, size_then, Judges, TakesOr};
ghost use Rattle.voice_mirror.specs.Ready.{IsPut, IsOfDevice};
ghost use Rattle.voice_mirror.specs.Serving.{Serves, AreHeld, HaveRisen, HasFront, StopsWithin, packets_calls};
ghost use Rattle.voice_mirror.specs.Promoting.{Goes, JudgesPromotion, PromotesAs};
ghost use Rattle.voice_mirror.specs.Promoting as promoting;

use crate::answers::Taken;
use crate::discarding::discard_inside;
use crate::inside::Inside;
use crate::opening::open;
use crate::promoting::{PromoteError, promote};
use crate::serving::serve;
use crate::taking::take;
use mirror_packets::Packet;
use std::alloc::Global;
use std::marker::Model;
use std::snapshot::Snapshot;
use voice_journal::OpenError;
use voice_outside::Disk;
use voice_units::NoMemory;

/// A mirror over a disk: the tables that its numbered changes rebuild, and its position, the number of the last one. It is not let go: `close` and `promote` hand the disk back. Contracts see its state, the disk, and the disk as it was opened.
pub struct Mirror<D: Disk> {
    pub(crate) disk: D,
    pub(crate) origin: Snapshot<D>,
    pub(crate) inside: Inside,
}

impl<D: Disk> Model for Mirror<D> {
    ghost use Rattle.voice_mirror.specs.Shown.{Shown, IsWhole, state_of};

    ghost Value = { Shown D };

    ghost view = { λ m. record { disk = m.disk; origin = m.origin.value; state = state_of m.inside } };

    ghost invariant = { λ m. IsWhole (D.told m.origin.value) (D.told m.disk) m.inside };
}

impl<D: Disk> Mirror<D> {
    /// Opens the mirror of a disk. `BadDisk` comes exactly where the disk's bytes have damage, or are a disk of version 1, with the place. An `Err` hands the disk back. It makes at most 6 device calls, and changes nothing.
    pub fn open(alloc: Global, mut disk: D) -> Result<Mirror<D>, (OpenError, D)>
        ensures ok { IfOk result (λ m. (m.origin ≡ disk) × Looks 6 (D.told disk) (D.told m.disk)) }
        // What it keeps is what the disk's bytes mean.
        ensures reads { IfOk result (λ m. IsTrue (D.told disk).honest → IsOpened (D.told disk).bytes (D.told disk).calls (D.told m.disk) m.state) }
        ensures read { IfOk result (λ m. IsTrue (D.told disk).honest → IsRead (D.told disk).bytes m.state) }
        // From the first sync on, each crash leaves the bytes that were read.
        ensures since { IfOk result (λ m. IsTrue (D.told disk).honest → Since ((D.told disk).calls + 2) (D.told m.disk) (λ image. image ≡ (D.told disk).bytes)) }
        ensures looks { IfErr result (λ e. Looks 6 (D.told disk) (D.told e.1)) }
        ensures bad { IfErr result (λ e. (place : ℕ) → e.0 ≡ OpenError.BadDisk place → IsTrue (D.told disk).honest → mirror_reading (D.told disk).bytes ≡ MirrorReading.Bad place) }
        ensures damaged { IsTrue (D.told disk).honest → (place : ℕ) → mirror_reading (D.told disk).bytes ≡ MirrorReading.Bad place → IsErrAnd result (λ e. IsBadAt place e.0) }
        ensures fault { IfErr result (λ e. e.0 ≡ OpenError.DiskFault → HasRisen (D.told disk).faults (D.told e.1).faults) }
    {
        let origin = Snapshot::of(&disk);
        match open(alloc, &mut disk) {
            Ok(inside) => Ok(Mirror {
                disk,
                origin,
                inside,
            }),
            Err(e) => Err((e, disk)),
        }
    }

    /// The number of the last change that it has, 0 where there is none.
    pub fn position(&self) -> u64
        ensures { result ≡ self.now.state.position }
    {
        self.inside.position
    }

    /// Takes a packet. What is in doubt lands first; where that fails the answer is DiskFault. Then the first of these that holds is the answer: Again, Early, Strange, NoRoom, JournalFull; and else the change goes to the disk. After want of memory nothing of the packet is done or written. It makes at most 8 device calls, and one for each block of a voice file.
    pub fn take(&mut self, packet: &Packet) -> Result<Taken, NoMemory>
        requires { IsGoodPacket (packet_of packet.now) }
        ensures goes { Goes (packet_calls self.old.state.journal.shape.block (packet_of packet.now)) (D.told self.old.disk) (D.told self.new.disk) }
        ensures origin { self.new.origin ≡ self.old.origin }
        ensures shape { self.new.state.journal.shape ≡ self.old.state.journal.shape }
        ensures judges { IfOk result (λ answer. Judges self.old.state (packet_of packet.now) answer self.new.state) }
        // The bytes that the base needs then are those of the numbered base of any tables that show what is kept then.
        ensures need { (b x : Rebuilt) (parts : Parts) (n : ℕ) → Rebuilds parts x → x.kept ≡ kept_then b (packet_of packet.now).body → framed_size (numbered_base_of n x) ≡ size_then b (packet_of packet.now).body }
        ensures fault { IfOk result (λ answer. IsOfDevice answer → HasRisen (D.told self.old.disk).faults (D.told self.new.disk).faults) }
        ensures refused { IfOk result (λ answer. ¬ IsPut answer → self.old.state.pending ≡ None → self.new.disk ≡ self.old.disk) }
        ensures memory { OnErr result (self.new.state ≡ settled self.old.state) }
        ensures unwritten { OnErr result (self.old.state.pending ≡ None → self.new.disk ≡ self.old.disk) }
        // An honest disk stands for the changes that were taken, and so does whatever a crash leaves, at any moment.
        ensures takes { IsTrue (D.told self.old.disk).honest → (first : Durable Tagged) (from t0 : ℕ) (taken : List Took) (doubt : Option (Effect Tagged)) → Keeps first from t0 taken doubt (D.told self.old.disk) self.old.state
            → TakesOr first from t0 taken doubt (D.told self.new.disk) self.new.state (packet_of packet.now) result }
    {
        take(&mut self.disk, &mut self.inside, packet)
    }

    /// Takes packets in order, with one answer for each. Where memory wants, the packets before it stand. It makes at most the device calls of each.
    pub fn serve(&mut self, packets: &[Packet]) -> Result<Vec<Taken>, NoMemory>
        requires { AreGood (packets_of packets.now) }
        ensures goes { Goes (packets_calls self.old.state.journal.shape.block (packets_of packets.now)) (D.told self.old.disk) (D.told self.new.disk) }
        ensures origin { self.new.origin ≡ self.old.origin }
        ensures shape { self.new.state.journal.shape ≡ self.old.state.journal.shape }
        ensures served { IfOk result (λ answers. Serves self.old.state (packets_of packets.now) answers.items self.new.state) }
        ensures memory { OnErr result (StopsWithin self.old.state (packets_of packets.now) self.new.state) }
        // What was taken, now or before, the position has.
        ensures held { IfOk result (λ answers. AreHeld (packets_of packets.now) answers.items self.new.state.position) }
        ensures faults { IfOk result (λ answers. HaveRisen answers.items (D.told self.old.disk).faults (D.told self.new.disk).faults) }
        ensures some { IsTrue (D.told self.old.disk).honest → KeepsSome (D.told self.old.disk) self.old.state → KeepsSome (D.told self.new.disk) self.new.state }
        // Packets out of a legal list leave a front of it, in any order, lost and repeated.
        ensures fronts { IsTrue (D.told self.old.disk).honest → (start : Durable Tagged) (effects : List (Effect Tagged)) (first : Durable Tagged) (from t0 : ℕ) → AreLegal start effects → AreOutOf effects (packets_of packets.now)
            → HasFront start effects first from t0 (D.told self.old.disk) self.old.state → HasFront start effects first from t0 (D.told self.new.disk) self.new.state }
    {
        serve(&mut self.disk, &mut self.inside, packets)
    }

    /// Makes the mirror's disk a voice disk that has what the mirror has: what is in doubt lands first; then the base of all, without numbers, goes into the other area of the journal, and that area becomes current. From then on no mirror opens the disk. The first of these that holds is the reason where it isn't done: the landing failed, the epoch is spent, an area has no room for the base, there is no memory for it, the device failed. It makes at most 8 device calls.
    pub fn promote(self) -> (Result<(), PromoteError>, D)
        ensures goes { Goes 8 (D.told self.disk) (D.told result.1) }
        ensures judges { JudgesPromotion self.state result.0 }
        // The bytes needed are those of the base that is written.
        ensures need { (b : Rebuilt) → Rebuilds (settled self.state).parts b → plain_size (settled self.state).parts ≡ framed_size (map spelling (base_of 2 b)) }
        ensures unchanged { IfErr result.0 (λ e. ¬ promoting.IsOfDevice e → self.state.pending ≡ None → result.1 ≡ self.disk) }
        ensures fault { IfErr result.0 (λ e. promoting.IsOfDevice e → HasRisen (D.told self.disk).faults (D.told result.1).faults) }
        // An honest disk is that of a mirror, before it and whatever it comes to but Done.
        ensures had { IsTrue (D.told self.disk).honest → KeepsSome (D.told self.disk) self.state }
        ensures promotes { IsTrue (D.told self.disk).honest → (first : Durable Tagged) (from t0 : ℕ) (taken : List Took) (doubt : Option (Effect Tagged)) → Keeps first from t0 taken doubt (D.told self.disk) self.state
            → PromotesAs first from t0 taken doubt (D.told result.1) result.0 }
    {
        let Mirror {
            mut disk,
            origin: _,
            mut inside,
        } = self;
        let result = promote(&mut disk, &mut inside);
        discard_inside(inside);
        (result, disk)
    }

    /// Hands the disk back.
    pub fn close(self) -> D
        ensures { result ≡ self.disk }
    {
        let Mirror {
            disk,
            origin: _,
            inside,
        } = self;
        discard_inside(inside);
        disk
    }
}
