//! Talk and peaks of ropes.

ghost use Rattle.std.specs.Prelude.{◌≡◌, ℕ, ◌+◌, ◌≤◌, ◌^◌, length, IfOk, IsErrOf, IsTrue};
ghost use Rattle.voice_units.specs.Layout.{bytes_needed};
ghost use Rattle.voice_units.specs.Blocks.{BlockPair};
ghost use Rattle.voice_units.specs.Spots.{spots_of, samples_in, stretches};
ghost use Rattle.voice_model.specs.Talk.{talk, peaks};
ghost use Rattle.voice_outside.specs.Counters.{HasRisen};
ghost use Rattle.listening.specs.Looks.{Looked};
ghost use Rattle.listening.specs.Heard.{HavePlaces, ArePlaces, bytes_on};

use crate::stretches::hear_rope;
use crate::unheard::Unheard;
use rope_algebra::Pieces;
use silence_scan::{Leveller, Scanner};
use std::alloc::Global;
use voice_blocks::BlockMap;
use voice_model::{PeakList, TalkList};
use voice_outside::Disk;
use voice_units::Shape;

/// Where there is talk in a rope, whose blocks are read off a disk one at a time. The rope is not copied.
pub fn talk_of<D: Disk>(
    alloc: Global,
    disk: &mut D,
    shape: &Shape,
    blocks: &BlockMap,
    pieces: &Pieces,
) -> Result<TalkList, Unheard>
    requires fits { bytes_needed shape.now.block shape.now.blocks shape.now.area ≤ (D.told disk.old).size }
    requires count { length blocks.now.holders ≡ shape.now.blocks }
    requires placed { HavePlaces shape.now.block blocks.now.holders (spots_of pieces.now) }
    requires most { samples_in pieces.now ≤ 2 ^ 30 }
    ensures looked { Looked (length (stretches shape.now.block (spots_of pieces.now))) (D.told disk.old) (D.told disk.new) }
    ensures empty { samples_in pieces.now ≡ 0 → disk.new ≡ disk.old }
    ensures cause { IsErrOf result Unheard.DiskFault → HasRisen (D.told disk.old).faults (D.told disk.new).faults }
    ensures some { IsErrOf result Unheard.DiskFault → 1 ≤ samples_in pieces.now }
    ensures answer { IsTrue (D.told disk.old).honest → IfOk result (λ found. (address : BlockPair → ℕ) → ArePlaces shape.now.block blocks.now.holders (spots_of pieces.now) address → found ≡ talk (bytes_on (D.told disk.old).bytes shape.now address (spots_of pieces.now))) }
{
    let mut scanner = Scanner::new(alloc);
    hear_rope(alloc, &mut scanner, disk, shape, blocks, pieces)?;
    let talk = scanner.finish()?;
    Ok(talk)
}

/// The greatest loudness of each window of a rope, whose blocks are read off a disk one at a time. The rope is not copied.
pub fn peaks_of<D: Disk>(
    alloc: Global,
    disk: &mut D,
    shape: &Shape,
    blocks: &BlockMap,
    pieces: &Pieces,
) -> Result<PeakList, Unheard>
    requires fits { bytes_needed shape.now.block shape.now.blocks shape.now.area ≤ (D.told disk.old).size }
    requires count { length blocks.now.holders ≡ shape.now.blocks }
    requires placed { HavePlaces shape.now.block blocks.now.holders (spots_of pieces.now) }
    requires most { samples_in pieces.now ≤ 2 ^ 30 }
    ensures looked { Looked (length (stretches shape.now.block (spots_of pieces.now))) (D.told disk.old) (D.told disk.new) }
    ensures empty { samples_in pieces.now ≡ 0 → disk.new ≡ disk.old }
    ensures cause { IsErrOf result Unheard.DiskFault → HasRisen (D.told disk.old).faults (D.told disk.new).faults }
    ensures some { IsErrOf result Unheard.DiskFault → 1 ≤ samples_in pieces.now }
    ensures answer { IsTrue (D.told disk.old).honest → IfOk result (λ found. (address : BlockPair → ℕ) → ArePlaces shape.now.block blocks.now.holders (spots_of pieces.now) address → found ≡ peaks (bytes_on (D.told disk.old).bytes shape.now address (spots_of pieces.now))) }
{
    let mut leveller = Leveller::new(alloc);
    hear_rope(alloc, &mut leveller, disk, shape, blocks, pieces)?;
    let peaks = leveller.finish()?;
    Ok(peaks)
}
