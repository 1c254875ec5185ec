//! Images that a crash may leave.

ghost use Rattle.std.specs.Prelude.{◌≡◌, ◌≤◌, length, reverse, IfOk};
ghost use Rattle.voice_disk.specs.Replay.{bytes_made, bytes_after};
ghost use Rattle.voice_disk.specs.Memory.{mem_told};
ghost use Rattle.voice_disk.specs.Image.{is_begun, begun_by, write_chosen, image_made, image_after, image_at};

use crate::memory::MemDisk;
use crate::record::{Entry, Made, fill_over, put_over};
use std::alloc::Global;
use voice_units::NoMemory;

// Whether a call was made by a moment, or is the write that comes next and may have begun.
fn is_begun(entry: &Entry, moment: u64) -> bool
    ensures { result ≡ is_begun moment entry.now }
{
    if entry.number <= moment {
        return true;
    }
    entry.number - moment == 1 && matches!(&entry.made, Made::Write(_, _, _))
}

// The calls that a crash at a moment may have met: those made by then, and the write that comes next.
fn begun_by(log: &[Entry], moment: u64) -> &[Entry]
    ensures { reverse result.now ≡ begun_by moment (reverse log.now) }
{
    let mut n = log.len();
    while n > 0 && !is_begun(&log[n - 1], moment) {
        n -= 1;
    }
    &log[..n]
}

// What a write that isn't settled leaves in the image.
fn write_chosen(image: &mut [u8], at: u64, new: &Vec<u8>, done: bool, choice: u16)
    ensures { image.new ≡ write_chosen choice image.old (Made.Write at new.now done) }
{
    if choice == 0 {
        return;
    }
    if choice > 1 {
        fill_over(image, at, new.len(), (choice % 256) as u8);
        return;
    }
    if done {
        put_over(image, at, new);
    }
}

// What a call leaves in the bytes and in the image.
fn make(bytes: &mut [u8], image: &mut [u8], made: &Made, choice: u16)
    requires { length image.old ≡ length bytes.old }
    ensures bytes { bytes.new ≡ bytes_made bytes.old made.now }
    ensures image { image.new ≡ image_made choice bytes.old image.old made.now }
{
    match made {
        Made::Read(_) => {}
        Made::Write(at, new, done) => {
            write_chosen(image, *at, new, *done, choice);
            if *done {
                put_over(bytes, *at, new);
            }
        }
        Made::Sync(done) => {
            if *done {
                image.copy_from_slice(bytes);
            }
        }
    }
}

// What calls leave in the image of a disk whose bytes nothing has changed before.
fn replay(bytes: &mut [u8], image: &mut [u8], calls: &[Entry], choice: u16)
    requires { image.old ≡ bytes.old }
    ensures { image.new ≡ image_after choice bytes.old (reverse calls.now) }
{
    for entry in calls {
        make(bytes, image, &entry.made, choice);
    }
}

/// The image that a crash at a moment leaves where each byte that isn't settled then has its last synced value (choice 0), its written value (1), or the choice mod 256 (2 and more). The moment is a number of calls of the disk; a crash at a moment may come within the next call, so what that writes isn't settled either.
pub fn image_of(
    alloc: Global,
    disk: &MemDisk,
    moment: u64,
    choice: u16,
) -> Result<Vec<u8>, NoMemory>
    requires { moment ≤ (mem_told disk.now).calls }
    ensures admitted { IfOk result (λ image. (mem_told disk.now).may_leave moment image.items) }
    ensures chosen { IfOk result (λ image. image.items ≡ image_at disk.now moment choice) }
    ensures written { choice ≡ 1 → moment ≡ (mem_told disk.now).calls → IfOk result (λ image. image.items ≡ (mem_told disk.now).bytes) }
{
    let mut bytes = disk.first.as_slice().to_vec(alloc)?;
    let mut image = disk.first.as_slice().to_vec(alloc)?;
    replay(&mut bytes, &mut image, begun_by(&disk.log, moment), choice);
    Ok(image)
}
