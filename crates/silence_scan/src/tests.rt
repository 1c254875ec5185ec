ghost use Rattle.std.specs.Prelude.{ℕ, ◌≤◌, ◌^◌, length};

use super::{Leveller, Scanner, loud_sum, peak};
use std::alloc::Global;
use voice_model::{PeakList, TalkList};
use voice_units::NoMemory;

// Pieces of these lengths in turn, as a caller may cut.
const PIECES: [usize; 5] = [1, 159, 160, 161, 7];

// Parts of one byte each, one after another.
fn recording(alloc: Global, parts: &[(u8, usize)]) -> Result<Vec<u8>, NoMemory> {
    let mut bytes = Vec::new(alloc);
    for (byte, count) in parts {
        for _ in 0..*count {
            bytes.push(*byte)?;
        }
    }
    Ok(bytes)
}

fn scan(alloc: Global, bytes: &[u8]) -> Result<TalkList, NoMemory>
    requires { length bytes.now ≤ 2 ^ 30 }
{
    let mut scanner = Scanner::new(alloc);
    let mut at = 0;
    for turn in 0..bytes.len() {
        let n = PIECES[turn % 5].min(bytes.len() - at);
        scanner.feed(&bytes[at..at + n])?;
        at += n;
    }
    scanner.finish()
}

fn talk_in(alloc: Global, parts: &[(u8, usize)]) -> Result<TalkList, NoMemory> {
    let bytes = recording(alloc, parts)?;
    if bytes.len() > 1 << 30 {
        return Err(NoMemory);
    }
    scan(alloc, &bytes)
}

fn levels_in(alloc: Global, parts: &[(u8, usize)]) -> Result<PeakList, NoMemory> {
    let bytes = recording(alloc, parts)?;
    let mut leveller = Leveller::new(alloc);
    let mut rest = bytes.as_slice();
    for turn in 0..bytes.len() {
        let n = PIECES[turn % 5].min(rest.len());
        leveller.feed(&rest[..n])?;
        rest = &rest[n..];
    }
    leveller.finish()
}

#[test]
fn sums(rt: HostRuntime) -> Result<(), NoMemory> {
    let many = vec![in rt.alloc(); 0x80u8; 1000]?;
    assert!(rt; many.len() == 1000);
    assert_eq!(rt; loud_sum(&many), 127_000);
    assert_eq!(rt; loud_sum(&[]), 0);
    assert_eq!(rt; loud_sum(&[0xfe; 33]), 33);
    Ok(())
}

#[test]
fn peaks(rt: HostRuntime) -> Result<(), NoMemory> {
    assert_eq!(rt; peak(&[]), 0);
    assert_eq!(rt; peak(&[0xfe; 33]), 1);
    let found = levels_in(rt.alloc(), &[(0xff, 160), (0x80, 1)])?;
    let most = found.items();
    assert!(rt; most.len() == 2);
    assert!(rt; most[0] == 0 && most[1] == 127);
    let found = levels_in(rt.alloc(), &[])?;
    assert!(rt; found.items().is_empty());
    Ok(())
}

#[test]
fn talk(rt: HostRuntime) -> Result<(), NoMemory> {
    let found = talk_in(rt.alloc(), &[(0x80, 4000), (0xff, 4000), (0x80, 4000)])?;
    let spans = found.items();
    assert!(rt; spans.len() == 2);
    assert!(rt; spans[0].start == 0 && spans[0].len == 4000);
    assert!(rt; spans[1].start == 8000 && spans[1].len == 4000);
    let found = talk_in(rt.alloc(), &[(0x80, 4000), (0xff, 3840), (0x80, 4000)])?;
    let spans = found.items();
    assert!(rt; spans.len() == 1);
    assert!(rt; spans[0].start == 0 && spans[0].len == 11840);
    let found = talk_in(rt.alloc(), &[(0xf9, 4001)])?;
    assert!(rt; found.items().is_empty());
    let found = talk_in(rt.alloc(), &[(0xff, 4000), (0xf8, 1)])?;
    let spans = found.items();
    assert!(rt; spans.len() == 1);
    assert!(rt; spans[0].start == 4000 && spans[0].len == 1);
    Ok(())
}
