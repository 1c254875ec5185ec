//! The records of an area.

ghost use Rattle.std.specs.Prelude.{◌+◌, ◌<◌, ◌≤◌, ◌^◌, length, IfOk};
ghost use Rattle.voice_journal.specs.Records.{IsParsed};

use crate::lists::Span;
use disk_areas::read_4;
use std::alloc::{AllocError, Global};

// Where the payloads of an area lie in it, and the gate behind them, or the gate of the first record whose length breaks the condition.
#[derive(Drop)]
pub enum Parsed {
    Sound(Vec<Span>, usize),
    Broken(usize),
}

// The records of an area, which begins at the byte `start` of the disk.
pub fn read_records(alloc: Global, area: &[u8], start: u64) -> Result<Parsed, AllocError>
    requires size { 512 ≤ length area.now }
    requires most { length area.now ≤ 2 ^ 24 }
    requires place { start ≤ 2 ^ 32 }
    ensures { IfOk result (IsParsed start area.now) }
{
    let mut spans = Vec::new(alloc);
    let mut gate = 16usize;
    while area[gate] == 1 {
        let rest = area.len() - gate;
        if rest <= 5 {
            return Ok(Parsed::Broken(gate));
        }
        let len = read_4(area, gate + 1) as usize;
        if len >= rest - 5 {
            return Ok(Parsed::Broken(gate));
        }
        spans.push(Span {
            place: start + gate as u64,
            from: gate + 5,
            len,
        })?;
        gate += 5 + len;
    }
    Ok(Parsed::Sound(spans, gate))
}
