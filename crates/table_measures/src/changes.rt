//! Lists of changes, as a journal has them.

use change_codec::{get, put};
use std::alloc::Global;
use voice_journal::RecordList;
use voice_units::NoMemory;

/// The samples of a recording, which fill a block.
pub const BLOCK: u32 = 4096;

// How many recordings come before the changes of a kind.
const FILES: u32 = 4096;

/// What the changes of a list are.
#[derive(Clone, Copy)]
pub enum Kind {
    Moments,
    Interests,
    Edits,
    Mixed,
}

/// Records, and how many bytes their payloads have.
#[derive(Drop)]
pub struct Records {
    pub list: RecordList,
    pub size: u64,
}

// A number from 1 on below this one, as scattered as a generator's.
fn one_below(number: u32, end: u64) -> u64 {
    let scattered = u64::from(number).wrapping_mul(0x9e37_79b9_7f4a_7c15) >> 32;
    scattered % end.saturating_sub(1).max(1) + 1
}

// The first bytes of a change: its kind and a number.
fn begun(alloc: Global, kind: u8, number: u64) -> Result<Vec<u8>, NoMemory> {
    let mut bytes = Vec::new(alloc);
    bytes.push(kind)?;
    bytes.extend_from_slice(&number.to_be_bytes())?;
    Ok(bytes)
}

// A recording of one block, at this address.
fn recorded(alloc: Global, id: u64, address: u32) -> Result<Vec<u8>, NoMemory> {
    let mut bytes = begun(alloc, 11, id)?;
    bytes.extend_from_slice(&BLOCK.to_be_bytes())?;
    bytes.extend_from_slice(&[0, 0, 0, 1])?;
    bytes.extend_from_slice(&address.to_be_bytes())?;
    Ok(bytes)
}

// A rope of eight samples of a file, from a place on.
fn edited(alloc: Global, id: u64, file: u64, from: u32) -> Result<Vec<u8>, NoMemory> {
    let mut bytes = begun(alloc, 2, id)?;
    bytes.extend_from_slice(&[0, 1])?;
    bytes.extend_from_slice(&file.to_be_bytes())?;
    bytes.extend_from_slice(&from.to_be_bytes())?;
    bytes.extend_from_slice(&[0, 0, 0, 8])?;
    Ok(bytes)
}

// The first bytes of a change of a row of class held: its kind, the class and a key of eight bytes.
fn named(alloc: Global, kind: u8, key: u64) -> Result<Vec<u8>, NoMemory> {
    let mut bytes = Vec::new(alloc);
    bytes.extend_from_slice(&[kind, 1, 8])?;
    bytes.extend_from_slice(&key.to_be_bytes())?;
    Ok(bytes)
}

// A row without a note.
fn retained(alloc: Global, key: u64, rope: u64) -> Result<Vec<u8>, NoMemory> {
    let mut bytes = named(alloc, 3, key)?;
    bytes.extend_from_slice(&rope.to_be_bytes())?;
    bytes.push(0)?;
    Ok(bytes)
}

impl Records {
    fn new(alloc: Global) -> Records {
        Records {
            list: RecordList::new(alloc),
            size: 0,
        }
    }

    // Adds the change that these bytes spell.
    fn add(&mut self, alloc: Global, spelling: &[u8]) -> Result<(), NoMemory> {
        let Ok(change) = get(alloc, spelling) else {
            return Err(NoMemory);
        };
        let mut bytes = Vec::new(alloc);
        put(&change, &mut bytes)?;
        self.size = self.size.saturating_add(bytes.len() as u64);
        let place = self.size;
        self.list.push(place, &bytes)?;
        Ok(())
    }

    // Adds the recording of a block.
    fn add_recording(&mut self, alloc: Global, id: u64, address: u32) -> Result<(), NoMemory> {
        let spelling = recorded(alloc, id, address)?;
        self.add(alloc, &spelling)
    }

    // Adds a rope of eight samples of a file, from a place on.
    fn add_edit(&mut self, alloc: Global, id: u64, file: u64, from: u32) -> Result<(), NoMemory> {
        let spelling = edited(alloc, id, file, from)?;
        self.add(alloc, &spelling)
    }

    // Adds a row.
    fn add_row(&mut self, alloc: Global, key: u64, rope: u64) -> Result<(), NoMemory> {
        let spelling = retained(alloc, key, rope)?;
        self.add(alloc, &spelling)
    }

    // Adds a row's end.
    fn end_row(&mut self, alloc: Global, key: u64) -> Result<(), NoMemory> {
        let spelling = named(alloc, 4, key)?;
        self.add(alloc, &spelling)
    }

    // Adds a moment.
    fn add_moment(&mut self, alloc: Global, moment: u64) -> Result<(), NoMemory> {
        let spelling = begun(alloc, 7, moment)?;
        self.add(alloc, &spelling)
    }

    // Adds the edit of this number behind the recordings.
    fn add_numbered(&mut self, alloc: Global, number: u32) -> Result<(), NoMemory> {
        let next = u64::from(FILES + 1) + u64::from(number);
        let file = one_below(number, u64::from(FILES + 1));
        self.add_edit(alloc, next, file, number % 1000)
    }

    // Adds a change of each kind, the ones of this number. The row that comes and goes names the newest rope.
    fn add_mixed(&mut self, alloc: Global, number: u32) -> Result<(), NoMemory> {
        let moment = u64::from(number) + 1;
        self.add_moment(alloc, moment)?;
        self.add_row(alloc, moment, u64::from(FILES) + u64::from(number))?;
        self.add_numbered(alloc, number)?;
        self.end_row(alloc, moment)
    }

    // Adds some changes of a kind, the ones of this number, behind the recordings.
    fn add_some(&mut self, alloc: Global, kind: Kind, number: u32) -> Result<(), NoMemory> {
        let moment = u64::from(number) + 1;
        match kind {
            Kind::Moments => self.add_moment(alloc, moment),
            Kind::Interests => {
                self.add_row(alloc, moment, u64::from(FILES))?;
                self.end_row(alloc, moment)
            }
            Kind::Edits => self.add_numbered(alloc, number),
            Kind::Mixed => self.add_mixed(alloc, number),
        }
    }

    // Adds four edits of a day of mail.
    fn add_edits(&mut self, alloc: Global, next: u64, number: u32) -> Result<(), NoMemory> {
        for more in 0..4 {
            let file = one_below(number.wrapping_add(more), u64::from(FILES + 1));
            let id = next.wrapping_add(u64::from(more));
            self.add_edit(alloc, id, file, number % 1000)?;
        }
        Ok(())
    }

    // Adds eight changes of a day of mail: four edits, two rows, the oldest row's end, and a moment.
    fn add_mail(&mut self, alloc: Global, number: u32) -> Result<(), NoMemory> {
        let next = u64::from(FILES + 1) + 4 * u64::from(number);
        let key = 2 * u64::from(number) + 1;
        self.add_edits(alloc, next, number)?;
        self.add_row(alloc, key, next + 1)?;
        self.add_row(alloc, key + 1, next + 3)?;
        self.end_row(alloc, u64::from(number) + 1)?;
        self.add_moment(alloc, u64::from(number) + 1)
    }

    // Adds the recording of a block, two parts of it, and a row for one of them.
    fn add_ropes(&mut self, alloc: Global, number: u32) -> Result<(), NoMemory> {
        let file = 3 * u64::from(number) + 1;
        self.add_recording(alloc, file, number)?;
        self.add_edit(alloc, file + 1, file, 0)?;
        self.add_edit(alloc, file + 2, file, 100)?;
        self.add_row(alloc, file, file + 1)
    }

    // Records with the recordings that come before the changes of a kind.
    fn with_files(alloc: Global) -> Result<Records, NoMemory> {
        let mut records = Records::new(alloc);
        for number in 0..FILES {
            records.add_recording(alloc, u64::from(number) + 1, number)?;
        }
        Ok(records)
    }
}

/// Changes of a kind, whose payloads have at least so many bytes: 4,096 recordings, and then moments, rows that come and go, edits of eight samples, or all of these by turns. Edits name files all over.
pub fn changes_of(alloc: Global, kind: Kind, bytes: u64) -> Result<Records, NoMemory> {
    let mut records = Records::with_files(alloc)?;
    for number in 0..u32::MAX - FILES {
        if records.size >= bytes {
            return Ok(records);
        }
        records.add_some(alloc, kind, number)?;
    }
    Ok(records)
}

/// Changes that make at least so many ropes, a third of them recordings.
pub fn changes_to(alloc: Global, ropes: u32) -> Result<Records, NoMemory> {
    let mut records = Records::new(alloc);
    for number in 0..ropes.div_ceil(3) {
        records.add_ropes(alloc, number)?;
    }
    Ok(records)
}

/// So many changes of mail that is kept and forgotten, the oldest first, behind 4,096 recordings: half of them edits, a quarter rows that come, an eighth the oldest row that goes, an eighth moments.
pub fn mail_of(alloc: Global, changes: u32) -> Result<Records, NoMemory> {
    let mut records = Records::with_files(alloc)?;
    for number in 0..changes / 8 {
        records.add_mail(alloc, number)?;
    }
    Ok(records)
}
