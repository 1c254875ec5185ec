//! Calls on interests, the moment, and sweeps.

use crate::answers::Undone;
use crate::plain::Plain;
use crate::ropes::Rope;
use voice_model::{Class, Key, KeyList, Note, Reply, RopeList, Row, Why};
use voice_units::{Moment, RopeId};

/// How many interests a census drops at most.
const MOST_DROPPED: u64 = 65535;

// The moment that a note spells in 8 bytes, the first one highest.
fn moment_of(note: &Note) -> Option<Moment> {
    let bytes = note.bytes();
    if bytes.len() != 8 {
        return None;
    }
    let mut number: u64 = 0;
    for byte in bytes {
        number = number.saturating_mul(256).saturating_add(u64::from(*byte));
    }
    Moment::new(number)
}

// Whether an interest ends by its note at this moment or before.
fn is_expired(row: &Row, now: Moment) -> bool {
    match row.class {
        Class::Until => match moment_of(&row.note) {
            Some(moment) => moment <= now,
            None => false,
        },
        Class::Held | Class::Listed => false,
    }
}

// Whether a rope has an interest.
fn has_row(rows: &[Row], rope: RopeId) -> bool {
    for row in rows {
        if row.rope == rope {
            return true;
        }
    }
    false
}

impl Plain {
    // The interest of a class and key.
    fn row(&self, class: Class, key: &Key) -> Option<Row> {
        for row in &self.rows {
            if row.class == class && row.key == *key {
                return Some(*row);
            }
        }
        None
    }

    // The grace of a class.
    fn grace(&self, class: Class) -> u32 {
        let graces = self.shape.graces;
        match class {
            Class::Held => graces.held,
            Class::Until => graces.until,
            Class::Listed => graces.listed,
        }
    }

    // These interests are left, where ones of this class went. A rope that lost its last one is idle since now.
    fn leave_rows(&mut self, left: Vec<Row>, class: Class) {
        let wait = self.grace(class);
        let now = self.moment;
        for rope in self.ropes.iter_mut() {
            if has_row(&self.rows, rope.id) && !has_row(&left, rope.id) {
                rope.idle = now;
                rope.wait = wait;
            }
        }
        self.rows = left;
    }

    pub(crate) fn retain(&mut self, row: Row) -> Result<Reply, Undone> {
        self.samples(row.rope)?;
        if row.class == Class::Until && moment_of(&row.note).is_none() {
            return Err(Undone::Refused(Why::BadData));
        }
        if let Some(other) = self.row(row.class, &row.key) {
            return Err(Undone::Refused(Why::KeyTaken(other.rope)));
        }
        self.rows.push(row)?;
        Ok(Reply::Done)
    }

    pub(crate) fn forget(&mut self, class: Class, key: &Key) -> Result<Reply, Undone> {
        if self.row(class, key).is_none() {
            return Err(Undone::Refused(Why::NoInterest));
        }
        let mut left = Vec::new(self.alloc);
        for row in &self.rows {
            if row.class != class || row.key != *key {
                left.push(*row)?;
            }
        }
        self.leave_rows(left, class);
        Ok(Reply::Done)
    }

    pub(crate) fn lookup(&self, class: Class, key: &Key) -> Result<Reply, Undone> {
        match self.row(class, key) {
            Some(row) => Ok(Reply::Found(row.rope, row.note)),
            None => Err(Undone::Refused(Why::NoInterest)),
        }
    }

    pub(crate) fn census(&mut self, keys: &KeyList) -> Result<Reply, Undone> {
        let mut left = Vec::new(self.alloc);
        let mut dropped: u64 = 0;
        for row in &self.rows {
            let unlisted = row.class == Class::Listed && !keys.items().contains(&row.key);
            if unlisted && dropped < MOST_DROPPED {
                dropped = dropped.saturating_add(1);
            } else {
                left.push(*row)?;
            }
        }
        self.leave_rows(left, Class::Listed);
        Ok(Reply::Number(dropped))
    }

    pub(crate) fn advance(&mut self, moment: Moment) -> Result<Reply, Undone> {
        if moment > self.moment {
            self.moment = moment;
        }
        Ok(Reply::Done)
    }

    // Whether a rope has no interest and was idle for its wait.
    fn is_due(&self, rope: &Rope) -> bool {
        let until = rope.idle.number().saturating_add(u64::from(rope.wait));
        !has_row(&self.rows, rope.id) && until <= self.moment.number()
    }

    pub(crate) fn sweep(&mut self, limit: u16) -> Result<Reply, Undone> {
        let mut left = Vec::new(self.alloc);
        let mut expired: u32 = 0;
        for row in &self.rows {
            if is_expired(row, self.moment) {
                expired = expired.saturating_add(1);
            } else {
                left.push(*row)?;
            }
        }
        let mut gone = Vec::with_capacity(self.alloc, limit as usize)?;
        self.leave_rows(left, Class::Until);
        for rope in &self.ropes {
            if self.is_due(rope) && gone.len() < limit as usize {
                gone.push(rope.id)?;
            }
        }
        self.ropes.retain(|rope| !gone.contains(&rope.id));
        Ok(Reply::Swept(expired, RopeList::of(gone)))
    }
}
