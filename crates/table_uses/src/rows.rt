//! Rows past the size of one chunk: in front, at the end and in the middle.

use crate::asserts::{assert_four, assert_number};
use counted_row::CountedRow;
use std::alloc::{AllocError, Global};
use std::process::Abort;
use std::test::Fail;

// The k-th value, or a number that no row has.
fn at(row: &CountedRow<u64>, k: usize) -> u64 {
    let Some(value) = row.get(k) else {
        return u64::MAX;
    };
    *value
}

// How many of the first count values are not their place times a step, from a first value on.
fn wrong(row: &CountedRow<u64>, first: u64, step: u64, count: u32) -> u64 {
    let mut wrong: u64 = 0;
    for k in 0..count {
        let value = first.wrapping_add(step.wrapping_mul(u64::from(k)));
        if at(row, k as usize) != value {
            wrong = wrong.wrapping_add(1);
        }
    }
    wrong
}

fn pushed(alloc: Global, count: u32) -> Result<CountedRow<u64>, AllocError> {
    let mut row = CountedRow::new(alloc);
    for k in 0..count {
        row.push(u64::from(k))?;
    }
    Ok(row)
}

fn insert_in_front(row: &mut CountedRow<u64>) -> Result<(), AllocError> {
    row.reserve(2000)?;
    for k in 0..2000u32 {
        row.insert(0, u64::from(k))?;
    }
    Ok(())
}

// Each goes in front of all others: full chunks split.
#[test]
fn values_go_in_front(rt: HostRuntime) -> Result<(), Fail> {
    let mut row = CountedRow::new(rt.alloc());
    insert_in_front(&mut row)?;
    assert_number(&rt, row.len() as u64, 2000);
    assert_number(&rt, wrong(&row, 1999, u64::MAX, 2000), 0);
    Ok(())
}

// How many of every second value are not those that go, from the front on.
fn remove_every_second(row: &mut CountedRow<u64>) -> u64 {
    let mut wrong: u64 = 0;
    for k in 0..1500u32 {
        if row.remove(k as usize) != Some(2 * u64::from(k)) {
            wrong = wrong.wrapping_add(1);
        }
    }
    wrong
}

fn assert_every_second(rt: &impl Abort, row: &mut CountedRow<u64>) {
    assert_number(rt, remove_every_second(row), 0);
    assert_number(rt, row.len() as u64, 1500);
    assert_number(rt, wrong(row, 1, 2, 1500), 0);
    assert_number(rt, at(row, 1500), u64::MAX);
}

// Every second value goes: chunks borrow and merge.
#[test]
fn every_second_value_goes(rt: HostRuntime) -> Result<(), Fail> {
    let mut row = pushed(rt.alloc(), 3000)?;
    assert_every_second(&rt, &mut row);
    Ok(())
}

// How many of all values are not the first one that goes each time.
fn remove_all(row: &mut CountedRow<u64>) -> u64 {
    let mut wrong: u64 = 0;
    for k in 0..100_000u32 {
        if row.remove(0) != Some(u64::from(k)) {
            wrong = wrong.wrapping_add(1);
        }
    }
    wrong
}

// All go, the first one each time.
#[test]
fn values_go_oldest_first(rt: HostRuntime) -> Result<(), Fail> {
    let mut row = pushed(rt.alloc(), 100_000)?;
    assert_number(&rt, remove_all(&mut row), 0);
    assert!(rt; row.remove(0).is_none());
    Ok(())
}

fn points(row: &CountedRow<u64>) -> [u64; 4] {
    [
        row.partition_point(|value| *value < 0) as u64,
        row.partition_point(|value| *value < 1) as u64,
        row.partition_point(|value| *value < 1500) as u64,
        row.partition_point(|value| *value < 9000) as u64,
    ]
}

// A place in front, one inside, and the end.
#[test]
fn values_are_searched(rt: HostRuntime) -> Result<(), Fail> {
    let row = pushed(rt.alloc(), 3000)?;
    assert_four(&rt, points(&row), [0, 1, 1500, 3000]);
    let none = pushed(rt.alloc(), 0)?;
    assert_four(&rt, points(&none), [0, 0, 0, 0]);
    Ok(())
}
