//! Files set in the order of a history.

ghost use Rattle.std.specs.Prelude.{◌≡◌};
ghost use Rattle.served_files.specs.Given.{is_over, ends_serving};

use crate::{Heard, set_files};
use std::alloc::Global;
use std::test::Fail;
use voice_model::{Call, Entry, Reply, Why};
use voice_outside::{MemShelf, OutsideError, Shelf};
use voice_units::{JobId, Lane, Name};

// A file of one byte.
fn heard(alloc: Global, name: &str, byte: u8) -> Result<Heard, Fail> {
    let file = Name::new(name.as_bytes())?;
    let bytes = vec![in alloc; byte]?;
    Ok(Heard { file, bytes })
}

fn fed(caller: u16, reply: Reply) -> Entry
    ensures by { result.caller ≡ caller }
    ensures ends { ends_serving result ≡ is_over reply }
{
    Entry {
        caller,
        call: Call::Feed(Lane(0), None),
        reply,
        ack: 0,
    }
}

// Caller 1 heard the files 1 and 2, caller 2 the file 3, which ended between them.
fn set(
    alloc: Global,
    shelf: &mut MemShelf,
    names: (&str, &str, &str),
) -> Result<Result<(), OutsideError>, Fail> {
    let own = vec![in alloc; heard(alloc, names.0, 1)?, heard(alloc, names.1, 2)?]?;
    let other = vec![in alloc; heard(alloc, names.2, 3)?]?;
    let lists = vec![in alloc; own, other]?;
    let history = [
        fed(1, Reply::Ended(JobId(1), 1)),
        fed(2, Reply::No(Why::NoJob)),
        fed(2, Reply::Stopped(JobId(2), 1)),
        fed(1, Reply::Ended(JobId(3), 1)),
    ];
    Ok(set_files(shelf, &history, &lists))
}

#[test]
fn files_come_in_the_order_of_the_history(rt: HostRuntime) -> Result<(), Fail> {
    // The names, the call of the shelf that fails, and the bytes under a, b and c.
    let cases = [
        (("a", "b", "c"), 0, (1, 2, 3)),
        (("a", "b", "a"), 0, (3, 2, 0)),
        (("c", "a", "a"), 0, (2, 0, 1)),
        (("a", "b", "c"), 2, (1, 0, 0)),
        (("a", "b", "c"), 3, (1, 0, 3)),
    ];
    for (names, fails, wanted) in cases {
        let listed = vec![in rt.alloc(); fails]?;
        let mut shelf = MemShelf::new(rt.alloc(), Vec::new(rt.alloc()), listed);
        let done = set(rt.alloc(), &mut shelf, names)?;
        assert_eq!(rt; done.is_err(), fails != 0);
        for (name, byte) in [("a", wanted.0), ("b", wanted.1), ("c", wanted.2)] {
            let held = shelf.get(&Name::new(name.as_bytes())?);
            let Ok(held) = held else {
                return Err(Fail::new("not read"));
            };
            let bytes = held.unwrap_or(Vec::new(rt.alloc()));
            assert_eq!(rt; bytes.first().copied().unwrap_or(0), byte);
        }
    }
    Ok(())
}
