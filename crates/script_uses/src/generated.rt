//! Short scripts, as a program in another language draws them.

use script_gen::make;
use std::test::Fail;
use voice_model::Tapes;
use voice_units::Take;

#[test]
fn first_lines(rt: HostRuntime) -> Result<(), Fail> {
    let (script, tapes) = make(rt.alloc(), 1, 1)?;
    let wanted = b"3 v12 = replace v6 234 95 v10\n";
    assert_eq!(rt; script.as_slice(), wanted.as_slice());
    assert!(rt; tapes.is_empty());
    let (script, tapes) = make(rt.alloc(), 7, 3)?;
    let wanted = b"3 v1 = concat v1 v9\n4 length v4\n4 retain held k3 v3 -\n";
    assert_eq!(rt; script.as_slice(), wanted.as_slice());
    assert!(rt; tapes.is_empty());
    Ok(())
}

fn sample(tapes: &Tapes, tape: u32, from: u32) -> Option<u8> {
    let take = Take { tape, from, len: 1 };
    if !tapes.has(take) {
        return None;
    }
    tapes.samples(take).first().copied()
}

// Each kind of line.
#[test]
fn lines_of_each_kind(rt: HostRuntime) -> Result<(), Fail> {
    let (script, tapes) = make(rt.alloc(), 2521, 14)?;
    let wanted =
        b"4 play 3 v12 319 1515 out\n1 v15 = concat v1 v8\n1 v13 = record g0\n3 v8 = sub v6 192 332\n\
        1 retain held k9 v10 -\n2 length v13\n3 length v0\n2 v4 = replace v0 195 11 v11\n3 v15 = record g0\n\
        2 v0 = record g4\n4 advance 110\n3 sweep 64\n3 forget held k39\n2 v14 = concat v0 v2\n";
    assert_eq!(rt; script.as_slice(), wanted.as_slice());
    assert_eq!(rt; tapes.len(), 2);
    let rows = [
        (0, 300, Some(52)),
        (0, 999, Some(81)),
        (0, 1000, None),
        (1, 300, Some(176)),
        (1, 4999, Some(45)),
        (1, 5000, None),
    ];
    for (tape, from, wanted) in rows {
        assert_eq!(rt; sample(&tapes, tape, from), wanted);
    }
    Ok(())
}

// File g7 stands in lines 5 and 8, and g0 in line 6.
#[test]
fn files_by_their_first_mention(rt: HostRuntime) -> Result<(), Fail> {
    let (script, tapes) = make(rt.alloc(), 21430, 8)?;
    assert_eq!(rt; script.len(), 131);
    assert_eq!(rt; tapes.len(), 2);
    let rows = [
        (0, 300, Some(13)),
        (0, 7999, Some(146)),
        (0, 8000, None),
        (1, 300, Some(52)),
        (1, 999, Some(81)),
        (1, 1000, None),
    ];
    for (tape, from, wanted) in rows {
        assert_eq!(rt; sample(&tapes, tape, from), wanted);
    }
    Ok(())
}

// The same seed and number of lines give the same bytes.
#[test]
fn a_script_is_made_again(rt: HostRuntime) -> Result<(), Fail> {
    let (first, _tapes) = make(rt.alloc(), 7, 2000)?;
    let (second, _others) = make(rt.alloc(), 7, 2000)?;
    assert!(rt; first.len() > 20_000);
    assert!(rt; first.as_slice() == second.as_slice());
    Ok(())
}
