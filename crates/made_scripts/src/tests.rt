//! Generated scripts as the language has them, and their tapes.

use crate::made;
use std::test::Fail;

#[test]
fn one_line(rt: HostRuntime) -> Result<(), Fail> {
    let (script, tapes) = made(rt.alloc(), 1, 1)?;
    assert_eq!(rt; script.lines.len(), 1);
    assert_eq!(rt; script.callers, 3);
    assert!(rt; script.samples.is_empty());
    assert!(rt; tapes.is_empty());
    Ok(())
}

// File g7 stands in lines 5 and 8, and g0 in line 6.
#[test]
fn sample_files_by_their_first_mention(rt: HostRuntime) -> Result<(), Fail> {
    let (script, tapes) = made(rt.alloc(), 21430, 8)?;
    assert_eq!(rt; script.lines.len(), 8);
    assert_eq!(rt; tapes.len(), 2);
    assert_eq!(rt; tapes.whole(0).len, 8000);
    assert_eq!(rt; tapes.whole(1).len, 1000);
    let names = [b"g7", b"g0"];
    assert_eq!(rt; script.samples.len(), names.len());
    for (sample, name) in script.samples.iter().zip(names.iter()) {
        assert_eq!(rt; sample.bytes(), name.as_slice());
    }
    Ok(())
}

#[test]
fn as_many_lines_as_asked_and_as_many_tapes_as_samples(rt: HostRuntime) -> Result<(), Fail> {
    let counts: [u32; 2] = [2000, 65535];
    for count in counts {
        let (script, tapes) = made(rt.alloc(), 7, count)?;
        assert_eq!(rt; script.lines.len(), count as usize);
        assert_eq!(rt; tapes.len(), script.samples.len());
        assert_eq!(rt; tapes.len(), 8);
        assert_eq!(rt; script.callers, 4);
    }
    Ok(())
}
