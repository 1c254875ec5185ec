//! Audits of the small disk.

use crate::runs::{run_script, run_words, small_disk};
use std::test::Fail;
use voice_main::Status;

// Versions of a disk, scripts over it, and what an audit prints then.
const ROWS: [(u32, &[u8], &[u8]); 3] = [
    (
        2,
        b"",
        b"version 2 form 2 block 8 blocks 16 area 512 graces 60 60 60 60 lanes 4\njournal epoch 1 left 495\nnow 0 next 1\nblocks used 0 shared 0 free 16\n",
    ),
    (
        1,
        b"1 a = record f20\n1 b = sub a 0 9\n1 retain held k b -\n",
        b"version 1 form 1 block 8 blocks 16 area 512 graces 60 60 60 60 lanes 4\njournal epoch 1 left 417\nnow 0 next 3\nrope 1 length 20 pieces 1 rows 0\nrope 2 length 9 pieces 1 rows 1\nrow held k 2 -\nblocks used 3 shared 2 free 13\n",
    ),
    (
        2,
        b"1 a = record f20\n1 advance 60\n1 sweep 9\n",
        b"version 2 form 2 block 8 blocks 16 area 512 graces 60 60 60 60 lanes 4\njournal epoch 1 left 431\nnow 60 next 2\nblocks used 0 shared 0 free 16\n",
    ),
];

#[test]
fn an_audit_tells_what_stands(rt: HostRuntime) -> Result<(), Fail> {
    for (version, script, wanted) in ROWS {
        let disk = small_disk(rt.alloc(), version, &[])?;
        let (ran, _) = run_script(&rt, rt.alloc(), script, disk)?;
        let (ended, text) = run_words(&rt, rt.alloc(), &["audit"], b"", ran.disk)?;
        assert_eq!(rt; ended.status, Status::Done);
        assert_eq!(rt; text.as_slice(), wanted);
    }
    Ok(())
}

#[test]
fn an_audit_of_a_failing_disk_prints_nothing(rt: HostRuntime) -> Result<(), Fail> {
    for call in 4..9 {
        let disk = small_disk(rt.alloc(), 2, &[call])?;
        let (ended, text) = run_words(&rt, rt.alloc(), &["audit"], b"", disk)?;
        assert_eq!(rt; ended.status, Status::DiskFault);
        assert!(rt; text.is_empty());
    }
    Ok(())
}
