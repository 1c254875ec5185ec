//! The spellings of all kinds, and the places at which broken ones are refused.

use change_codec::{GetError, advanced_bytes, forgotten_bytes, get, put, size};
use std::alloc::Global;
use std::process::Abort;
use std::test::Fail;
use voice_model::Change;
use voice_units::Moment;

// No place is refused.
const TAKEN: u64 = 7777;

// Memory wanted.
const NO_MEMORY: u64 = 8888;

// The refused place, or TAKEN.
fn place(alloc: Global, bytes: &[u8]) -> u64 {
    match get(alloc, bytes) {
        Ok(_) => TAKEN,
        Err(GetError::NotAChange(place)) => place,
        Err(GetError::NoMemory) => NO_MEMORY,
    }
}

// Whether the bytes spell a change of that size, whose spelling they are.
fn is_spelled(alloc: Global, bytes: &[u8]) -> Result<bool, Fail> {
    let Ok(change) = get(alloc, bytes) else {
        return Ok(false);
    };
    let mut out = Vec::new(alloc);
    put(&change, &mut out)?;
    let whole = size(&change) == bytes.len() as u64;
    Ok(whole && out.as_slice() == bytes)
}

// A spelling is read and put again; without its last byte or with one more it is refused at its end.
fn check(rt: &impl Abort, alloc: Global, bytes: &[u8], len: u64) -> Result<(), Fail> {
    assert_eq!(rt; bytes.len() as u64, len);
    assert!(rt; is_spelled(alloc, bytes)?);
    if !bytes.is_empty() {
        assert_eq!(rt; place(alloc, &bytes[..bytes.len() - 1]), len - 1);
    }
    let mut more = bytes.to_vec(alloc)?;
    more.push(0)?;
    assert_eq!(rt; place(alloc, &more), len);
    Ok(())
}

#[test]
fn vectors(rt: HostRuntime) -> Result<(), Fail> {
    let alloc = rt.alloc();
    check(
        &rt,
        alloc,
        &[
            1, 0, 0, 0, 0, 0, 0, 0, 1, 0, 0, 0, 20, 0, 0, 0, 3, 0, 0, 0, 1, 0, 2,
        ],
        23,
    )?;
    check(
        &rt,
        alloc,
        &[
            2, 0, 0, 0, 0, 0, 0, 0, 3, 0, 2, 0, 0, 0, 0, 0, 0, 0, 1, 0, 0, 0, 0, 0, 0, 0, 5, 0, 0,
            0, 0, 0, 0, 0, 1, 0, 0, 0, 15, 0, 0, 0, 5,
        ],
        43,
    )?;
    check(
        &rt,
        alloc,
        &[
            3, 1, 6, 0x6d, 0x61, 0x69, 0x6c, 0x2e, 0x31, 0, 0, 0, 0, 0, 0, 0, 5, 2, 0x68, 0x69,
        ],
        20,
    )?;
    check(
        &rt,
        alloc,
        &[4, 1, 6, 0x6d, 0x61, 0x69, 0x6c, 0x2e, 0x31],
        9,
    )?;
    check(&rt, alloc, &[5, 0, 1, 1, 0x6d], 5)?;
    check(
        &rt,
        alloc,
        &[6, 0, 2, 0, 0, 0, 0, 0, 0, 0, 1, 0, 0, 0, 0, 0, 0, 0, 3],
        19,
    )?;
    check(&rt, alloc, &[7, 0, 0, 0, 0, 0, 0, 0, 0x3c], 9)?;
    check(
        &rt,
        alloc,
        &[1, 0, 1, 0, 0, 0, 0, 0, 0, 0, 0, 0, 0, 0, 0, 0, 0],
        17,
    )
}

#[test]
fn parts_of_bases(rt: HostRuntime) -> Result<(), Fail> {
    let alloc = rt.alloc();
    check(
        &rt,
        alloc,
        &[8, 0, 0, 0, 0, 0, 0, 0, 60, 0, 0, 0, 0, 0, 0, 0, 4],
        17,
    )?;
    check(
        &rt,
        alloc,
        &[
            9, 0, 0, 0, 0, 0, 0, 0, 1, 0, 0, 0, 2, 0, 0, 0, 0, 0, 7, 0, 0, 0, 2, 255, 255,
        ],
        25,
    )?;
    check(
        &rt,
        alloc,
        &[
            10, 0, 0, 0, 0, 0, 0, 0, 3, 0, 0, 0, 0, 0, 0, 0, 60, 0, 1, 0, 0, 0, 0, 0, 0, 0, 1, 0,
            0, 0, 0, 0, 0, 0, 5,
        ],
        35,
    )?;
    check(
        &rt,
        alloc,
        &[
            11, 0, 0, 0, 0, 0, 0, 0, 1, 0, 0, 0, 20, 0, 0, 0, 2, 0, 0, 0, 1, 0, 15, 255, 255,
        ],
        25,
    )?;
    check(
        &rt,
        alloc,
        &[12, 0, 0, 1, 0, 0, 0, 0, 0, 0, 1, 0, 0, 0, 0, 0, 1],
        17,
    )?;
    check(
        &rt,
        alloc,
        &[
            13, 0, 0, 0, 0, 0, 0, 0, 1, 0, 0, 0, 2, 0, 0, 0, 0, 0, 0, 0, 7, 0, 0, 0, 2, 0, 1, 0, 0,
        ],
        29,
    )?;
    check(
        &rt,
        alloc,
        &[14, 0, 0, 0, 0, 0, 0, 0, 3, 0, 0, 0, 0, 0, 0, 0, 60, 2, 0, 0],
        20,
    )?;
    check(
        &rt,
        alloc,
        &[
            3, 2, 1, 0x75, 0, 0, 0, 0, 0, 0, 0, 1, 8, 0, 0, 0, 0, 0, 0, 0, 5,
        ],
        21,
    )
}

#[test]
fn kinds_are_refused(rt: HostRuntime) {
    let alloc = rt.alloc();
    assert_eq!(rt; place(alloc, &[]), 0);
    assert_eq!(rt; place(alloc, &[0]), 0);
    assert_eq!(rt; place(alloc, &[15, 0, 0]), 0);
    assert_eq!(rt; place(alloc, &[99]), 0);
}

#[test]
fn numbers_are_refused(rt: HostRuntime) {
    let alloc = rt.alloc();
    // rope 0, and one above 2^48
    assert_eq!(rt;
        place(alloc, &[1, 0, 0, 0, 0, 0, 0, 0, 0, 0, 0, 0, 0, 0, 0, 0, 0]),
        1
    );
    assert_eq!(rt;
        place(alloc, &[1, 0, 1, 0, 0, 0, 0, 0, 1, 0, 0, 0, 0, 0, 0, 0, 0]),
        1
    );
    // a length above 2^30
    assert_eq!(rt;
        place(
            alloc,
            &[1, 0, 0, 0, 0, 0, 0, 0, 1, 0x40, 0, 0, 1, 0, 0, 0, 0]
        ),
        9
    );
    // a count of addresses that are not there
    assert_eq!(rt;
        place(
            alloc,
            &[1, 0, 0, 0, 0, 0, 0, 0, 1, 0, 0, 0, 1, 255, 255, 255, 255]
        ),
        17
    );
    // moment 0, and one above 2^40
    assert_eq!(rt; place(alloc, &[7, 0, 0, 0, 0, 0, 0, 0, 0]), 1);
    assert_eq!(rt; place(alloc, &[7, 0, 0, 1, 0, 0, 0, 0, 1]), 1);
    // swept 3 then 1, and rope 0
    assert_eq!(rt;
        place(
            alloc,
            &[6, 0, 2, 0, 0, 0, 0, 0, 0, 0, 3, 0, 0, 0, 0, 0, 0, 0, 1]
        ),
        11
    );
    assert_eq!(rt; place(alloc, &[6, 0, 1, 0, 0, 0, 0, 0, 0, 0, 0]), 3);
    // no next number
    assert_eq!(rt;
        place(alloc, &[8, 0, 0, 0, 0, 0, 0, 0, 60, 0, 0, 0, 0, 0, 0, 0, 0]),
        9
    );
    // no pair, and index 2 twice
    assert_eq!(rt; place(alloc, &[9, 0, 0, 0, 0, 0, 0, 0, 1, 0, 0, 0, 0]), 9);
    assert_eq!(rt;
        place(
            alloc,
            &[
                9, 0, 0, 0, 0, 0, 0, 0, 1, 0, 0, 0, 2, 0, 0, 0, 2, 0, 7, 0, 0, 0, 2, 0, 8
            ]
        ),
        19
    );
    // class 4
    assert_eq!(rt;
        place(
            alloc,
            &[14, 0, 0, 0, 0, 0, 0, 0, 3, 0, 0, 0, 0, 0, 0, 0, 60, 4, 0, 0]
        ),
        17
    );
}

#[test]
fn pieces_are_refused(rt: HostRuntime) {
    let alloc = rt.alloc();
    // 4,097 pieces
    assert_eq!(rt; place(alloc, &[2, 0, 0, 0, 0, 0, 0, 0, 3, 16, 1]), 9);
    // a piece of no sample, and one that ends above 2^30
    assert_eq!(rt;
        place(
            alloc,
            &[
                2, 0, 0, 0, 0, 0, 0, 0, 3, 0, 1, 0, 0, 0, 0, 0, 0, 0, 1, 0, 0, 0, 0, 0, 0, 0, 0
            ]
        ),
        23
    );
    assert_eq!(rt;
        place(
            alloc,
            &[
                2, 0, 0, 0, 0, 0, 0, 0, 3, 0, 1, 0, 0, 0, 0, 0, 0, 0, 1, 0x40, 0, 0, 0, 0, 0, 0, 1
            ]
        ),
        23
    );
    // (1, 0, 5) and (1, 5, 5)
    let continued = [
        2, 0, 0, 0, 0, 0, 0, 0, 3, 0, 2, 0, 0, 0, 0, 0, 0, 0, 1, 0, 0, 0, 0, 0, 0, 0, 5, 0, 0, 0,
        0, 0, 0, 0, 1, 0, 0, 0, 5, 0, 0, 0, 5,
    ];
    assert_eq!(rt; place(alloc, &continued), 35);
    // (1, 0, 2^30) and (2, 0, 1)
    let long = [
        2, 0, 0, 0, 0, 0, 0, 0, 3, 0, 2, 0, 0, 0, 0, 0, 0, 0, 1, 0, 0, 0, 0, 0x40, 0, 0, 0, 0, 0,
        0, 0, 0, 0, 0, 2, 0, 0, 0, 0, 0, 0, 0, 1,
    ];
    assert_eq!(rt; place(alloc, &long), 39);
}

#[test]
fn texts_are_refused(rt: HostRuntime) {
    let alloc = rt.alloc();
    // classes 0 and 4, and keys of 0 and 65 bytes
    assert_eq!(rt; place(alloc, &[4, 0, 1, 0x6d]), 1);
    assert_eq!(rt; place(alloc, &[4, 4, 1, 0x6d]), 1);
    assert_eq!(rt; place(alloc, &[4, 1, 0]), 2);
    assert_eq!(rt; place(alloc, &[4, 1, 65]), 2);
    // no key, and an empty one behind another
    assert_eq!(rt; place(alloc, &[5, 0, 0]), 1);
    assert_eq!(rt; place(alloc, &[5, 0, 2, 1, 0x6d, 0]), 5);
    // a note of 129 bytes, and where the class is until one of 7 bytes and one that spells 2^40 + 1
    assert_eq!(rt;
        place(alloc, &[3, 1, 1, 0x6d, 0, 0, 0, 0, 0, 0, 0, 5, 129]),
        12
    );
    assert_eq!(rt;
        place(
            alloc,
            &[
                3, 2, 1, 0x6d, 0, 0, 0, 0, 0, 0, 0, 5, 7, 0, 0, 0, 0, 0, 0, 5
            ]
        ),
        12
    );
    assert_eq!(rt;
        place(
            alloc,
            &[
                3, 2, 1, 0x6d, 0, 0, 0, 0, 0, 0, 0, 5, 8, 0, 0, 1, 0, 0, 0, 0, 1
            ]
        ),
        13
    );
}

// Whether the bytes in place are the spelling.
fn is_in_place(alloc: Global, spelled: &[u8]) -> Result<bool, Fail> {
    let Ok(change) = get(alloc, spelled) else {
        return Ok(false);
    };
    match &change {
        Change::Forgotten(class, key) => {
            let bytes = forgotten_bytes(*class, key);
            Ok(bytes.as_slice() == spelled)
        }
        Change::Advanced(moment) => Ok(advanced_bytes(*moment).as_slice() == spelled),
        _ => Ok(false),
    }
}

#[test]
fn short_changes_stand_in_place(rt: HostRuntime) -> Result<(), Fail> {
    let alloc = rt.alloc();
    // keys of 1 and of 64 bytes
    let mut longest = [0x6d; 67];
    longest[0] = 4;
    longest[1] = 2;
    longest[2] = 64;
    assert!(rt; is_in_place(alloc, &[4, 1, 1, 0x6d])?);
    assert!(rt; is_in_place(alloc, &[4, 3, 2, 0, 255])?);
    assert!(rt; is_in_place(alloc, &longest)?);
    // moments 1 and 2^40
    assert!(rt; is_in_place(alloc, &[7, 0, 0, 0, 0, 0, 0, 0, 1])?);
    assert!(rt; is_in_place(alloc, &[7, 0, 0, 1, 0, 0, 0, 0, 0])?);
    // moment 0 is no change, but its bytes have the form of one
    let start: &[u8] = &[7, 0, 0, 0, 0, 0, 0, 0, 0];
    assert!(rt; advanced_bytes(Moment(0)).as_slice() == start);
    Ok(())
}
