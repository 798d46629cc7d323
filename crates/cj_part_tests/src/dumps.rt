//! Dumps whose bytes were worked out by hand.

use cj_dump::{DumpError, decode, encode};
use std::alloc::Global;
use std::process::Abort;
use std::test::Fail;

/// Position 1, backend 1, name `d`, all tables: `t (k INTEGER PRIMARY KEY)` without rows.
const EMPTY_TABLE: &[u8] =
    b"\x00\x00\x00\x00\x00\x00\x00\x01\x01\x00\x01d\x01\x00\x00\x00\x00\x00\x00\x00\x00\x00\x00\x00\x00\x00\x00\x00\x01\x00\x01t\x00\x01\x00\x01k\x01\x00\x00\x00\x00\x00\x00\x00\x00\x00\x00\x00";

#[test]
fn table_without_rows(rt: HostRuntime) -> Result<(), Fail> {
    let alloc = rt.alloc();
    let Ok(d) = decode(alloc, EMPTY_TABLE) else {
        return Err(Fail::from("a dump"));
    };
    assert!(rt; d.position == 1 && d.source == 1 && d.all && d.db.len() == 1);
    let Ok(bytes) = encode(alloc, &d) else {
        return Err(Fail::from("memory"));
    };
    assert!(rt; bytes.as_slice() == EMPTY_TABLE);
    Ok(())
}

#[test]
fn bytes_of_no_dump(rt: HostRuntime) -> Result<(), Fail> {
    let alloc = rt.alloc();
    let cases: [(&[u8], DumpError); 6] = [
        (b"\x00\x00\x00\x00\x00\x00\x00", DumpError::Cut(0)),
        (
            b"\x00\x00\x00\x00\x00\x00\x00\x01\x01\x00\x02d",
            DumpError::Cut(9),
        ),
        (
            b"\x00\x00\x00\x00\x00\x00\x00\x01\x01\x00\x01d\x01\x00\x00\x00\x00\x00\x00\x00\x01",
            DumpError::BadField(13),
        ),
        (
            b"\x00\x00\x00\x00\x00\x00\x00\x01\x01\x00\x01d\x00\x00\x00\x00\x00\x00\x00\x00\x02\x00\x01b\x00\x01b",
            DumpError::Order(24),
        ),
        (
            b"\x00\x00\x00\x00\x00\x00\x00\x01\x01\x00\x01d\x01\x00\x00\x00\x00\x00\x00\x00\x00\x00\x00\x00\x00\x00\x00\x00\x01\x00\x01t\x00\x01\x00\x01k\x03",
            DumpError::BadField(37),
        ),
        (
            b"\x00\x00\x00\x00\x00\x00\x00\x01\x01\x00\x01d\x01\x00\x00\x00\x00\x00\x00\x00\x00\x00\x00\x00\x00\x00\x00\x00\x00\x00",
            DumpError::BadField(29),
        ),
    ];
    for (bytes, error) in cases {
        let Err(answer) = decode(alloc, bytes) else {
            return Err(Fail::from("no dump"));
        };
        assert!(rt; answer == error);
    }
    Ok(())
}

/// Where its fields begin.
const FIELDS: [u64; 13] = [0, 8, 9, 12, 13, 21, 29, 32, 34, 37, 38, 40, 48];

/// Why the bytes are no dump's, or `None` if they are one's.
fn refusal_of_dump(alloc: Global, bytes: &[u8]) -> Option<DumpError> {
    match decode(alloc, bytes) {
        Ok(_) => None,
        Err(error) => Some(error),
    }
}

#[test]
fn a_dump_that_is_cut_ends_in_a_field(rt: HostRuntime) -> Result<(), Fail> {
    let alloc = rt.alloc();
    for n in 0..EMPTY_TABLE.len() {
        let mut field = 0;
        for start in FIELDS {
            if start <= n as u64 {
                field = start;
            }
        }
        let refused = refusal_of_dump(alloc, &EMPTY_TABLE[..n]);
        assert!(rt; refused == Some(DumpError::Cut(field)), "{n}");
    }
    Ok(())
}

#[test]
fn changed_bytes_of_a_dump_are_refused_at_their_field(rt: HostRuntime) -> Result<(), Fail> {
    let alloc = rt.alloc();
    let cases = [
        (8, 255, None),
        (37, 3, Some(DumpError::BadField(37))),
        (49, 0, Some(DumpError::BadField(49))),
    ];
    for (at, byte, refusal) in cases {
        let mut bytes = EMPTY_TABLE.to_vec(alloc)?;
        bytes.truncate(at);
        bytes.push(byte)?;
        if at < EMPTY_TABLE.len() {
            bytes.extend_from_slice(&EMPTY_TABLE[at + 1..])?;
        }
        assert!(rt; refusal_of_dump(alloc, &bytes) == refusal, "{at}");
        if let Ok(dump) = decode(alloc, &bytes) {
            assert!(rt; dump.source == byte);
        }
    }
    Ok(())
}
