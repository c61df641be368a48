// Examples at the edges that are run and not proved: what the library gives beside what docs/FORMAT.md says.
#![tactic(auto)]

use std::io;
use store_io::pages::sio_decode_page;
use store_io::slots::{sio_encode, sio_validate};

fn main(rt: HostRuntime) -> io::Result<()> {
    number_zero(&rt)?;
    count_above_next_seq(&rt)
}

// Format 2 with number 0 is written, and read as numbered is 7 (Malformed). Read as not numbered it is 12 (Valid).
fn number_zero(rt: &impl Print) -> io::Result<()> {
    let mut slot = [0u8; 512];
    let mut header_crc32c: u32 = 0;
    let mut found = [0u64; 9];
    let refusal = sio_encode(
        &mut slot,
        1,
        2,
        3,
        1,
        1,
        8192,
        0,
        9,
        0,
        2,
        0,
        0,
        b"fare table",
        &mut header_crc32c,
    );
    show(rt, "format 2 with number 0, refusal", refusal, 0)?;
    let numbered = sio_validate(&slot, 1, 2, 3, 8192, 0, 9, 2, 1, &mut found);
    show(rt, "the same read as numbered, status", numbered, 7)?;
    let plain = sio_validate(&slot, 1, 2, 3, 8192, 0, 9, 2, 0, &mut found);
    show(rt, "the same read as not numbered, status", plain, 12)
}

// A page of count 1 with next seq 0 is refused with 30.
fn count_above_next_seq(rt: &impl Print) -> io::Result<()> {
    let mut page = [0u8; 120];
    let mut found = [0u64; 5];
    page[8] = 1;
    let refusal = sio_decode_page(&page, 0, 41, &mut found);
    show(rt, "count 1 with next seq 0, refusal", refusal, 30)
}

// A line: what is looked at, what was found and what is expected.
fn show(rt: &impl Print, name: &str, found: u32, expected: u32) -> io::Result<()> {
    let outcome = if found == expected {
        "equal"
    } else {
        "DIFFERENT"
    };
    println!(rt; "{name}: found {found}, expected {expected}: {outcome}")
}
