// RFC 3720's examples of CRC-32C (B.4), and the check value of the digits 1 to 9: what the checksum gives beside what the RFC says,
// both in the RFC's order of bytes.
#![tactic(auto)]

use codec::crc32c::crc32c;
use std::{fmt, io};

// The four bytes of a checksum, the low one first, as the RFC prints them.
#[derive(Clone, Copy, PartialEq, Eq)]
struct Spelled([u8; 4]);

impl fmt::Display for Spelled {
    fn fmt<W: fmt::Write>(&self, f: &mut fmt::Formatter<W>) -> fmt::Result {
        let [a, b, c, d] = self.0;
        write!(f, "{a:02x} {b:02x} {c:02x} {d:02x}")
    }
}

fn main(rt: HostRuntime) -> io::Result<()> {
    show(
        &rt,
        "32 bytes of zeroes",
        &[0u8; 32],
        [0xaa, 0x36, 0x91, 0x8a],
    )?;
    show(
        &rt,
        "32 bytes of ones",
        &[0xFFu8; 32],
        [0x43, 0xab, 0xa8, 0x62],
    )?;
    show(
        &rt,
        "32 incrementing 00..1f",
        b"\x00\x01\x02\x03\x04\x05\x06\x07\x08\x09\x0a\x0b\x0c\x0d\x0e\x0f\x10\x11\x12\x13\x14\x15\x16\x17\x18\x19\x1a\x1b\x1c\x1d\x1e\x1f",
        [0x4e, 0x79, 0xdd, 0x46],
    )?;
    show(
        &rt,
        "32 decrementing 1f..00",
        b"\x1f\x1e\x1d\x1c\x1b\x1a\x19\x18\x17\x16\x15\x14\x13\x12\x11\x10\x0f\x0e\x0d\x0c\x0b\x0a\x09\x08\x07\x06\x05\x04\x03\x02\x01\x00",
        [0x5c, 0xdb, 0x3f, 0x11],
    )?;
    show(
        &rt,
        "SCSI Read (10) Command PDU",
        b"\x01\xc0\x00\x00\x00\x00\x00\x00\x00\x00\x00\x00\x00\x00\x00\x00\x14\x00\x00\x00\x00\x00\x04\x00\x00\x00\x00\x14\x00\x00\x00\x18\x28\x00\x00\x00\x00\x00\x00\x00\x02\x00\x00\x00\x00\x00\x00\x00",
        [0x56, 0x3a, 0x96, 0xd9],
    )?;
    show(
        &rt,
        "the digits 123456789",
        b"123456789",
        [0x83, 0x92, 0x06, 0xe3],
    )
}

// A line: the message's name, the checksum found and the one expected.
fn show(rt: &impl Print, name: &str, message: &[u8], expected: [u8; 4]) -> io::Result<()> {
    let found = Spelled(crc32c(message).to_le_bytes());
    let wanted = Spelled(expected);
    let outcome = if found == wanted {
        "equal"
    } else {
        "DIFFERENT"
    };
    println!(rt; "{name:<26} found {found}, expected {wanted}: {outcome}")
}
