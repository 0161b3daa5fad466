// Runs `crc::crc32_ieee` on vectors and prints how many came out right; then at each length from 0 to 64,
// beside a CRC that is worked out here bit by bit.
#![tactic(auto)]

ghost use Rattle.std.specs.Prelude.{◌≤◌, length};

use std::io;

// The CRC RevEng catalogue's check value of CRC-32/ISO-HDLC; the CRC-32 task of Rosetta Code; the last chunk
// of every PNG file, whose type IEND is followed by its CRC (W3C PNG specification).
const SINGLE: [(&[u8], u32); 3] = [
    (b"123456789", 0xcbf4_3926),
    (b"The quick brown fox jumps over the lazy dog", 0x414f_a339),
    (b"IEND", 0xae42_6082),
];

// RHash, librhash/test_hashes.c, crc32_tests: the messages of RFC 1321, A.5.
const RHASH: [(&[u8], u32); 7] = [
    (b"", 0x0000_0000),
    (b"a", 0xe8b7_be43),
    (b"abc", 0x3524_41c2),
    (b"message digest", 0x2015_9d7f),
    (b"abcdefghijklmnopqrstuvwxyz", 0x4c27_50bd),
    (
        b"ABCDEFGHIJKLMNOPQRSTUVWXYZabcdefghijklmnopqrstuvwxyz0123456789",
        0x1fc2_e6d2,
    ),
    (
        b"12345678901234567890123456789012345678901234567890123456789012345678901234567890",
        0x7ca9_4a72,
    ),
];

// Go, hash/crc32/crc32_test.go, golden (the column of IEEE).
const GOLDEN: [(&[u8], u32); 3] = [
    (b"abcdefghij", 0x3981_703a),
    (b"Discard medicine more than two years old.", 0x6b9c_dfe7),
    (
        b"He who has a shady past knows that nice guys finish last.",
        0xc90e_f73f,
    ),
];

// AUTOSAR, Specification of CRC Routines, 32-bit Ethernet CRC.
const AUTOSAR: [(&[u8], u32); 7] = [
    (b"\x00\x00\x00\x00", 0x2144_df1c),
    (b"\xf2\x01\x83", 0x24ab_9d77),
    (b"\x0f\xaa\x00\x55", 0xb6c9_b287),
    (b"\x00\xff\x55\x11", 0x32a0_6212),
    (b"\x33\x22\x55\xaa\xbb\xcc\xdd\xee\xff", 0xb0ae_863d),
    (b"\x92\x6b\x55", 0x9cde_a29b),
    (b"\xff\xff\xff\xff", 0xffff_ffff),
];

// The four messages of 32 bytes of RFC 3720, B.4. The RFC gives CRC-32C; these numbers are zlib's.
const ZLIB: [(&[u8], u32); 4] = [
    (&[0x00; 32], 0x190a_55ad),
    (&[0xff; 32], 0xff6c_ab0b),
    (
        b"\x00\x01\x02\x03\x04\x05\x06\x07\x08\x09\x0a\x0b\x0c\x0d\x0e\x0f\
        \x10\x11\x12\x13\x14\x15\x16\x17\x18\x19\x1a\x1b\x1c\x1d\x1e\x1f",
        0x9126_7e8a,
    ),
    (
        b"\x1f\x1e\x1d\x1c\x1b\x1a\x19\x18\x17\x16\x15\x14\x13\x12\x11\x10\
        \x0f\x0e\x0d\x0c\x0b\x0a\x09\x08\x07\x06\x05\x04\x03\x02\x01\x00",
        0x9ab0_ef72,
    ),
];

// How many of the vectors come out right.
fn right(vectors: &[(&[u8], u32)]) -> usize
    ensures { result ≤ length vectors.now }
{
    vectors
        .iter()
        .filter(|v| crc::crc32_ieee(v.0) == v.1)
        .count()
}

// One bit of the register, as it leaves.
fn bit(c: u32) -> u32 {
    if c % 2 == 0 {
        c / 2
    } else {
        0xedb8_8320 ^ (c / 2)
    }
}

// CRC-32 bit by bit, with no table.
fn slow(s: &[u8]) -> u32 {
    let mut c: u32 = 0xffff_ffff;
    for b in s {
        c ^= u32::from(*b);
        for _ in 0..8 {
            c = bit(c);
        }
    }
    c ^ 0xffff_ffff
}

// CRC-32 by all sixteen tables, which `crc32_ieee` takes for long messages.
fn by_tables(s: &[u8]) -> u32 {
    let t = crc::tables();
    crc::crc32_with(&t, s)
}

// Whether all three agree.
fn agree(s: &[u8]) -> bool {
    let want = slow(s);
    by_tables(s) == want && crc::crc32_ieee(s) == want
}

// At how many lengths from 0 to 64 they agree.
fn lengths(p: &[u8; 64]) -> usize {
    (0..=64).filter(|n| agree(&p[..*n])).count()
}

fn main(rt: HostRuntime) -> io::Result<()> {
    // Each is 167 more than the one before it, modulo 256.
    let pattern = b"\x0d\xb4\x5b\x02\xa9\x50\xf7\x9e\x45\xec\x93\x3a\xe1\x88\x2f\xd6\
        \x7d\x24\xcb\x72\x19\xc0\x67\x0e\xb5\x5c\x03\xaa\x51\xf8\x9f\x46\
        \xed\x94\x3b\xe2\x89\x30\xd7\x7e\x25\xcc\x73\x1a\xc1\x68\x0f\xb6\
        \x5d\x04\xab\x52\xf9\xa0\x47\xee\x95\x3c\xe3\x8a\x31\xd8\x7f\x26";
    let mut out = rt.stdout();
    harness::write(&mut out, b"crc: ")?;
    harness::tell(
        &mut out,
        (right(&SINGLE) + right(&RHASH) + right(&GOLDEN) + right(&AUTOSAR)) as u64,
        b" of 20 published vectors, ",
    )?;
    harness::tell(&mut out, right(&ZLIB) as u64, b" of 4 of zlib, ")?;
    harness::tell(&mut out, lengths(pattern) as u64, b" of 65 lengths\n")
}
