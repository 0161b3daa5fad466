// CRC-32 of IEEE 802.3, sixteen bytes at a time by sixteen tables. The tables are made by code, and lent by reference.
#![tactic(auto)]

ghost use Rattle.std.specs.Prelude.{◌≡◌, ◌+◌, ◌*◌, ◌%◌, ◌^◌, ◌<◌, ◌≤◌, length};
ghost use Rattle.checksum.specs.Crc32.{step, steps, bytes, crc32, Filled};
ghost use Rattle.crc.specs.Steps.{First};

use fields::Number;

// One bit leaves the register.
#[tactic(auto, unfolding(checksum::specs::Crc32::step))]
fn one(c: u32) -> u32
    ensures { result ≡ step c }
{
    if c % 2 == 0 {
        c / 2
    } else {
        0xedb8_8320 ^ (c / 2)
    }
}

// Eight bits leave the register.
fn eight(c: u32) -> u32
    ensures { result ≡ steps 8 c }
{
    let mut rest = c;
    for _ in 0..8u32 {
        rest = one(rest);
    }
    rest
}

// The entries from 2^k on, as many as are below it, from those below it: the bit of 2^k and what is below it leave apart.
fn doubled(t: &mut [u32], k: u32)
    requires { (k < 8) × First t.old (2 ^ k) }
    ensures { First t.new (2 ^ (k + 1)) }
{
    let p = 1 << k;
    let x = eight(p as u32);
    for j in 0..p {
        t[p + j] = x ^ t[j];
    }
}

// The first table, in the first 256 places.
fn first_row(t: &mut [u32])
    requires { 256 ≤ length t.old }
    ensures { First t.new 256 }
{
    t[0] = 0;
    for k in 0..8 {
        doubled(t, k);
    }
}

// All sixteen tables, written: each entry after the first 256 comes from the one 256 places before it.
fn fill(t: &mut [u32; 4096])
    ensures { Filled t.new 4096 }
{
    first_row(&mut t[..]);
    for i in 256..4096 {
        let prev = t[i - 256];
        t[i] = t[(prev % 256) as usize] ^ (prev / 256);
    }
}

// All sixteen tables.
pub fn tables() -> [u32; 4096]
    ensures { Filled result 4096 }
{
    let mut t = [0u32; 4096];
    fill(&mut t);
    t
}

// All sixteen tables, lent, with their rule.
#[derive(Clone, Copy)]
struct AllTables<'a> {
    t: &'a [u32; 4096],
    ghost filled: { Filled t.now 4096 },
}

impl AllTables<'_> {
    // The entry of table k for the lowest byte of v: what that byte leaves with k more bytes to come.
    fn slot(self, k: usize, v: u64) -> u32
        requires { k < 16 }
        ensures { result ≡ steps (8 * (k + 1)) (v % 256) }
    {
        self.t[256 * k + (v % 256) as usize]
    }

    // What the eight bytes of v0 leave with k more bytes to come.
    fn word(self, k: usize, v0: u64) -> u32
        requires { k ≤ 8 }
        ensures { result ≡ steps (8 * (k + 8)) v0 }
    {
        let v1 = v0 / 256;
        let v2 = v1 / 256;
        let v3 = v2 / 256;
        let v4 = v3 / 256;
        let v5 = v4 / 256;
        let v6 = v5 / 256;
        let v7 = v6 / 256;
        self.slot(k + 7, v0)
            ^ (self.slot(k + 6, v1)
                ^ (self.slot(k + 5, v2)
                    ^ (self.slot(k + 4, v3)
                        ^ (self.slot(k + 3, v4)
                            ^ (self.slot(k + 2, v5) ^ (self.slot(k + 1, v6) ^ self.slot(k, v7)))))))
    }

    // The register after sixteen bytes: the eight that do not wait for it first.
    fn sixteen(self, c: u32, s: &[u8; 16]) -> u32
        ensures { result ≡ bytes c s.now }
    {
        let hi = self.word(0, u64::at(s, 8));
        let lo = u64::from(c) ^ u64::at(s, 0);
        self.word(8, lo) ^ hi
    }
}

// The register after the bytes, one at a time, by the first table.
fn tail(t: &[u32], c0: u32, s: &[u8]) -> u32
    requires { First t.now 256 }
    ensures { result ≡ bytes c0 s.now }
{
    let mut c = c0;
    for b in s {
        c = (c / 256) ^ t[((c ^ u32::from(*b)) % 256) as usize];
    }
    c
}

// CRC-32 with tables that the caller has made: the one function of this crate with a `requires`
// that others reach, because a table lent by reference carries its rule.
pub fn crc32_with(t: &[u32; 4096], s: &[u8]) -> u32
    requires { Filled t.now 4096 }
    ensures { result ≡ crc32 s.now }
{
    let all = AllTables { t };
    let (blocks, rest) = s.as_chunks::<16>();
    let mut c: u32 = 0xffff_ffff;
    for block in blocks {
        c = all.sixteen(c, block);
    }
    tail(t, c, rest) ^ 0xffff_ffff
}

// CRC-32 byte by byte: for a short message one table is quicker than sixteen.
fn crc32_short(s: &[u8]) -> u32
    ensures { result ≡ crc32 s.now }
{
    let mut t = [0u32; 256];
    first_row(&mut t);
    tail(&t, 0xffff_ffff, s) ^ 0xffff_ffff
}

// CRC-32 of any bytes.
pub fn crc32_ieee(s: &[u8]) -> u32
    ensures { result ≡ crc32 s.now }
{
    if s.len() < 0x4000 {
        return crc32_short(s);
    }
    // not by `tables`: an answer of 16 KB would be copied, and so take the stack twice more
    let mut t = [0u32; 4096];
    fill(&mut t);
    crc32_with(&t, s)
}
