// Opening, 1 to 11: the header, the table's bounds, the checksum.
#![tactic(auto)]

ghost use Rattle.std.specs.Prelude.{◌≡◌, ◌==◌, ◌+◌, ◌-◌, ◌≤◌, length};
ghost use Rattle.std.specs.List.{position, list_all};
ghost use Rattle.answer.specs.Checks.{seek};
ghost use Rattle.reader_head.specs.Head.{start_check, is_count, fields_check, version_check, bounds_check, head_check, is_zero};

use answer::Answer;
use fields::Number;

// 1 to 4: size, magic and major, profile.
#[tactic(auto, using(answer::proofs::CheckLaws::checks), unfolding(crate::specs::Head::start_check))]
fn start(s: &[u8]) -> Answer<()>
    ensures { result ≡ start_check s.now }
{
    if (s.len() < 68) | (s.len() > 0xffff_ffff) {
        return answer::fail(1);
    }
    answer::claim(2, s.starts_with(b"TZFB"))?;
    answer::claim(2, s[4] == 1)?;
    match s[48] {
        0 => Ok(()),
        1 => answer::fail(3),
        _ => answer::fail(4),
    }
}

// From 1 to 65,535.
#[tactic(auto, unfolding(crate::specs::Head::is_count))]
fn is_count(n: u32) -> bool
    ensures { result ≡ is_count n }
{
    (1 <= n) & (n <= 65_535)
}

fn first_zero(s: &[u8]) -> Option<usize>
    ensures { result ≡ position (λ b. b == 0) s.now }
{
    s.iter().position(|b| *b == 0)
}

fn all_zero(s: &[u8]) -> bool
    ensures { result ≡ list_all (λ b. b == 0) s.now }
{
    s.iter().all(|b| *b == 0)
}

// The first of the places from `from` on, and before `to`, at which a zero stands.
pub fn text_end(s: &[u8], from: usize, to: usize) -> usize
    requires { (from ≤ to) × (to ≤ length s.now) }
    ensures { (result ≡ seek (is_zero s.now) (to - from) from) × (from ≤ result) × (result ≤ to) }
{
    match first_zero(&s[from..to]) {
        Some(k) => from + k,
        None => to,
    }
}

// A file with as many bytes as a header and a sum take.
#[derive(Clone, Copy)]
struct Header<'a> {
    s: &'a [u8],
    ghost long: { 68 ≤ length s.now },
}

impl Header<'_> {
    // 5 to 7: header fields, zone count, chunk target.
    #[tactic(auto, using(answer::proofs::CheckLaws::checks), unfolding(crate::specs::Head::fields_check))]
    fn fields(self) -> Answer<()>
        ensures { result ≡ fields_check self.entry.s.now }
    {
        if (u16::at(self.s, 6) != 64)
            | ((u32::at(self.s, 12) != 100_000) | (u32::at(self.s, 16) as usize != self.s.len()))
        {
            return answer::fail(5);
        }
        answer::claim(6, is_count(u32::at(self.s, 40)))?;
        answer::claim(7, is_count(u32::at(self.s, 44)))
    }

    // 8 and 9: version padding, version UTF-8.
    fn version(self) -> Answer<()>
        ensures { result ≡ version_check self.entry.s.now }
    {
        let e = text_end(self.s, 24, 40);
        answer::claim(8, all_zero(&self.s[e..40]))?;
        answer::claim(9, utf8::utf8_ok(&self.s[24..e]))
    }

    // 10 and 11: section table bounds, CRC-32.
    #[tactic(auto, using(answer::proofs::CheckLaws::checks), unfolding(crate::specs::Head::bounds_check))]
    fn bounds(self) -> Answer<()>
        ensures { result ≡ bounds_check self.entry.s.now }
    {
        let end = self.s.len() - 4;
        answer::claim(10, 64 + 16 * u32::at(self.s, 20) as usize <= end)?;
        answer::claim(11, crc::crc32_ieee(&self.s[..end]) == u32::at(self.s, end))
    }
}

// 1 to 11.
#[tactic(auto, using(answer::proofs::CheckLaws::checks, crate::proofs::HeadLaws::started), unfolding(crate::specs::Head::head_check))]
pub fn head(s: &[u8]) -> Answer<()>
    ensures { result ≡ head_check s.now }
{
    start(s)?;
    let header = Header { s };
    header.fields()?;
    header.version()?;
    header.bounds()
}
