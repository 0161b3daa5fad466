// Names, 21 to 26: n names in the `len` bytes from `at` on, as blob length, n + 1 offsets, blob.
#![tactic(auto)]

ghost use Rattle.std.specs.Prelude.{◌≡◌, ◌+◌, ◌≤◌, ◌<◌, length};
ghost use Rattle.answer.specs.Checks.{each};
ghost use Rattle.reader_names.specs.Names.{offset_at, shape_check, offset_rule, offset_check, text_check, text_at, names_check};
ghost use Rattle.reader_names.specs.Steps.{Shaped, Ordered};

use answer::Answer;
use fields::Number;

// 21 and 22.
#[tactic(auto, using(answer::proofs::CheckLaws::checks), unfolding(crate::specs::Names::shape_check))]
fn shape(s: &[u8], at: usize, len: usize, n: usize) -> Answer<()>
    requires { (at + len ≤ length s.now) × (length s.now < 0x1_0000_0000) × (n < 0x1_0000_0000) }
    ensures { result ≡ shape_check s.now at len n }
{
    let prefix = 8 + 4 * n;
    answer::claim(21, prefix <= len)?;
    answer::claim(22, prefix + u32::at(s, at) as usize == len)
}

// 23 and 24 of one offset, with the one before.
#[tactic(auto, using(answer::proofs::CheckLaws::clear, answer::proofs::CheckLaws::barred, answer::proofs::CheckLaws::end), unfolding(crate::specs::Names::offset_rule))]
fn offset_ok(i: usize, n: usize, prev: usize, off: usize, blob: usize) -> Answer<()>
    ensures { result ≡ offset_rule i n prev off blob }
{
    if (off < prev) | ((off > blob) | ((i == n) & (off != blob))) {
        return answer::fail(23);
    }
    if (i > 0) & (off == prev) {
        return answer::fail(24);
    }
    Ok(())
}

// 25 and 26 of a name.
#[tactic(auto, using(answer::proofs::CheckLaws::checks, answer::proofs::CheckLaws::seek_start), unfolding(crate::specs::Names::text_check))]
fn text_ok(name: &[u8]) -> Answer<()>
    ensures { result ≡ text_check name.now }
{
    answer::claim(25, utf8::utf8_ok(name))?;
    answer::claim(26, reader_head::text_end(name, 0, name.len()) == name.len())
}

// Names whose shape is fine: n of them from `at` on.
#[derive(Clone, Copy)]
struct NameList<'a> {
    s: &'a [u8],
    at: usize,
    n: usize,
    ghost shaped: { Shaped s.now at n },
}

impl NameList<'_> {
    fn offset(self, i: usize) -> usize
        requires { i ≤ self.n }
        ensures { (result ≡ offset_at self.entry.s.now self.entry.at i) × (result < 0x1_0000_0000) }
    {
        u32::at(self.s, self.at + 4 + 4 * i) as usize
    }

    #[tactic(auto, using(answer::proofs::CheckLaws::each_start, answer::proofs::CheckLaws::each_stop, answer::proofs::CheckLaws::each_fine, answer::proofs::CheckLaws::each_end, crate::proofs::Rises::prior_first, crate::proofs::Rises::prior_next, crate::proofs::Rises::offset_on))]
    fn offsets(self) -> Answer<()>
        ensures { result ≡ each (offset_check self.entry.s.now self.entry.at self.entry.n) (self.entry.n + 1) 0 }
    {
        let blob = u32::at(self.s, self.at) as usize;
        let mut prev = 0;
        for i in 0..self.n + 1 {
            let off = self.offset(i);
            offset_ok(i, self.n, prev, off, blob)?;
            prev = off;
        }
        Ok(())
    }

    #[tactic(auto, using(crate::proofs::Rises::text_on))]
    fn name_ok(self, i: usize) -> Answer<()>
        requires { Ordered self.s.now self.at self.n × (i < self.n) }
        ensures { result ≡ text_at self.entry.s.now self.entry.at self.entry.n i }
    {
        let blob = self.at + 8 + 4 * self.n;
        let from = blob + self.offset(i);
        let to = blob + self.offset(i + 1);
        text_ok(&self.s[from..to])
    }

    #[tactic(auto, using(answer::proofs::CheckLaws::each_start, answer::proofs::CheckLaws::each_stop, answer::proofs::CheckLaws::each_fine, answer::proofs::CheckLaws::each_end))]
    fn texts(self) -> Answer<()>
        requires { Ordered self.s.now self.at self.n }
        ensures { result ≡ each (text_at self.entry.s.now self.entry.at self.entry.n) self.entry.n 0 }
    {
        for i in 0..self.n {
            self.name_ok(i)?;
        }
        Ok(())
    }
}

// 21 to 26.
#[tactic(auto, using(answer::proofs::CheckLaws::checks, crate::proofs::Rises::shaped, crate::proofs::Rises::ordered), unfolding(crate::specs::Names::names_check))]
pub fn names(s: &[u8], at: usize, len: usize, n: usize) -> Answer<()>
    requires { (at + len ≤ length s.now) × (length s.now < 0x1_0000_0000) × (n < 0x1_0000_0000) }
    ensures { result ≡ names_check s.now at len n }
{
    shape(s, at, len, n)?;
    let names = NameList { s, at, n };
    names.offsets()?;
    names.texts()
}
