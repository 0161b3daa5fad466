// Opening, 12 to 16: the section table.
#![tactic(auto)]

ghost use Rattle.std.specs.Prelude.{◌≡◌, ◌+◌, ◌-◌, ◌*◌, ◌≤◌, ◌<◌};
ghost use Rattle.reader_head.specs.Head.{Headed};
ghost use Rattle.answer.specs.Checks.{seek, each};
ghost use Rattle.reader_table.specs.Table.{sections, entry_field, is_type, has, repeats, banned, apart, apart_at, placed_check, typed_check, entry_check, entries_check, section_of};
ghost use Rattle.reader_table.specs.Steps.{Settled};

mod units;

use answer::Answer;
use fields::Number;
use opened::Section;

// The section table of a file whose head is fine.
#[derive(Clone, Copy)]
pub struct Table<'a> {
    pub s: &'a [u8],
    pub ghost headed: { Headed s.now },
}

#[tactic(auto, unfolding(crate::specs::Table::banned, answer::specs::Checks::both, answer::specs::Checks::at_most))]
fn is_banned(t: usize) -> bool
    ensures { result ≡ banned t }
{
    (11 <= t) & (t <= 14)
}

// No byte lies in both of two parts.
#[tactic(auto, unfolding(crate::specs::Table::apart, answer::specs::Checks::either, answer::specs::Checks::at_most, answer::specs::Checks::same))]
fn is_apart(a: usize, m: usize, b: usize, n: usize) -> bool
    requires { (a < 0x1_0000_0000) × (m < 0x1_0000_0000) × (b < 0x1_0000_0000) × (n < 0x1_0000_0000) }
    ensures { result ≡ apart a m b n }
{
    (m == 0) | (n == 0) | (a + m <= b) | (b + n <= a)
}

impl Table<'_> {
    // How many entries the table has.
    pub fn count(self) -> usize
        ensures { (result ≡ sections self.entry.s.now) × (result < 0x1000_0000) }
    {
        u32::at(self.s, 20) as usize
    }

    // kept: entries are asked by their numbers, as the rules of document 01 count them.
    // The four bytes of entry i that stand k bytes into it.
    fn field(self, i: usize, k: usize) -> usize
        requires { (i < sections self.s.now) × (k ≤ 12) }
        ensures { (result ≡ entry_field self.entry.s.now i k) × (result < 0x1_0000_0000) }
    {
        u32::at(self.s, 64 + 16 * i + k) as usize
    }

    // The first of n entries that has a type; n where none has it.
    #[tactic(auto, using(answer::proofs::CheckLaws::seek_start, answer::proofs::CheckLaws::seek_yes, answer::proofs::CheckLaws::seek_no, answer::proofs::CheckLaws::seek_end, answer::proofs::CheckLaws::told_eq, answer::proofs::CheckLaws::told_ne), unfolding(crate::specs::Table::is_type))]
    fn find(self, t: usize, n: usize) -> usize
        requires { n ≤ sections self.s.now }
        ensures { (result ≡ seek (is_type self.entry.s.now t) n 0) × (result ≤ n) }
    {
        for i in 0..n {
            if self.field(i, 0) == t {
                return i;
            }
        }
        n
    }

    // One of the first n entries has the type.
    #[tactic(auto, using(answer::proofs::CheckLaws::below_is), unfolding(crate::specs::Table::has))]
    pub fn seen(self, t: usize, n: usize) -> bool
        requires { n ≤ sections self.s.now }
        ensures { result ≡ has self.entry.s.now t n }
    {
        self.find(t, n) < n
    }

    // A known type that an earlier entry has.
    #[tactic(auto, unfolding(crate::specs::Table::repeats, answer::specs::Checks::both, answer::specs::Checks::at_most))]
    fn repeated(self, t: usize, i: usize) -> bool
        requires { i ≤ sections self.s.now }
        ensures { result ≡ repeats self.entry.s.now t i }
    {
        (1 <= t) && (t <= 14) && self.seen(t, i)
    }

    // 16, of two entries.
    #[tactic(auto, unfolding(crate::specs::Table::apart_at))]
    fn apart_at(self, i: usize, j: usize) -> Answer<()>
        requires { (i < sections self.s.now) × (j < sections self.s.now) }
        ensures { result ≡ apart_at self.entry.s.now i j }
    {
        let a = self.field(i, 4);
        let m = self.field(i, 8);
        let b = self.field(j, 4);
        let n = self.field(j, 8);
        answer::claim(16, is_apart(a, m, b, n))
    }

    // 16, against every earlier entry.
    #[tactic(auto, using(answer::proofs::CheckLaws::each_start, answer::proofs::CheckLaws::each_stop, answer::proofs::CheckLaws::each_fine, answer::proofs::CheckLaws::each_end))]
    fn apart_before(self, i: usize) -> Answer<()>
        requires { i < sections self.s.now }
        ensures { result ≡ each (apart_at self.entry.s.now i) i 0 }
    {
        for j in 0..i {
            self.apart_at(i, j)?;
        }
        Ok(())
    }

    // 12 and 13 of one entry.
    #[tactic(auto, using(answer::proofs::CheckLaws::checks), unfolding(crate::specs::Table::placed_check))]
    fn placed(self, i: usize) -> Answer<()>
        requires { i < sections self.s.now }
        ensures { result ≡ placed_check self.entry.s.now i }
    {
        let off = self.field(i, 4);
        let len = self.field(i, 8);
        answer::claim(12, off % 4 == 0)?;
        answer::claim(13, 64 + 16 * self.count() <= off)?;
        answer::claim(13, off + len <= self.s.len() - 4)
    }

    // 14 and 15 of one entry.
    #[tactic(auto, using(answer::proofs::CheckLaws::checks), unfolding(crate::specs::Table::typed_check, answer::specs::Checks::deny))]
    fn typed(self, i: usize) -> Answer<()>
        requires { i < sections self.s.now }
        ensures { result ≡ typed_check self.entry.s.now i }
    {
        let t = self.field(i, 0);
        answer::claim(14, !self.repeated(t, i))?;
        answer::claim(15, !is_banned(t))
    }

    // The entries up to which no pair need be looked at. A short table is done by pairs.
    #[tactic(auto, using(crate::proofs::Windows::settled_none))]
    fn known(self) -> usize
        ensures { Settled self.entry.s.now result }
    {
        if self.count() <= 64 {
            return 0;
        }
        units::settled(self)
    }

    // 12 to 16 of one entry, where the first n are known to share no byte with an earlier one.
    #[tactic(auto, using(answer::proofs::CheckLaws::checks), unfolding(crate::specs::Table::entry_check))]
    fn entry(self, i: usize, n: usize) -> Answer<()>
        requires { (i < sections self.s.now) × Settled self.s.now n }
        ensures { result ≡ entry_check self.entry.s.now i }
    {
        self.placed(i)?;
        self.typed(i)?;
        if i < n {
            return Ok(());
        }
        self.apart_before(i)
    }

    // 12 to 16.
    #[tactic(auto, using(answer::proofs::CheckLaws::each_start, answer::proofs::CheckLaws::each_stop, answer::proofs::CheckLaws::each_fine, answer::proofs::CheckLaws::each_end), unfolding(crate::specs::Table::entries_check))]
    pub fn entries(self) -> Answer<()>
        ensures { result ≡ entries_check self.entry.s.now }
    {
        let k = self.known();
        for i in 0..self.count() {
            self.entry(i, k)?;
        }
        Ok(())
    }

    // The place of the section with a type; 0 and 0 where there is none.
    #[tactic(auto, using(crate::proofs::TableLaws::section_none, crate::proofs::TableLaws::section_some))]
    pub fn section(self, t: usize) -> Section
        ensures { result ≡ section_of self.entry.s.now t }
    {
        let n = self.count();
        let k = self.find(t, n);
        if n <= k {
            return Section { off: 0, len: 0 };
        }
        let off = u32::at(self.s, 64 + 16 * k + 4);
        let len = u32::at(self.s, 64 + 16 * k + 8);
        Section { off, len }
    }
}
