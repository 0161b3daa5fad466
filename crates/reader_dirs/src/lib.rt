// Opening, 32 to 34: the chunk and the group directory, each record by the one record rule.
#![tactic(auto)]

ghost use Rattle.std.specs.Prelude.{◌≡◌, ◌+◌, ◌-◌, ◌≤◌, ◌<◌};
ghost use Rattle.answer.specs.Checks.{each};
ghost use Rattle.reader_dirs.specs.Dirs.{chunk_check, chunk_check_at, chunks_check, count_at, group_check, group_check_at, groups_check, Lies, Room};
ghost use Rattle.basics.specs.Total.{total};
ghost use Rattle.opened.specs.Widths.{group_wide, chunk_wide};

use answer::Answer;
use fields::Number;
use opened::{Directory, Opened};
use reader_records::{ChunkRecord, GroupRecord};

// 34 and 32 of a chunk, whose offset must be at least `least`.
#[tactic(auto, using(answer::proofs::CheckLaws::checks), unfolding(crate::specs::Dirs::chunk_check, answer::specs::Checks::below))]
fn chunk(v: ChunkRecord, points: u32, least: usize) -> Answer<()>
    ensures { result ≡ chunk_check v points least }
{
    answer::claim(34, reader_records::chunk_rule(v))?;
    answer::claim(32, 1 <= v.count)?;
    answer::claim(32, v.off < points)?;
    answer::claim(32, least <= v.off as usize)
}

// The chunk directory, beside the bytes that it lies in.
#[derive(Clone, Copy)]
struct ChunkDir<'a> {
    s: &'a [u8],
    d: Directory,
    ghost lies: { Lies s.now d chunk_wide },
}

impl ChunkDir<'_> {
    // 34 and 32 of every chunk, where POINTS has so many bytes.
    #[tactic(auto, using(answer::proofs::CheckLaws::each_start, answer::proofs::CheckLaws::each_stop, answer::proofs::CheckLaws::each_fine, answer::proofs::CheckLaws::each_end, crate::proofs::Loops::least_first, crate::proofs::Loops::least_next, crate::proofs::Loops::chunk_checked))]
    fn all(self, points: u32) -> Answer<()>
        ensures { result ≡ each (chunk_check_at self.entry.s.now self.entry.d points) self.entry.d.count 0 }
    {
        let mut least = 0;
        for i in 0..self.d.count as usize {
            let at = self.d.off as usize + i * opened::CHUNK_WIDE;
            let v = reader_records::chunk_in(self.s, at);
            chunk(v, points, least)?;
            least = v.off as usize + 1;
        }
        Ok(())
    }

    // The point count of chunk i.
    #[tactic(auto, unfolding(crate::specs::Dirs::count_at, reader_records::specs::Records::chunk_in))]
    fn count_at(self, i: usize) -> usize
        requires { i < self.d.count }
        ensures { (result ≡ count_at self.entry.s.now self.entry.d i) × (result < 0x1_0000) }
    {
        let at = self.d.off as usize + i * opened::CHUNK_WIDE;
        u16::at(self.s, at + 4) as usize
    }

    // The point counts of the chunks from `from` on and before `to`, added.
    #[tactic(auto, using(crate::proofs::Loops::total_start))]
    fn points_of(self, from: usize, to: usize) -> usize
        requires { (from ≤ to) × (to ≤ self.d.count) × (to < from + 0x1_0000) }
        ensures { result ≡ total (count_at self.entry.s.now self.entry.d) (to - from) from }
    {
        let mut sum = 0;
        for j in from..to {
            sum += self.count_at(j);
        }
        sum
    }

    // 34 and 33 of a group, whose chunks are in the directory.
    #[tactic(auto, using(answer::proofs::CheckLaws::checks), unfolding(crate::specs::Dirs::group_check))]
    fn group(self, v: GroupRecord) -> Answer<()>
        ensures { result ≡ group_check self.entry.s.now self.entry.d v }
    {
        answer::claim(34, reader_records::group_rule(self.d.count, v))?;
        let from = v.first as usize;
        let sum = self.points_of(from, from + v.count as usize);
        answer::claim(33, sum == v.points as usize)
    }

    // 34 and 33 of every group of a directory.
    #[tactic(auto, using(answer::proofs::CheckLaws::each_start, answer::proofs::CheckLaws::each_stop, answer::proofs::CheckLaws::each_fine, answer::proofs::CheckLaws::each_end, crate::proofs::Loops::group_checked))]
    fn groups(self, g: Directory) -> Answer<()>
        requires { Lies self.s.now g group_wide }
        ensures { result ≡ each (group_check_at self.entry.s.now g self.entry.d) g.count 0 }
    {
        for i in 0..g.count as usize {
            let at = g.off as usize + i * opened::GROUP_WIDE;
            self.group(reader_records::group_in(self.s, at))?;
        }
        Ok(())
    }
}

// 34 and 32.
#[tactic(auto, unfolding(crate::specs::Dirs::chunks_check))]
pub fn chunks(o: Opened, s: &[u8]) -> Answer<()>
    requires { Room s.now o }
    ensures { result ≡ chunks_check s.now o }
{
    let chunks = ChunkDir { s, d: o.chunks };
    chunks.all(o.points.len)
}

// 34 and 33.
#[tactic(auto, unfolding(crate::specs::Dirs::groups_check))]
pub fn groups(o: Opened, s: &[u8]) -> Answer<()>
    requires { Room s.now o }
    ensures { result ≡ groups_check s.now o }
{
    let chunks = ChunkDir { s, d: o.chunks };
    chunks.groups(o.groups)
}
