// GRID: opening's checks of it, 27 to 31.
#![tactic(auto)]

ghost use Rattle.std.specs.Prelude.{◌≡◌, ◌+◌, ◌*◌, ◌≤◌, ◌<◌, length};
ghost use Rattle.answer.specs.Checks.{each};
ghost use Rattle.reader_grid.specs.Word.{word_count, word_offset, range_check};
ghost use Rattle.reader_grid.specs.Grid.{last_of, dimensions, candidate_check, cell_check, grid_check};
ghost use Rattle.opened.specs.Within.{Within};

use answer::Answer;
use fields::Number;
use opened::{Grid, Section};

// The last longitude or latitude.
fn last(first: i16, count: u16) -> i32
    ensures { result ≡ last_of first count }
{
    (first as i32) + (count as i32) - 1
}

// 28.
fn dimensions(g: Grid) -> bool
    ensures { result ≡ dimensions g }
{
    ((0 < g.cols) & (0 < g.rows))
        & (((-181 <= g.lng) & (g.lng <= 180)) & ((-91 <= g.lat) & (g.lat <= 90)))
        & ((last(g.lng, g.cols) <= 181) & (last(g.lat, g.rows) <= 91))
        & (g.total < 0x1000_0000)
}

fn top(w: usize) -> usize
    ensures { result ≡ word_count w }
{
    w / 0x1000_0000
}

fn low(w: usize) -> usize
    ensures { result ≡ word_offset w }
{
    w % 0x1000_0000
}

// 30 of a cell's word.
#[tactic(auto, unfolding(crate::specs::Word::range_check, answer::specs::Checks::at_most))]
fn range(w: usize, total: usize) -> Answer<()>
    requires { w < 0x1_0000_0000 }
    ensures { result ≡ range_check w total }
{
    answer::claim(30, low(w) + top(w) <= total)
}

// The cells of a GRID, which stand from `at` on, and behind them the candidates: how many of both there are, and how many zones.
#[derive(Clone, Copy)]
struct Cells<'a> {
    s: &'a [u8],
    at: usize,
    count: usize,
    total: usize,
    zones: usize,
    ghost fits: { at + 4 * count + 2 * total ≤ length s.now },
    ghost small: { length s.now < 0x1_0000_0000 },
}

impl Cells<'_> {
    // 31, the j-th candidate from place `from` on.
    #[tactic(auto, unfolding(crate::specs::Grid::candidate_check, answer::specs::Checks::below))]
    fn zone_listed(self, from: usize, j: usize) -> Answer<()>
        requires { from + j < self.total }
        ensures { result ≡ candidate_check self.entry.s.now (self.entry.at + 4 * self.entry.count + 2 * from) self.entry.zones j }
    {
        let cands = self.at + 4 * self.count;
        answer::claim(
            31,
            (u16::at(self.s, cands + 2 * from + 2 * j) as usize) < self.zones,
        )
    }

    // 31, of n candidates.
    #[tactic(auto, using(answer::proofs::CheckLaws::each_start, answer::proofs::CheckLaws::each_stop, answer::proofs::CheckLaws::each_fine, answer::proofs::CheckLaws::each_end))]
    fn zones_listed(self, from: usize, n: usize) -> Answer<()>
        requires { from + n ≤ self.total }
        ensures { result ≡ each (candidate_check self.entry.s.now (self.entry.at + 4 * self.entry.count + 2 * from) self.entry.zones) n 0 }
    {
        for j in 0..n {
            self.zone_listed(from, j)?;
        }
        Ok(())
    }

    // 30 and 31 of a cell.
    #[tactic(auto, using(answer::proofs::CheckLaws::checks, crate::proofs::Checking::ranged), unfolding(crate::specs::Grid::cell_check))]
    fn cell(self, i: usize) -> Answer<()>
        requires { i < self.count }
        ensures { result ≡ cell_check self.entry.s.now self.entry.at (self.entry.at + 4 * self.entry.count) self.entry.total self.entry.zones i }
    {
        let w = u32::at(self.s, self.at + 4 * i) as usize;
        range(w, self.total)?;
        self.zones_listed(low(w), top(w))
    }

    #[tactic(auto, using(answer::proofs::CheckLaws::each_start, answer::proofs::CheckLaws::each_stop, answer::proofs::CheckLaws::each_fine, answer::proofs::CheckLaws::each_end))]
    fn all(self) -> Answer<()>
        ensures { result ≡ each (cell_check self.entry.s.now self.entry.at (self.entry.at + 4 * self.entry.count) self.entry.total self.entry.zones) self.entry.count 0 }
    {
        for i in 0..self.count {
            self.cell(i)?;
        }
        Ok(())
    }
}

// How many cells there are.
pub fn area(cols: u16, rows: u16) -> usize
    ensures { (result ≡ cols * rows) × (result < 0x1_0000_0000) }
{
    (cols as usize) * (rows as usize)
}

// 27 to 31, of a section and what its first bytes say.
#[tactic(auto, using(answer::proofs::CheckLaws::checks), unfolding(crate::specs::Grid::grid_check))]
pub fn grid(s: &[u8], sec: Section, g: Grid, zones: usize) -> Answer<()>
    requires { Within s.now sec × (length s.now < 0x1_0000_0000) }
    ensures { result ≡ grid_check s.now sec g zones }
{
    let len = sec.len as usize;
    answer::claim(27, 12 <= len)?;
    answer::claim(28, dimensions(g))?;
    let count = area(g.cols, g.rows);
    let total = g.total as usize;
    answer::claim(29, 12 + 4 * count + 2 * total == len)?;
    let cells = Cells {
        s,
        at: sec.off as usize + 12,
        count,
        total,
        zones,
    };
    cells.all()
}
