// The reader. Opening answers an opened record, by value; every question takes it beside the file's bytes.
#![tactic(auto)]

ghost use Rattle.std.specs.Prelude.{◌≡◌};
ghost use Rattle.reader_opened.specs.Opened.{opened_of};
ghost use Rattle.tzb.specs.FullCheck.{full_check_of};
ghost use Rattle.tzb.specs.Opening.{table_check, sizes_check, names_in, grid_in, contents_check, open_of};
ghost use Rattle.tzb.specs.Steps.{Placed};

use answer::Answer;
use opened::{Grid, Opened};
pub use reader_cells::{candidate_at, candidates};
pub use reader_chunks::decode_chunk_points;
pub use reader_listing::{lookup_into, lookup_into_by};
pub use reader_lookup::{lookup, lookup_by};
pub use reader_named::{name, name_refusal};
use reader_opened::Sections;
pub use reader_records::{chunk_at, group_at, op_at, poly_at, ring_at, tz_at};
pub use reader_stripes::{stripes, stripes_need};
use reader_table::Table;
pub use reader_zones::{contains, contains_by};
use replies::Fault;

// 1 to 18: the header, the section table, the sections that there must be.
#[tactic(auto, using(answer::proofs::CheckLaws::checks, reader_head::proofs::HeadLaws::headed), unfolding(crate::specs::Opening::table_check))]
fn table(s: &[u8]) -> Answer<()>
    ensures { result ≡ table_check s.now }
{
    reader_head::head(s)?;
    let table = Table { s };
    table.entries()?;
    reader_opened::present(table)?;
    reader_opened::flag(table)
}

// 19 and 20: the directories' lengths.
#[tactic(auto, using(answer::proofs::CheckLaws::checks), unfolding(crate::specs::Opening::sizes_check))]
fn sizes(p: Sections) -> Answer<()>
    ensures { result ≡ sizes_check p }
{
    reader_opened::zone_length(p)?;
    reader_opened::lengths(p)?;
    reader_opened::counts(p)
}

// What the table places, beside the bytes that hold it.
#[derive(Clone, Copy)]
struct Parts<'a> {
    s: &'a [u8],
    p: Sections,
    ghost placed: { Placed s.now p },
}

impl Parts<'_> {
    // 21 to 26.
    #[tactic(auto, unfolding(crate::specs::Opening::names_in))]
    fn names(self) -> Answer<()>
        ensures { result ≡ names_in self.entry.s.now self.entry.p }
    {
        let part = self.p.names;
        reader_names::names(
            self.s,
            part.off as usize,
            part.len as usize,
            self.p.zones as usize,
        )
    }

    // 27 to 31, if GRID is present.
    #[tactic(auto, using(crate::proofs::OpeningLaws::grid_absent, crate::proofs::OpeningLaws::grid_present))]
    fn grid(self, g: Grid) -> Answer<()>
        ensures { result ≡ grid_in self.entry.s.now self.entry.p g }
    {
        if self.p.flags % 2 == 0 {
            return Ok(());
        }
        reader_grid::grid(self.s, self.p.gridpart, g, self.p.zones as usize)
    }

    // 19 to 34.
    #[tactic(auto, using(answer::proofs::CheckLaws::checks), unfolding(crate::specs::Opening::contents_check))]
    fn contents(self, g: Grid, o: Opened) -> Answer<()>
        requires { o ≡ opened_of self.p g }
        ensures { result ≡ contents_check self.entry.s.now self.entry.p g o }
    {
        sizes(self.p)?;
        self.names()?;
        self.grid(g)?;
        reader_dirs::chunks(o, self.s)?;
        reader_dirs::groups(o, self.s)
    }
}

// The opened record, or the first refusal.
#[tactic(auto, using(crate::proofs::OpeningLaws::tabled, crate::proofs::OpeningLaws::open_barred, crate::proofs::OpeningLaws::open_refused, crate::proofs::OpeningLaws::open_done))]
pub fn open(file: &[u8]) -> Answer<Opened>
    ensures { result ≡ open_of file.now }
{
    table(file)?;
    let p = reader_opened::read_sections(Table { s: file });
    let g = reader_opened::grid_of(file, p.gridpart);
    let o = reader_opened::opened_of(p, g);
    let parts = Parts { s: file, p };
    parts.contents(g, o)?;
    Ok(o)
}

// Checks F1 to F6 over the whole file. Of an accepted file no question is refused but for a number that is too large, a place of the candidate list that no cell lists, or room that is too short.
#[tactic(auto, using(crate::proofs::FullCheckLaws::full_refused, crate::proofs::FullCheckLaws::full_accepted))]
pub fn full_check(s: &[u8]) -> Result<(), Fault>
    ensures { result ≡ full_check_of s.now }
{
    let o = open(s)?;
    match reader_check::broken_rule(o, s) {
        0 => Ok(()),
        n => Err(Fault::Broken(answer::refuse(47), n)),
    }
}
