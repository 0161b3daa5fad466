// Which zones are candidates for a position, and which zone stands at a place of the candidate list: what is asked of GRID, for any record and any bytes.
#![tactic(auto)]

ghost use Rattle.std.specs.Prelude.{◌≡◌, cond, ◌+◌, ◌*◌, ◌-ℤ◌, Some, None};
ghost use Rattle.floors.specs.Floor.{floor_of};
ghost use Rattle.reader_cells.specs.Asked.{on_earth, in_span, in_grid, cell_of, cell_candidates, candidates_of, candidate_place, zone_below, candidate_at};
ghost use Rattle.floors.specs.Steps.{Small};

use answer::Answer;
use opened::{Grid, Opened};
use replies::Choice;

fn on_earth(lng: f64, lat: f64) -> bool
    ensures { result ≡ on_earth lng lat }
{
    ((-180.0 <= lng) & (lng <= 180.0)) & ((-90.0 <= lat) & (lat <= 90.0))
}

// How many cells a coordinate lies past the first.
fn steps(x: f64, first: i16) -> i64
    requires { Small x }
    ensures { result ≡ floor_of x -ℤ first }
{
    floors::floor(x) - i64::from(first)
}

fn in_span(z: i64, count: u16) -> bool
    ensures { result ≡ in_span z count }
{
    (0 <= z) & (z < i64::from(count))
}

// Where the word of a cell stands, if the grid has it.
fn cell_place(g: Grid, column: i64, row: i64) -> Option<usize>
    ensures { result ≡ cond (in_grid g column row) (Some (g.off + 12 + 4 * cell_of g column row)) None }
{
    if !(in_span(column, g.cols) & in_span(row, g.rows)) {
        return None;
    }
    let cell = (row as usize) * usize::from(g.cols) + (column as usize);
    Some((g.off as usize) + 12 + 4 * cell)
}

// The candidates of a cell.
#[tactic(auto, unfolding(crate::specs::Asked::cell_candidates, fields::specs::Loads::loaded))]
fn cell_candidates(s: &[u8], g: Grid, column: i64, row: i64) -> Answer<Choice>
    ensures { result ≡ cell_candidates s.now g column row }
{
    let Some(at) = cell_place(g, column, row) else {
        return Ok(Choice::None);
    };
    let word = fields::load::<u32>(s, at)?;
    Ok(Choice::Listed(word / 0x1000_0000, word % 0x1000_0000))
}

// The candidates for a position.
#[tactic(auto, using(crate::proofs::Bounds::lng_small, crate::proofs::Bounds::lat_small), unfolding(crate::specs::Asked::candidates_of, answer::specs::Checks::same))]
pub fn candidates(o: Opened, s: &[u8], lng: f64, lat: f64) -> Answer<Choice>
    ensures { result ≡ candidates_of o s.now lng lat }
{
    if !on_earth(lng, lat) {
        return Ok(Choice::None);
    }
    if o.flags % 2 == 0 {
        return Ok(Choice::All(o.zones.count));
    }
    let g = o.grid;
    cell_candidates(s, g, steps(lng, g.lng), steps(lat, g.lat))
}

// Where a candidate stands.
#[tactic(auto, unfolding(crate::specs::Asked::candidate_place))]
fn candidate_place(g: Grid, place: u32) -> usize
    ensures { result ≡ candidate_place g place }
{
    let cells = reader_grid::area(g.cols, g.rows);
    (g.off as usize) + 12 + 4 * cells + 2 * (place as usize)
}

// 31.
#[tactic(auto, unfolding(crate::specs::Asked::zone_below, answer::specs::Checks::claim, answer::specs::Checks::below))]
fn zone_below(zones: u32, zone: u32) -> Answer<u32>
    ensures { result ≡ zone_below zones zone }
{
    answer::claim(31, zone < zones)?;
    Ok(zone)
}

// The zone at a place of the candidate list.
#[tactic(auto, unfolding(crate::specs::Asked::candidate_at, fields::specs::Loads::loaded, answer::specs::Checks::claim, answer::specs::Checks::below))]
pub fn candidate_at(o: Opened, s: &[u8], place: u32) -> Answer<u32>
    ensures { result ≡ candidate_at o s.now place }
{
    answer::claim(30, place < o.grid.total)?;
    let zone = fields::load::<u16>(s, candidate_place(o.grid, place))?;
    zone_below(o.zones.count, u32::from(zone))
}
