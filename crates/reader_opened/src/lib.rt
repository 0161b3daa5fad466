// Opening, 17 to 20, and how the opened record is made: of numbers of 32 bits or fewer, so that no sum of a question wraps in 64.
#![tactic(auto)]

ghost use Rattle.std.specs.Prelude.{◌≡◌, ◌+◌, ◌-◌, ◌*◌, ◌%◌, ◌<◌};
ghost use Rattle.answer.specs.Checks.{claim, each, at_most, same};
ghost use Rattle.opened.specs.declared.Section.{Section};
ghost use Rattle.reader_opened.specs.Opened.{grid_of, sections_of, directory_of, opened_of, present_at, present_check, flag_check, zones_check, lengths_check, counts_check};
ghost use Rattle.opened.specs.Within.{Within};

use answer::Answer;
use fields::Number;
use opened::{Directory, Grid, Opened, Section};
use reader_table::Table;

// What the table says of a file: where each section lies. 0 and 0 for one that is not there.
#[derive(Clone, Copy)]
pub struct Sections {
    pub flags: u32,
    pub zones: u32,
    pub names: Section,
    pub tzdir: Section,
    pub polydir: Section,
    pub ringdir: Section,
    pub ringops: Section,
    pub groupdir: Section,
    pub chunkdir: Section,
    pub gridpart: Section,
    pub points: Section,
}

// 17, of one type.
#[tactic(auto, unfolding(crate::specs::Opened::present_at))]
fn has_type(table: Table<'_>, t: usize) -> Answer<()>
    ensures { result ≡ present_at table.entry.s.now t }
{
    answer::claim(17, table.seen(t, table.count()))
}

// 17, of the types 1 to 7.
#[tactic(auto, using(answer::proofs::CheckLaws::each_stop, answer::proofs::CheckLaws::each_fine, answer::proofs::CheckLaws::each_end))]
fn has_types(table: Table<'_>) -> Answer<()>
    ensures { result ≡ each (present_at table.entry.s.now) 7 1 }
{
    for t in 1..8 {
        has_type(table, t)?;
    }
    Ok(())
}

// 17.
#[tactic(auto, using(answer::proofs::CheckLaws::checks), unfolding(crate::specs::Opened::present_check))]
pub fn present(table: Table<'_>) -> Answer<()>
    ensures { result ≡ present_check table.entry.s.now }
{
    has_types(table)?;
    has_type(table, 9)
}

// 18.
#[tactic(auto, using(answer::proofs::CheckLaws::checks), unfolding(crate::specs::Opened::flag_check, crate::specs::Opened::bit))]
pub fn flag(table: Table<'_>) -> Answer<()>
    ensures { result ≡ flag_check table.entry.s.now }
{
    let grid = table.seen(8, table.count());
    answer::claim(18, u32::at(table.s, 8) % 2 == u32::from(grid))
}

// How many bytes a record of each directory takes, as a section's length counts them.
const LIST: u32 = opened::LIST_WIDE as u32;

const RING: u32 = opened::RING_WIDE as u32;

const OP: u32 = opened::OP_WIDE as u32;

const GROUP: u32 = opened::GROUP_WIDE as u32;

const CHUNK: u32 = opened::CHUNK_WIDE as u32;

const GRID: u32 = opened::GRID_WIDE as u32;

// 19.
#[tactic(auto, using(answer::proofs::CheckLaws::checks), unfolding(crate::specs::Opened::zones_check, answer::specs::Checks::same))]
pub fn zone_length(o: Sections) -> Answer<()>
    ensures { result ≡ zones_check o }
{
    answer::claim(
        19,
        o.tzdir.len as usize == opened::LIST_WIDE * o.zones as usize,
    )
}

// 19, of a section's records, each `width` bytes long.
#[tactic(auto, unfolding(answer::specs::Checks::same))]
fn whole(p: Section, width: u32) -> Answer<()>
    requires { 0 < width }
    ensures { result ≡ claim 19 (same (p.len % width) 0) }
{
    answer::claim(19, p.len % width == 0)
}

#[tactic(auto, using(answer::proofs::CheckLaws::checks), unfolding(crate::specs::Opened::lengths_check))]
pub fn lengths(o: Sections) -> Answer<()>
    ensures { result ≡ lengths_check o }
{
    whole(o.polydir, LIST)?;
    whole(o.ringdir, RING)?;
    whole(o.ringops, OP)?;
    whole(o.groupdir, GROUP)?;
    whole(o.chunkdir, CHUNK)
}

// 20, likewise.
#[tactic(auto, unfolding(answer::specs::Checks::at_most))]
fn some(p: Section, width: u32) -> Answer<()>
    ensures { result ≡ claim 20 (at_most width p.len) }
{
    answer::claim(20, width <= p.len)
}

#[tactic(auto, using(answer::proofs::CheckLaws::checks), unfolding(crate::specs::Opened::counts_check))]
pub fn counts(o: Sections) -> Answer<()>
    ensures { result ≡ counts_check o }
{
    some(o.polydir, LIST)?;
    some(o.ringdir, RING)?;
    some(o.ringops, OP)?;
    some(o.groupdir, GROUP)?;
    some(o.chunkdir, CHUNK)
}

// What GRID's first bytes say; nothing where it has too few.
pub fn grid_of(s: &[u8], p: Section) -> Grid
    requires { Within s.now p }
    ensures { result ≡ grid_of s.now p }
{
    if p.len < GRID {
        return Grid {
            off: 0,
            lng: 0,
            lat: 0,
            cols: 0,
            rows: 0,
            total: 0,
        };
    }
    let at = p.off as usize;
    Grid {
        off: p.off,
        lng: i16::at(s, at),
        lat: i16::at(s, at + 2),
        cols: u16::at(s, at + 4),
        rows: u16::at(s, at + 6),
        total: u32::at(s, at + 8),
    }
}

#[tactic(auto, unfolding(crate::specs::Opened::sections_of))]
pub fn read_sections(table: Table<'_>) -> Sections
    ensures { result ≡ sections_of table.entry.s.now }
{
    Sections {
        flags: u32::at(table.s, 8),
        zones: u32::at(table.s, 40),
        names: table.section(1),
        tzdir: table.section(2),
        polydir: table.section(3),
        ringdir: table.section(4),
        ringops: table.section(5),
        groupdir: table.section(6),
        chunkdir: table.section(7),
        gridpart: table.section(8),
        points: table.section(9),
    }
}

// The records of a section, each `width` bytes long.
#[tactic(auto, unfolding(crate::specs::Opened::directory_of))]
fn records_of(p: Section, width: u32) -> Directory
    requires { 0 < width }
    ensures { result ≡ directory_of p width }
{
    Directory {
        off: p.off,
        count: p.len / width,
    }
}

#[tactic(auto, unfolding(crate::specs::Opened::opened_of))]
pub fn opened_of(p: Sections, grid: Grid) -> Opened
    ensures { result ≡ opened_of p grid }
{
    Opened {
        flags: p.flags,
        names: p.names,
        zones: Directory {
            off: p.tzdir.off,
            count: p.zones,
        },
        polys: records_of(p.polydir, LIST),
        rings: records_of(p.ringdir, RING),
        ops: records_of(p.ringops, OP),
        groups: records_of(p.groupdir, GROUP),
        chunks: records_of(p.chunkdir, CHUNK),
        points: p.points,
        grid,
    }
}
