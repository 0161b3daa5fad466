// A ring with room in it: three segments that are not degenerate, counted as its groups are read. The third ends the reading.
#![tactic(auto)]

ghost use Rattle.std.specs.Prelude.{◌≡◌, ◌<◌};
ghost use Rattle.answer.specs.Answers.{holds};
ghost use Rattle.reader_room.specs.Steps.{chunks_count, line_of, group_line, line_at, lines_room, room_of};

use answer::Answer;
use opened::Opened;
use plane::I32Point;
use reader_records::{GroupRecord, RingRecord};
use tzb_core::chunk;

// A group as its op has it: how many segments are counted so far, where it is entered and where it is left.
#[derive(Clone, Copy)]
pub struct Line {
    pub sides: u32,
    pub entry: I32Point,
    pub exit: I32Point,
}

// That many chunks from chunk `first` on, after the point before them and with so many segments counted.
fn count_chunks(
    o: Opened,
    s: &[u8],
    first: u32,
    count: u16,
    before: I32Point,
    sides: u32,
) -> Answer<(u32, I32Point)>
    ensures { result ≡ chunks_count o s.now count first before sides }
{
    let from = first as usize;
    let to = from + count as usize;
    let mut sofar = (sides, before);
    for i in from..to {
        sofar = reader_chunks::count_at(o, s, i, sofar.1, sofar.0)?;
        if 3 <= sofar.0 {
            return Ok(sofar);
        }
    }
    Ok(sofar)
}

// A group from its first point to its last, as it is stored or turned round.
#[tactic(auto, unfolding(crate::specs::Steps::line_of))]
fn line_of(turned: bool, first: I32Point, sides: u32, last: I32Point) -> Line
    ensures { result ≡ line_of turned first (sides, last) }
{
    let (entry, exit) = if turned { (last, first) } else { (first, last) };
    Line { sides, entry, exit }
}

// The same read from the file, with so many segments counted before it.
#[tactic(auto, unfolding(crate::specs::Steps::group_line))]
fn group_line(o: Opened, s: &[u8], turned: bool, sides: u32, g: GroupRecord) -> Answer<Line>
    ensures { result ≡ group_line o s.now turned sides g }
{
    let first = reader_chunks::first_at(o, s, g.first as usize)?;
    let (n, last) = count_chunks(o, s, g.first, g.count, first, sides)?;
    Ok(line_of(turned, first, n, last))
}

// The group of op `index`, with so many segments counted before it.
#[tactic(auto, unfolding(crate::specs::Steps::line_at))]
fn line_at(o: Opened, s: &[u8], index: usize, sides: u32) -> Answer<Line>
    ensures { result ≡ line_at o s.now index sides }
{
    let word = reader_records::op_at(o, s, index)?;
    let g = reader_records::group_at(o, s, word % 0x8000_0000)?;
    group_line(o, s, 0x8000_0000 <= word, sides, g)
}

// That many ops from op `first` on, after the group that was left at `exit` and with so many segments counted; then back to the start.
fn lines_room(
    o: Opened,
    s: &[u8],
    start: I32Point,
    count: u16,
    first: usize,
    exit: I32Point,
    sides: u32,
) -> Answer<bool>
    requires { first < 0x1_0001_0000 }
    ensures { result ≡ lines_room o s.now start count first exit sides }
{
    let to = first + count as usize;
    let mut q = exit;
    let mut n = sides;
    for i in first..to {
        let v = line_at(o, s, i, n)?;
        n = chunk::with_side(q, v.entry, v.sides);
        if 3 <= n {
            return Ok(true);
        }
        q = v.exit;
    }
    Ok(3 <= chunk::with_side(q, start, n))
}

// The walk over a ring's groups.
#[tactic(auto, unfolding(crate::specs::Steps::room_of))]
fn room_of(o: Opened, s: &[u8], v: RingRecord) -> Answer<bool>
    ensures { result ≡ room_of o s.now v }
{
    let first = v.first as usize;
    let u = line_at(o, s, first, 0)?;
    if 3 <= u.sides {
        return Ok(true);
    }
    let rest = v.count.saturating_sub(1);
    lines_room(o, s, u.entry, rest, first + 1, u.exit, u.sides)
}

// The ring has three segments that are not degenerate.
#[tactic(auto, unfolding(answer::specs::Answers::holds))]
pub fn has_room(o: Opened, s: &[u8], v: RingRecord) -> bool
    ensures { result ≡ holds (λ b. b) (room_of o s.now v) }
{
    room_of(o, s, v).unwrap_or(false)
}
