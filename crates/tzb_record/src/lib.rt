// The opened record as bytes: who asks from another language keeps them between questions. Any bytes are read or refused; none are trusted.
#![tactic(auto)]

ghost use Rattle.std.specs.Prelude.{◌≡◌, length};
ghost use Rattle.answer.specs.Answers.{outcome, left};
ghost use Rattle.tzb_record.specs.Layout.{record_wide, numbers_of, opened_in, record_of, record_into};

use answer::Answer;
use fields::Number;
use opened::{Directory, Grid, Opened, Section};

// ---- from bytes: each field is loaded where it stands

fn opened_in(s: &[u8]) -> Opened
    requires { length s.now ≡ record_wide }
    ensures { result ≡ opened_in s.now }
{
    Opened {
        flags: u32::at(s, 0),
        names: Section {
            off: u32::at(s, 4),
            len: u32::at(s, 8),
        },
        zones: Directory {
            off: u32::at(s, 12),
            count: u32::at(s, 16),
        },
        polys: Directory {
            off: u32::at(s, 20),
            count: u32::at(s, 24),
        },
        rings: Directory {
            off: u32::at(s, 28),
            count: u32::at(s, 32),
        },
        ops: Directory {
            off: u32::at(s, 36),
            count: u32::at(s, 40),
        },
        groups: Directory {
            off: u32::at(s, 44),
            count: u32::at(s, 48),
        },
        chunks: Directory {
            off: u32::at(s, 52),
            count: u32::at(s, 56),
        },
        points: Section {
            off: u32::at(s, 60),
            len: u32::at(s, 64),
        },
        grid: Grid {
            off: u32::at(s, 68),
            lng: i16::at(s, 72),
            lat: i16::at(s, 74),
            cols: u16::at(s, 76),
            rows: u16::at(s, 78),
            total: u32::at(s, 80),
        },
    }
}

// How many bytes a record takes: the sum of the widths.
const RECORD_WIDE: usize = 84;

// The record that stands in the bytes, or 44 where they are not as many as a record's.
pub fn read_record(bytes: &[u8]) -> Answer<Opened>
    ensures { result ≡ record_of bytes.now }
{
    if bytes.len() != RECORD_WIDE {
        return answer::fail(44);
    }
    Ok(opened_in(bytes))
}

// ---- to bytes: the numbers, then a row of them

const FIELDS: usize = 23;

// kept: two rows, as `row_bytes widths numbers` (fields/specs/Row) and the laws of its round trip have them.
const WIDTHS: [usize; FIELDS] = [
    4, 4, 4, 4, 4, 4, 4, 4, 4, 4, 4, 4, 4, 4, 4, 4, 4, 4, 2, 2, 2, 2, 4,
];

fn numbers(o: Opened) -> [u64; FIELDS]
    ensures { result ≡ numbers_of o }
{
    [
        o.flags as u64,
        o.names.off as u64,
        o.names.len as u64,
        o.zones.off as u64,
        o.zones.count as u64,
        o.polys.off as u64,
        o.polys.count as u64,
        o.rings.off as u64,
        o.rings.count as u64,
        o.ops.off as u64,
        o.ops.count as u64,
        o.groups.off as u64,
        o.groups.count as u64,
        o.chunks.off as u64,
        o.chunks.count as u64,
        o.points.off as u64,
        o.points.len as u64,
        o.grid.off as u64,
        o.grid.lng.cast_unsigned() as u64,
        o.grid.lat.cast_unsigned() as u64,
        o.grid.cols as u64,
        o.grid.rows as u64,
        o.grid.total as u64,
    ]
}

// The record's bytes into lent memory; 46 where there is no room for them, and then nothing is written. What lies behind is never touched.
pub fn write_record(o: Opened, out: &mut [u8]) -> Answer<()>
    ensures result_value { result ≡ outcome (record_into o out.old) }
    ensures memory { out.new ≡ left out.old (record_into o out.old) }
{
    if out.len() < RECORD_WIDE {
        return answer::fail(46);
    }
    let ns = numbers(o);
    fields::store_row(out, 0, &WIDTHS, &ns);
    Ok(())
}
