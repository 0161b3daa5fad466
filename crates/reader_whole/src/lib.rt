// All zones of a whole-number point, in the order of their names, into lent places: every zone is asked in turn, without GRID.
#![tactic(auto)]

ghost use Rattle.std.specs.Prelude.{◌≡◌, length};
ghost use Rattle.answer.specs.Answers.{how_many, left};
ghost use Rattle.reader_whole.specs.Whole.{whole_list};

use answer::Answer;
use opened::Opened;
use plane::I32Point;
use reader_lookup::Candidates;
use reader_ways::Way;

// How many zones there are; they stand in the first places of `out`. A point outside the domain has none, for any record and bytes. A refusal leaves the lent memory as it was, and places behind the zones are never touched.
pub fn whole_list(o: Opened, s: &[u8], q: I32Point, out: &mut [u32]) -> Answer<u32>
    ensures result_value { result ≡ how_many (whole_list o s.now q (length out.old)) }
    ensures memory { out.new ≡ left out.old (whole_list o s.now q (length out.old)) }
{
    if !boxes::point_in_domain(q) {
        return Ok(0);
    }
    let all = Candidates {
        grid: false,
        count: o.zones.count,
        from: 0,
    };
    let p = tzb_core::raycast::to_point(q);
    reader_listing::list_in(Way::Plain, o, s, p, all, out)
}
