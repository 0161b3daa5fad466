// A group as its stripes are made of it: its first chunk, how many chunks it has, and how it is cut.
#![tactic(auto)]

ghost use Rattle.std.specs.Prelude.{◌≡◌, ◌≤◌, ◌<◌};
ghost use Rattle.stripes.specs.Stripes.{striping_of};

use boxes::BBox;
use stripes::Striping;

#[derive(Clone, Copy)]
pub struct Cut {
    pub first: u32,
    pub count: u32,
    pub striping: Striping,
    ghost high: { 0 < striping.height },
    ghost few: { striping.k ≤ 256 },
    ghost chunks: { count ≤ 65_535 },
}

impl Cut {
    pub(crate) fn of(first: u32, count: u16, b: BBox) -> Cut
        ensures { (result.first ≡ first) × (result.count ≡ count) × (result.striping ≡ striping_of b count) }
    {
        Cut {
            first,
            count: u32::from(count),
            striping: stripes::striping_of(b, count),
        }
    }
}
