// How a group is cut into stripes, and which stripes a height and a box lie in: over heights and boxes alone.
#![tactic(auto)]

ghost use Rattle.std.specs.Prelude.{◌≡◌, ◌≤◌, ◌<◌};
ghost use Rattle.stripes.specs.Stripes.{stripe_count, above, striping_of, stripe_of, stands_in, within_height};
ghost use Rattle.stripes.specs.Numbers.{depth};

use boxes::BBox;

// How a group is cut: its least y, its height, how many stripes.
#[derive(Clone, Copy)]
pub struct Striping {
    pub least: i32,
    pub height: u32,
    pub k: u32,
}

// How far y lies above the least; 0 where it lies below.
fn height_above(least: i32, y: i32) -> u32
    ensures { result ≡ above least y }
{
    if y < least { 0 } else { y.abs_diff(least) }
}

// The stripe that a height lies in.
// kept: a group of one chunk has no stripes and an entry of lent numbers may have no height, so `Striping` can hold neither fact
// kept: the group's greatest height is told without a division, which costs more than all else here: a box that bounds its group ends there.
#[tactic(auto, using(crate::proofs::StripesLaws::stripe_last), unfolding(crate::specs::Stripes::stripe_of))]
pub fn stripe_of(t: Striping, y: i32) -> u32
    requires { (0 < t.height) × (0 < t.k) }
    ensures { (result ≡ stripe_of t y) × (result < t.k) }
{
    let up = height_above(t.least, y);
    let last = t.k - 1;
    if t.height <= up {
        return last;
    }
    let share = u64::from(up) * u64::from(t.k) / u64::from(t.height);
    share.min(u64::from(last)) as u32
}

// How many stripes a group of that many chunks has.
#[tactic(auto, unfolding(crate::specs::Stripes::stripe_count))]
pub fn stripe_count(chunks: u16) -> u32
    ensures { (result ≡ stripe_count chunks) × (result ≤ 256) }
{
    if chunks < 2 {
        0
    } else {
        u32::from(chunks / 4).clamp(1, 256)
    }
}

// How a group of that box and that many chunks is cut.
#[tactic(auto, unfolding(crate::specs::Stripes::striping_of))]
pub fn striping_of(b: BBox, chunks: u16) -> Striping
    ensures { result ≡ striping_of b chunks }
{
    Striping {
        least: b.miny,
        height: height_above(b.miny, b.maxy).max(1),
        k: stripe_count(chunks),
    }
}

// The chunk's box lies in the group's in y.
#[tactic(auto, unfolding(crate::specs::Stripes::within_height))]
pub fn within_height(group: BBox, chunk: BBox) -> bool
    ensures { result ≡ within_height group chunk }
{
    group.miny <= chunk.miny && chunk.maxy <= group.maxy
}

// A chunk of that box stands in the stripe.
#[tactic(auto, unfolding(crate::specs::Stripes::stands_in))]
pub fn stands_in(t: Striping, stripe: u32, b: BBox) -> bool
    requires { (0 < t.height) × (0 < t.k) }
    ensures { result ≡ stands_in t stripe b }
{
    stripe_of(t, b.miny) <= stripe && stripe <= stripe_of(t, b.maxy)
}

// In how many stripes a chunk of that box stands.
#[tactic(auto, unfolding(crate::specs::Numbers::depth))]
pub fn depth(t: Striping, b: BBox) -> u32
    requires { (0 < t.height) × (0 < t.k) }
    ensures { (result ≡ depth t b) × (result ≤ t.k) }
{
    (stripe_of(t, b.maxy) + 1).saturating_sub(stripe_of(t, b.miny))
}
