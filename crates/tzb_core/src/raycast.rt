// What a point sees of a segment, in floats: raycast.rs, with `next_up` written out, and `endpoint_parity` and `to_point` of reader.rs.
ghost use Rattle.std.specs.Prelude.{◌≡◌, true};
ghost use Rattle.rounding.specs.Upward.{step_of, next_up};
ghost use Rattle.plane.specs.Segment.{seg};
ghost use Rattle.plane.specs.Domain.{in_domain};
ghost use Rattle.rays.specs.Ray.{away, between, level, touches, nudged, missed, steep, crosses, ray_at, ray_of, above_of, parity_of};
ghost use Rattle.plane.specs.Places.{point_of};

use plane::{I32Point, Point, Seen};

// The next bit pattern upward.
fn step(b: u64) -> u64
    ensures { result ≡ step_of b }
{
    match b {
        0 | 0x8000_0000_0000_0000 => 1,
        1..=0x7fff_ffff_ffff_ffff => b + 1,
        _ => b - 1,
    }
}

// The next float upward; NaN and the infinity above stay.
pub fn next_up(x: f64) -> f64
    ensures { result ≡ next_up x }
{
    if x != x {
        return x;
    }
    let b = f64::to_bits(x);
    if b == 0x7ff0_0000_0000_0000 {
        return x;
    }
    f64::from_bits(step(b))
}

// Quick y-range rejection: y is above or below both ends.
fn is_away(ay: f64, by: f64, y: f64) -> bool
    ensures { result ≡ away ay by y }
{
    if ay < by {
        (y < ay) | (y > by)
    } else {
        (ay > by) & ((y < by) | (y > ay))
    }
}

// w is from the lesser of u and v to the greater.
fn is_between(u: f64, v: f64, w: f64) -> bool
    ensures { result ≡ between u v w }
{
    if u < v {
        (w >= u) & (w <= v)
    } else {
        (w >= v) & (w <= u)
    }
}

// On a horizontal segment; with x for y, on a vertical one.
fn is_level(ay: f64, by: f64, y: f64, ax: f64, bx: f64, x: f64) -> bool
    ensures { result ≡ level ay by y ax bx x }
{
    (ay == by) & (y == by) && is_between(ax, bx, x)
}

// The point lies on the segment, whose ends differ.
#[tactic(auto, unfolding(rays::specs::Ray::touches))]
fn is_touching(ax: f64, ay: f64, bx: f64, by: f64, x: f64, y: f64) -> bool
    ensures { result ≡ touches ax ay bx by x y }
{
    is_level(ay, by, y, ax, bx, x)
        || is_level(ax, bx, x, ay, by, y)
        || (x - ax) / (bx - ax) == (y - ay) / (by - ay)
}

// Off any vertex, so that a vertex which two segments share counts once.
fn nudge(ay: f64, by: f64, y: f64) -> f64
    ensures { result ≡ nudged ay by y }
{
    if (y == ay) | (y == by) {
        return next_up(y);
    }
    y
}

// The y bounds again, after the nudge.
fn is_missed(ay: f64, by: f64, y: f64) -> bool
    ensures { result ≡ missed ay by y }
{
    if ay < by {
        (y < ay) | (y > by)
    } else {
        (y < by) | (y > ay)
    }
}

// On which side of the segment the point lies, by the slopes from the lower end.
fn is_steep(ax: f64, ay: f64, bx: f64, by: f64, x: f64, y: f64) -> bool
    ensures { result ≡ steep ax ay bx by x y }
{
    if ay < by {
        (y - ay) / (x - ax) >= (by - ay) / (bx - ax)
    } else {
        (y - by) / (x - bx) >= (ay - by) / (ax - bx)
    }
}

// The segment counts, for the nudged y.
#[tactic(auto, unfolding(rays::specs::Ray::crosses))]
fn is_crossing(ax: f64, ay: f64, bx: f64, by: f64, x: f64, y: f64) -> bool
    ensures { result ≡ crosses ax ay bx by x y }
{
    if is_missed(ay, by, y) {
        return false;
    }
    if ax > bx {
        if x >= ax {
            return false;
        }
        if x <= bx {
            return true;
        }
        return is_steep(ax, ay, bx, by, x, y);
    }
    if x >= bx {
        return false;
    }
    if x <= ax {
        return true;
    }
    is_steep(ax, ay, bx, by, x, y)
}

// kept: six floats, as the original has them (raycast.rs); the public function takes points.
// What the point sees of the segment.
#[tactic(auto, unfolding(rays::specs::Ray::ray_at))]
fn ray_at(ax: f64, ay: f64, bx: f64, by: f64, x: f64, y: f64) -> Seen
    ensures { result ≡ ray_at ax ay bx by x y }
{
    if is_away(ay, by, y) {
        return Seen::Off(false);
    }
    if (ay == by) & (ax == bx) {
        if (x == ax) & (y == ay) {
            return Seen::On;
        }
        return Seen::Off(false);
    }
    if is_touching(ax, ay, bx, by, x, y) {
        return Seen::On;
    }
    Seen::Off(is_crossing(ax, ay, bx, by, x, nudge(ay, by, y)))
}

// What p sees of the segment from a to b. At a point of whole numbers in the domain it is what exact geometry says.
pub fn raycast_seg(a: I32Point, b: I32Point, p: Point) -> Seen
    ensures result_value { result ≡ ray_of a b p }
    ensures exact { (q : I32Point) → p ≡ point_of q → in_domain a ≡ true → in_domain b ≡ true → in_domain q ≡ true → result ≡ seg q a b }
{
    let s = to_point(a);
    let t = to_point(b);
    ray_at(s.x, s.y, t.x, t.y, p.x, p.y)
}

// q is above p.
#[tactic(auto, unfolding(rays::specs::Ray::above_of))]
fn is_above(q: I32Point, p: Point) -> bool
    ensures { result ≡ above_of p q }
{
    let t = to_point(q);
    t.y > p.y
}

// One of the two ends is above p, and the other is not.
#[tactic(auto, unfolding(rays::specs::Ray::parity_of))]
pub fn endpoint_parity(a: I32Point, b: I32Point, p: Point) -> bool
    ensures { result ≡ parity_of p a b }
{
    is_above(a, p) != is_above(b, p)
}

// kept: the original's function, by its name (reader.rs); From would have to stand in plane.
pub fn to_point(q: I32Point) -> Point
    ensures { result ≡ point_of q }
{
    Point {
        x: q.x as f64,
        y: q.y as f64,
    }
}
