// A box of whole numbers, asked about a point of floats or of whole numbers; the domain of points.
#![tactic(auto)]

ghost use Rattle.std.specs.Prelude.{◌≡◌, ◌&&◌};
ghost use Rattle.std.specs.Int.Signed.{le_z};
ghost use Rattle.plane.specs.Domain.{in_domain};
ghost use Rattle.boxes.specs.Box.{spans, least, greatest, ordered, box_in_domain, in_box, contains, relevant, right};
ghost use Rattle.plane.specs.Segment.{same_point};

use plane::{I32Point, Point};

#[derive(Clone, Copy)]
pub struct BBox {
    pub minx: i32,
    pub miny: i32,
    pub maxx: i32,
    pub maxy: i32,
}

// A coordinate of the point lies between two of the box.
fn in_span(least: i32, greatest: i32, x: f64) -> bool
    ensures { result ≡ spans least greatest x }
{
    x >= least as f64 && x <= greatest as f64
}

// kept: tests of whole numbers are joined by &, here and in the records' rules (reader_records): the compiler then makes few tests of several at once. Joined by &&, containment in a file of 65,535 small groups took a third longer.
// The same of whole numbers.
fn between(least: i32, greatest: i32, x: i32) -> bool
    ensures { result ≡ (le_z least x && le_z x greatest) }
{
    (least <= x) & (x <= greatest)
}

impl BBox {
    // The corner of the least coordinates, and that of the greatest.
    fn least(self) -> I32Point
        ensures { result ≡ least self }
    {
        I32Point {
            x: self.minx,
            y: self.miny,
        }
    }

    fn greatest(self) -> I32Point
        ensures { result ≡ greatest self }
    {
        I32Point {
            x: self.maxx,
            y: self.maxy,
        }
    }

    #[tactic(auto, unfolding(crate::specs::Box::ordered))]
    pub fn ordered(self) -> bool
        ensures { result ≡ ordered self }
    {
        (self.minx <= self.maxx) & (self.miny <= self.maxy)
    }

    // Ordered, with both corners in the domain.
    #[tactic(auto, unfolding(crate::specs::Box::box_in_domain))]
    pub fn in_domain(self) -> bool
        ensures { result ≡ box_in_domain self }
    {
        self.ordered() & (point_in_domain(self.least()) & point_in_domain(self.greatest()))
    }

    #[tactic(auto, unfolding(crate::specs::Box::contains))]
    pub fn contains(self, p: Point) -> bool
        ensures { result ≡ contains self p }
    {
        in_span(self.minx, self.maxx, p.x) && in_span(self.miny, self.maxy, p.y)
    }

    // Whether what lies in the box can matter to the ray from the point.
    #[tactic(auto, unfolding(crate::specs::Box::relevant))]
    pub fn relevant(self, p: Point) -> bool
        ensures { result ≡ relevant self p }
    {
        in_span(self.miny, self.maxy, p.y) && self.maxx as f64 >= p.x
    }

    // Strictly to the right of the point.
    #[tactic(auto, unfolding(crate::specs::Box::right))]
    pub fn right(self, p: Point) -> bool
        ensures { result ≡ right self p }
    {
        self.minx as f64 > p.x
    }
}

#[tactic(auto, unfolding(plane::specs::Domain::in_domain))]
pub fn point_in_domain(q: I32Point) -> bool
    ensures { result ≡ in_domain q }
{
    between(-18_000_000, 18_000_000, q.x) & between(-9_000_000, 9_000_000, q.y)
}

// The box covers the point.
#[tactic(auto, unfolding(crate::specs::Box::in_box))]
pub fn in_box(b: BBox, q: I32Point) -> bool
    ensures { result ≡ in_box b q }
{
    between(b.minx, b.maxx, q.x) & between(b.miny, b.maxy, q.y)
}

#[tactic(auto, unfolding(plane::specs::Segment::same_point))]
pub fn same_point(a: I32Point, b: I32Point) -> bool
    ensures { result ≡ same_point a b }
{
    a == b
}
