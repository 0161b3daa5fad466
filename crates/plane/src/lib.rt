// The plain types that geometry speaks of: a point of floats, a point of whole numbers, and what a point sees of segments.
#![tactic(auto)]

#[derive(Clone, Copy)]
pub struct Point {
    pub x: f64,
    pub y: f64,
}

#[derive(Clone, Copy, PartialEq, Eq)]
pub struct I32Point {
    pub x: i32,
    pub y: i32,
}

// On a segment; or on none, with the parity of those that count.
#[derive(Clone, Copy)]
pub enum Seen {
    On,
    Off(bool),
}
