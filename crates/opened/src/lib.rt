// What is kept of an opened file, by value: all that a question needs beside the file's bytes. It stands below opening, which makes it, and below every question, so that neither knows the other.
// A section's place in the file.
#![tactic(auto)]

#[derive(Clone, Copy)]
pub struct Section {
    pub off: u32,
    pub len: u32,
}

// Records in a row.
#[derive(Clone, Copy)]
pub struct Directory {
    pub off: u32,
    pub count: u32,
}

// GRID: where it lies, and its first twelve bytes.
#[derive(Clone, Copy)]
pub struct Grid {
    pub off: u32,
    pub lng: i16,
    pub lat: i16,
    pub cols: u16,
    pub rows: u16,
    pub total: u32,
}

// An opened file: all that a question needs beside the file's bytes.
#[derive(Clone, Copy)]
pub struct Opened {
    pub flags: u32,
    pub names: Section,
    pub zones: Directory,
    pub polys: Directory,
    pub rings: Directory,
    pub ops: Directory,
    pub groups: Directory,
    pub chunks: Directory,
    pub points: Section,
    pub grid: Grid,
}

// How many bytes a record of each directory takes (specs/Widths).
pub const LIST_WIDE: usize = 24;

pub const RING_WIDE: usize = 28;

pub const OP_WIDE: usize = 4;

pub const GROUP_WIDE: usize = 44;

pub const CHUNK_WIDE: usize = 24;
// And GRID's first bytes.
pub const GRID_WIDE: usize = 12;
