// A chunk on the way through its group: its index, its record, and its first point where that was read already, as the end of the chunk before.
ghost use Rattle.std.specs.Prelude.{◌<◌};

use plane::I32Point;
use reader_records::ChunkRecord;

// kept: what is known of `first` (specs/Steps, Kept) names the opened record and the bytes, which stay two parameters: each step requires it, no ghost field can.
#[derive(Clone, Copy)]
pub struct Reached {
    pub index: usize,
    pub record: ChunkRecord,
    pub first: Option<I32Point>,
    ghost small: { index < 0x1_0000_0000 },
}
