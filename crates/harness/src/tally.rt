// The count of what is answered as a list says, and the line that tells it.
ghost use Rattle.std.specs.Prelude.{◌-◌, ◌≤◌, ◌++◌, OnOk, IfOk};
ghost use Rattle.std.specs.Fmt.{decimal};
ghost use Rattle.std.specs.Io.KnownBytes.{Appends};

use std::io;
use std::io::{Read, Write};

// How many records a list may have. Nothing says that standard input ends, so this ends every program.
const MOST: u32 = 1_000_000;

#[derive(Clone, Copy)]
pub struct Tally {
    pub right: u64,
    // How many more records may come.
    pub left: u32,
}

impl Tally {
    pub fn new() -> Self {
        Tally {
            right: 0,
            left: MOST,
        }
    }

    // After a record that asks nothing. One that is not fine is the last.
    pub fn past(self, fine: bool) -> Self
        ensures { result.left ≤ self.left - 1 }
    {
        Tally {
            right: self.right,
            left: if fine { self.left.saturating_sub(1) } else { 0 },
        }
    }

    // After an answer. The first that is not right is the last.
    pub fn with(self, right: bool) -> Self
        ensures { result.left ≤ self.left - 1 }
    {
        Tally {
            right: self.right.wrapping_add(u64::from(right)),
            left: self.past(right).left,
        }
    }
}

// Replays records one after another: how many are answered as they say, before the first that is not, or the list's end. `next` reads
// one, and says whether it came and is answered so.
pub fn replay<R: Read, F: FnMut(&mut R) -> io::Result<bool>>(
    input: &mut R,
    mut next: F,
) -> io::Result<u64>
    requires { F.IsAlwaysCallable next }
    ensures { IfOk result (λ n. n ≤ 1_000_000) }
{
    for n in 0..MOST {
        if !next(input)? {
            return Ok(u64::from(n));
        }
    }
    Ok(u64::from(MOST))
}

pub fn write<W: Write>(out: &mut W, text: &[u8]) -> io::Result<()>
    ensures { OnOk result (Appends (W.contents out.old) (W.contents out.new) text.now) }
{
    out.write_all(text)
}

// Writes a count, and of what.
pub fn tell<W: Write>(out: &mut W, count: u64, of: &[u8]) -> io::Result<()>
    ensures { OnOk result (Appends (W.contents out.old) (W.contents out.new) (decimal count ++ of.now)) }
{
    write!(out, "{count}")?;
    write(out, of)
}
