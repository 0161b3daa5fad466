// The records of a list, as they come from a reader, and parts of their bytes.
ghost use Rattle.std.specs.Prelude.{◌<◌, IfOk, OnErr, IsTrue, length, take};
ghost use Rattle.harness.specs.Reading.{CameBefore};
ghost use Rattle.std.specs.Io.{ReadsAtMost};
ghost use Rattle.std.specs.Io.KnownBytes.{Consumes, IsAtEnd};

use crate::numbers::number;
use std::io;
use std::io::Read;

// Reads until the bytes are full or the input ends. How many came. Where a read fails, what came before stands in the first bytes.
pub fn fill<R: Read>(input: &mut R, s: &mut [u8]) -> io::Result<usize>
    ensures within { ReadsAtMost result s.new }
    ensures bytes { IfOk result (λ n. Consumes (R.remaining input.old) (R.remaining input.new) (take n s.new)) }
    ensures end { IfOk result (λ n. n < length s.new → IsAtEnd (R.remaining input.new)) }
    ensures err { OnErr result (CameBefore (R.remaining input.old) (R.remaining input.new) s.new) }
{
    let mut n = 0;
    // kept: no method of Read says how many bytes came before the end
    while n < s.len() {
        let came = input.read(&mut s[n..])?;
        if came == 0 {
            break;
        }
        n += came;
    }
    Ok(n)
}

// Fills the record. Whether all of it came.
pub fn read<R: Read>(input: &mut R, r: &mut [u8]) -> io::Result<bool>
    ensures bytes { IfOk result (λ all. IsTrue all → Consumes (R.remaining input.old) (R.remaining input.new) r.new) }
    ensures end { IfOk result (λ all. ¬ IsTrue all → IsAtEnd (R.remaining input.new)) }
    ensures err { OnErr result (CameBefore (R.remaining input.old) (R.remaining input.new) r.new) }
{
    let n = r.len();
    Ok(fill(input, r)? == n)
}

// Whether there is one more question, which fills the bytes, and it is answered rightly.
pub fn next<R: Read, F: FnOnce(&[u8]) -> bool>(
    input: &mut R,
    q: &mut [u8],
    is_answered: F,
) -> io::Result<bool>
    requires { F.IsAlwaysCallable is_answered }
    ensures bytes { IfOk result (λ all. IsTrue all → Consumes (R.remaining input.old) (R.remaining input.new) q.new) }
    ensures err { OnErr result (CameBefore (R.remaining input.old) (R.remaining input.new) q.new) }
{
    Ok(read(input, q)? && is_answered(q))
}

// A record that holds bytes: their length, a number, the bytes, zeros. Whether it came, and the length is one that fits.
pub fn read_held<R: Read>(input: &mut R, r: &mut [u8; 1024]) -> io::Result<bool>
    ensures err { OnErr result (CameBefore (R.remaining input.old) (R.remaining input.new) r.new) }
    ensures bytes { IfOk result (λ all. IsTrue all → Consumes (R.remaining input.old) (R.remaining input.new) r.new) }
{
    Ok(read(input, r)? & (number(r, 0) <= 1016))
}

// The bytes that a record holds, and none where it cannot hold as many.
pub fn held(r: &[u8; 1024]) -> &[u8] {
    part(r, 8, 8 + (number(r, 0) as usize))
}

// The bytes from one place on, and before another; none where they are not there.
pub fn part(s: &[u8], from: usize, to: usize) -> &[u8] {
    if from <= to && to <= s.len() {
        &s[from..to]
    } else {
        &s[..0]
    }
}
