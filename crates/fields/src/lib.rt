// Little-endian numbers in a slice: loads that refuse what lies past the end, and loads at a place that the caller has tested.
#![tactic(auto)]

ghost use Rattle.std.specs.Prelude.{ℕ, ◌≡◌, ◌+◌, ◌≤◌, List, length};
ghost use Rattle.std.specs.Int.{w16, w32, cast_signed};
ghost use Rattle.fields.specs.Le.{le};
ghost use Rattle.fields.specs.Stores.{to_le, Laid};
ghost use Rattle.fields.specs.Row.{row_wide, row_bytes};
ghost use Rattle.fields.specs.Loads.{inside, loaded};

use answer::Answer;

// A number that stands in WIDE bytes, least significant first.
pub trait Number: Copy {
    ghost WIDE: { ℕ };

    // The number whose bits are those of a natural number.
    ghost of: { ℕ → Self };

    const WIDE: usize;

    // The number at a place that the caller has tested.
    fn at(s: &[u8], at: usize) -> Self
        requires { at + WIDE ≤ length s.now }
        ensures { result ≡ of (le WIDE s.now at) };
}

impl Number for u16 {
    ghost WIDE = { 2 };

    ghost of = { λ n. n };

    const WIDE: usize = 2;

    fn at(s: &[u8], at: usize) -> u16 {
        u16::from_le_bytes([s[at], s[at + 1]])
    }
}

impl Number for u32 {
    ghost WIDE = { 4 };

    ghost of = { λ n. n };

    const WIDE: usize = 4;

    fn at(s: &[u8], at: usize) -> u32 {
        u32::from_le_bytes([s[at], s[at + 1], s[at + 2], s[at + 3]])
    }
}

impl Number for u64 {
    ghost WIDE = { 8 };

    ghost of = { λ n. n };

    const WIDE: usize = 8;

    fn at(s: &[u8], at: usize) -> u64 {
        u64::from_le_bytes([
            s[at],
            s[at + 1],
            s[at + 2],
            s[at + 3],
            s[at + 4],
            s[at + 5],
            s[at + 6],
            s[at + 7],
        ])
    }
}

// The signed ones are the same bits in two's complement.
impl Number for i16 {
    ghost WIDE = { 2 };

    ghost of = { cast_signed w16 };

    const WIDE: usize = 2;

    fn at(s: &[u8], at: usize) -> i16 {
        u16::at(s, at).cast_signed()
    }
}

impl Number for i32 {
    ghost WIDE = { 4 };

    ghost of = { cast_signed w32 };

    const WIDE: usize = 4;

    fn at(s: &[u8], at: usize) -> i32 {
        u32::at(s, at).cast_signed()
    }
}

// n bytes from off on lie within the bytes.
fn inside(raw: &[u8], off: usize, n: usize) -> bool
    ensures { result ≡ inside n raw.now off }
{
    n <= raw.len() && off <= raw.len() - n
}

// The number at any place; 44 where it would read past the lent bytes.
pub fn load<N: Number>(raw: &[u8], off: usize) -> Answer<N>
    ensures { result ≡ loaded N.of N.WIDE raw.now off }
{
    answer::claim(44, inside(raw, off, N::WIDE))?;
    Ok(N::at(raw, off))
}

// ---- numbers into lent bytes

// kept: the lent bytes and a place in them are two. Document 01: `Vec` is lent slices.
// The bytes of a number of any width, least significant first, from that place on.
pub fn store(out: &mut [u8], at: usize, width: usize, number: u64)
    requires { at + width ≤ length out.old }
    ensures { Laid out.old at (to_le width number) out.new }
{
    let mut rest = number;
    for i in 0..width {
        out[at + i] = (rest % 256) as u8;
        rest /= 256;
    }
}

// A row of numbers, each at its width, each behind the one before it.
pub fn store_row(out: &mut [u8], at: usize, widths: &[usize], numbers: &[u64])
    requires { (at + row_wide widths.now ≤ length out.old) × (length numbers.now ≡ length widths.now) }
    ensures { Laid out.old at (row_bytes widths.now numbers.now) out.new }
{
    let mut place = at;
    for (&width, &number) in widths.iter().zip(numbers) {
        store(out, place, width, number);
        place += width;
    }
}
