// The text of a MultiPolygon (RFC 7946), laid into lent bytes as far as there is room. Each function answers the place behind what
// it lays: where the bytes do not suffice, that place still says how many it takes.
// kept: the lent bytes and the place behind what was laid are two, and the place is handed back. Document 01: `Vec` is lent slices, `&mut inside` a returned value.
#![tactic(auto)]

ghost use Rattle.std.specs.Prelude.{◌≡◌, [], ◌∷◌, ◌+◌, ◌^◌, ◌≤◌, ◌<◌, length};
ghost use Rattle.plane.specs.Places.{point};
ghost use Rattle.geojson.specs.Decimals.{digits, places, hundred_thousandths, decimal};
ghost use Rattle.geojson.specs.Text.{position_text, head_text, tail_text};
ghost use Rattle.answer.specs.Over.{over};

// One byte.
#[tactic(auto, using(answer::proofs::OverLaws::over_one, answer::proofs::OverLaws::over_past))]
pub fn put(out: &mut [u8], at: usize, b: u8) -> usize
    requires { at + 1 < 2 ^ 64 }
    ensures { (result ≡ at + 1) × (out.new ≡ over out.old at (b ∷ [])) }
{
    if at < out.len() {
        out[at] = b;
    }
    at + 1
}

// ---- decimals

const TENS: [u32; 5] = [1, 10, 100, 1_000, 10_000];

// The last K digits of n, with the zeros before them.
fn places<const K: usize>(out: &mut [u8], at: usize, n: u32) -> usize
    requires { (K ≤ 5) × (at + K < 2 ^ 64) }
    ensures { (result ≡ at + K) × (out.new ≡ over out.old at (places K n)) }
{
    for k in 0..K {
        put(out, at + k, b'0' + (n / TENS[K - 1 - k] % 10) as u8);
    }
    at + K
}

// All digits of n.
fn digits(out: &mut [u8], at: usize, n: u32) -> usize
    requires { (at + 5 < 2 ^ 64) × (n < 100_000) }
    ensures { (result ≡ at + length (digits n)) × (out.new ≡ over out.old at (digits n)) }
{
    match n {
        0..=9 => places::<1>(out, at, n),
        10..=99 => places::<2>(out, at, n),
        100..=999 => places::<3>(out, at, n),
        1_000..=9_999 => places::<4>(out, at, n),
        _ => places::<5>(out, at, n),
    }
}

// How long the text of n hundred-thousandths is.
fn long(n: u32) -> usize
    ensures { (result ≡ length (hundred_thousandths n)) × (result ≤ 11) }
{
    match n {
        0..=999_999 => 7,
        1_000_000..=9_999_999 => 8,
        10_000_000..=99_999_999 => 9,
        100_000_000..=999_999_999 => 10,
        _ => 11,
    }
}

// n hundred-thousandths.
fn hundred_thousandths(out: &mut [u8], at: usize, n: u32) -> usize
    requires { at + 11 < 2 ^ 64 }
    ensures { (result ≡ at + length (hundred_thousandths n)) × (out.new ≡ over out.old at (hundred_thousandths n)) }
{
    // only measured: no digit is worked out
    if out.len() <= at {
        return at + long(n);
    }
    let point = digits(out, at, n / 100_000);
    let first = put(out, point, b'.');
    places::<5>(out, first, n % 100_000)
}

// Document 02: "five decimals always".
pub fn decimal(out: &mut [u8], at: usize, x: i32) -> usize
    requires { at + 12 < 2 ^ 64 }
    ensures { (result ≡ at + length (decimal x)) × (result ≤ at + 12) × (out.new ≡ over out.old at (decimal x)) }
{
    if x < 0 {
        let whole = put(out, at, b'-');
        return hundred_thousandths(out, whole, x.unsigned_abs());
    }
    hundred_thousandths(out, at, x.unsigned_abs())
}

// ---- the pieces of the text

// `[x,y]`
pub fn position(out: &mut [u8], at: usize, x: i32, y: i32) -> usize
    requires { at + 27 < 2 ^ 64 }
    ensures { (result ≡ at + length (position_text (point x y))) × (result ≤ at + 27) × (out.new ≡ over out.old at (position_text (point x y))) }
{
    let first = put(out, at, b'[');
    let comma = decimal(out, first, x);
    let second = put(out, comma, b',');
    let last = decimal(out, second, y);
    put(out, last, b']')
}

// A text as it stands.
fn lay(out: &mut [u8], at: usize, text: &[u8]) -> usize
    requires { at + length text.now < 2 ^ 64 }
    ensures { (result ≡ at + length text.now) × (out.new ≡ over out.old at text.now) }
{
    for (i, b) in text.iter().enumerate() {
        put(out, at + i, *b);
    }
    at + text.len()
}

// What stands before the coordinates, and what stands behind them.
pub fn head(out: &mut [u8], at: usize) -> usize
    requires { at + 37 < 2 ^ 64 }
    ensures { (result ≡ at + 37) × (out.new ≡ over out.old at head_text) }
{
    lay(out, at, b"{\"type\":\"MultiPolygon\",\"coordinates\":")
}

pub fn tail(out: &mut [u8], at: usize) -> usize
    requires { at + 1 < 2 ^ 64 }
    ensures { (result ≡ at + 1) × (out.new ≡ over out.old at tail_text) }
{
    put(out, at, b'}')
}
