// The numbers in a record, the least significant byte first. A read past its end has one too, so that no program has to ask.
ghost use Rattle.std.specs.Prelude.{◌≡◌, ◌+◌, ◌≤◌, length};
ghost use Rattle.fields.specs.Le.{le};

use fields::load;

pub fn number(r: &[u8], at: usize) -> u32
    ensures { at + 4 ≤ length r.now → result ≡ le 4 r.now at }
{
    load::<u32>(r, at).unwrap_or(0xffff_ffff)
}

pub fn size(r: &[u8], at: usize) -> usize {
    number(r, at) as usize
}

pub fn whole(r: &[u8], at: usize) -> i32 {
    load::<i32>(r, at).unwrap_or(0)
}

// The float of a pattern. All patterns of NaN are one value.
fn float_of(bits: u64) -> f64 {
    if 0x7ff0_0000_0000_0000 < bits % 0x8000_0000_0000_0000 {
        let zero = 0.0;
        return zero / zero;
    }
    f64::from_bits(bits)
}

pub fn float(r: &[u8], at: usize) -> f64 {
    load::<u64>(r, at).map_or(0.0, float_of)
}
