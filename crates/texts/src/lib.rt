// The order of texts by their bytes: eight at a time as long as they agree, then byte by byte. It knows of no file.
#![tactic(auto)]

ghost use Rattle.std.specs.Prelude.{◌≡◌, ◌≤◌, length, drop};
ghost use Rattle.texts.specs.Spelled.{comes_before};

use fields::Number;

// How many bytes at the front of both names can be passed over, since they are the same: eight at a time.
fn same_front(a: &[u8], b: &[u8]) -> usize
    ensures bound { (result ≤ length a.now) × (result ≤ length b.now) }
    ensures b_value { comes_before (drop result a.now) (drop result b.now) ≡ comes_before a.now b.now }
{
    let words = a.len().min(b.len()) / 8;
    for k in 0..words {
        if u64::at(a, 8 * k) != u64::at(b, 8 * k) {
            return 8 * k;
        }
    }
    8 * words
}

// Whether a comes before b by its bytes: equal fronts are passed over, then it is byte by byte.
pub fn comes_before(a: &[u8], b: &[u8]) -> bool
    ensures { result ≡ comes_before a.now b.now }
{
    let i = same_front(a, b);
    a[i..] < b[i..]
}
