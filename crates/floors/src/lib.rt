// The floor of a float.
#![tactic(auto)]

ghost use Rattle.std.specs.Prelude.{◌≡◌, ◌≤◌, unsigned_abs};
ghost use Rattle.floors.specs.Floor.{floor_of};
ghost use Rattle.floors.specs.Steps.{Small};

// The greatest whole number not above x.
pub fn floor(x: f64) -> i64
    requires { Small x }
    ensures { (result ≡ floor_of x) × (unsigned_abs result ≤ 9_000_001) }
{
    let cut = std::num::truncating_f64_to_i64(x);
    if std::num::nearest_i64_to_f64(cut) > x {
        cut - 1
    } else {
        cut
    }
}
