// An answer as a list writes it, so that one can be held against the other.
ghost use Rattle.std.specs.Prelude.{◌≡◌, ◌≢◌, ◌↔◌, cond, IfOk, OnErr, IsTrue};
ghost use Rattle.harness.specs.Saying.{said, zone_said, Counts};

use crate::numbers::{number, size};
use answer::{Answer, Refusal};

// A refusal's place, and one more: 0 where it has none, 0xffff_ffff where that does not fit.
pub fn place(why: Refusal) -> u32 {
    if why.place == 0xffff_ffff_ffff_ffff {
        return 0;
    }
    (why.place.min(0xffff_fffe) as u32) + 1
}

// How many numbers a question that ends with four numbers expects: the second of these, and none with a refusal, whose place stands there.
pub fn count(q: &[u8]) -> usize {
    let n = q.len();
    if n < 16 {
        return 0;
    }
    if number(q, n - 16) == 0 {
        return size(q, n - 12);
    }
    0
}

// The refusal or 0, and three numbers.
#[derive(Clone, Copy, PartialEq, Eq)]
pub struct Said(pub u32, pub u32, pub u32, pub u32);

impl Said {
    // A refusal and its place, and nothing else. None has the number 0, which stands for an answer.
    pub fn refused(why: Refusal) -> Self
        ensures { result.0 ≢ 0 }
    {
        let place = place(why);
        if why.number == 0 {
            return Said(0xffff_ffff, place, 0, 0);
        }
        Said(why.number, place, 0, 0)
    }

    // The three numbers of an answer, or a refusal.
    pub fn told(a: Answer<(u32, u32, u32)>) -> Self
        ensures value { IfOk a (λ n. result ≡ said 0 n.0 n.1 n.2) }
        ensures err { OnErr a (result.0 ≢ 0) }
    {
        match a {
            Ok((x, y, z)) => Said(0, x, y, z),
            Err(why) => Said::refused(why),
        }
    }

    // 1 for yes and 0 for no, or a refusal.
    pub fn verdict(a: Answer<bool>) -> Self
        ensures value { IfOk a (λ is. result ≡ said 0 (cond is 1 0) 0 0) }
        ensures err { OnErr a (result.0 ≢ 0) }
    {
        Said::told(a.map(|is| (u32::from(is), 0, 0)))
    }

    // 1 and the zone, or 0 for none, or a refusal.
    pub fn found(a: Answer<Option<u32>>) -> Self
        ensures value { IfOk a (λ zone. result ≡ zone_said zone) }
        ensures err { OnErr a (result.0 ≢ 0) }
    {
        Said::told(a.map(|zone| zone.map_or((0, 0, 0), |z| (1, z, 0))))
    }

    // Whether the question ends with these four: what is expected stands there.
    pub fn is_expected(self, q: &[u8]) -> bool {
        let n = q.len();
        if n < 16 {
            return false;
        }
        let expected = Said(
            number(q, n - 16),
            number(q, n - 12),
            number(q, n - 8),
            number(q, n - 4),
        );
        self == expected
    }
}

// Whether a question that ends with four numbers expects that answer, of which it says the first number alone: nothing else is counted
// where there is no refusal.
pub fn is_counted(a: Answer<u64>, q: &[u8]) -> bool
    ensures { IfOk a (λ count. IsTrue result ↔ Counts count q.now) }
{
    let n = q.len();
    if n < 16 {
        return false;
    }
    match a {
        Ok(count) => number(q, n - 16) == 0 && count == u64::from(number(q, n - 12)),
        Err(why) => Said::refused(why).is_expected(q),
    }
}
