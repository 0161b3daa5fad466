// What the questions answer that is no plain value: which zones are looked at, and what the full check finds. It stands below the questions, so that what tells
// answers as numbers need not know who asks.
#![tactic(auto)]

ghost use Rattle.std.specs.Prelude.{◌≡◌};
ghost use Rattle.replies.specs.declared.Fault.TheVariants.{Refused};

use answer::Refusal;

// The zones that a question looks at.
#[derive(Clone, Copy)]
pub enum Choice {
    None,
    // All zones, in order: how many there are.
    All(u32),
    // The candidates of a cell: how many, and the place of the first.
    Listed(u32, u32),
}

// Why the full check does not accept a file, or draws no map of it: a refusal; or 47 with the lowest broken rule, 2 to 6.
#[derive(Clone, Copy)]
pub enum Fault {
    Refused(Refusal),
    Broken(Refusal, u32),
}

impl From<Refusal> for Fault {
    ghost from_gives = { λ r e. e ≡ Refused r };

    fn from(r: Refusal) -> Fault {
        Fault::Refused(r)
    }
}
