// What a question or a check answers. A refusal is made here and nowhere else, and every caller passes it on unopened.
#![tactic(auto)]

ghost use Rattle.std.specs.Prelude.{◌≡◌};
ghost use Rattle.basics.specs.Parity.{◌⊻◌};
ghost use Rattle.answer.specs.Refusals.{refusal, placed_at, counted_from};
ghost use Rattle.answer.specs.Answers.{no};
ghost use Rattle.answer.specs.Checks.{claim};

// Why there is no answer: its number in document 01, and the place of the byte that it is about. One that is about no byte has the place 2 ^ 64 - 1, where none stands.
#[derive(Clone, Copy)]
pub struct Refusal {
    pub number: u32,
    pub place: usize,
}

// An answer: a value, or a refusal.
pub type Answer<T> = Result<T, Refusal>;

// How a walk over segments ends that no refusal broke off: by a hit on an edge, or gone through, with a parity and what it hands on.
#[derive(Clone, Copy)]
pub enum Walked<T> {
    On,
    Off(bool, T),
}

pub type Walk<T> = Answer<Walked<T>>;

pub fn refuse(number: u32) -> Refusal
    ensures { result ≡ refusal number }
{
    Refusal {
        number,
        place: 0xffff_ffff_ffff_ffff,
    }
}

impl Refusal {
    // The same refusal, about the byte at that place.
    pub fn placed_at(self, place: usize) -> Refusal
        ensures { result ≡ placed_at place self }
    {
        Refusal {
            number: self.number,
            place,
        }
    }

    // The same refusal of bytes that stand behind `before` others: its place is counted from the first of all.
    pub fn counted_from(self, before: usize) -> Refusal
        ensures { result ≡ counted_from before self }
    {
        Refusal {
            number: self.number,
            place: self.place.saturating_add(before),
        }
    }
}

// No answer, for the reason with that number.
pub fn fail<T>(number: u32) -> Answer<T>
    ensures { result ≡ no number }
{
    Err(refuse(number))
}

// Fine where it holds, and else the refusal with that number.
pub fn claim(number: u32, holds: bool) -> Answer<()>
    ensures { result ≡ claim number holds }
{
    if holds { Ok(()) } else { fail(number) }
}

// One parity added to another.
pub fn plus(a: bool, b: bool) -> bool
    ensures { result ≡ a ⊻ b }
{
    a != b
}
