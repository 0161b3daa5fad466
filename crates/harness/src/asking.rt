// A list of files, and of questions that are put to each with bytes that are lent for it. The number in a file's record says how many
// times bytes are lent, and the number in their record how many questions come behind them.
ghost use Rattle.std.specs.Prelude.{◌-◌, ◌≤◌, ◌⊎◌, IfOk, OnErr};
ghost use Rattle.harness.specs.Reading.{CameBefore};

use crate::numbers::number;
use crate::records::read_held;
use crate::tally::Tally;
use std::io;
use std::io::Read;

#[derive(Clone, Copy)]
pub struct Asking {
    pub tally: Tally,
    // How many more times bytes are lent for this file.
    times: u32,
    // How many more questions there are with these bytes.
    pub questions: u32,
}

impl Asking {
    pub fn new() -> Self {
        Asking {
            tally: Tally::new(),
            times: 0,
            questions: 0,
        }
    }

    // Reads the bytes that are lent next, or a file where those were all.
    pub fn lend<R: Read>(
        self,
        input: &mut R,
        file: &mut [u8; 1024],
        lent: &mut [u8; 1024],
    ) -> io::Result<Self>
        ensures left { IfOk result (λ a. a.tally.left ≤ self.tally.left - 1) }
        ensures err { OnErr result (CameBefore (R.remaining input.old) (R.remaining input.new) file.new ⊎ CameBefore (R.remaining input.old) (R.remaining input.new) lent.new) }
    {
        let tally = self.tally;
        if self.times == 0 {
            let came = read_held(input, file)?;
            return Ok(Asking {
                tally: tally.past(came),
                times: number(file, 4),
                questions: 0,
            });
        }
        let came = read_held(input, lent)?;
        Ok(Asking {
            tally: tally.past(came),
            times: self.times - 1,
            questions: number(lent, 4),
        })
    }

    // After an answer.
    pub fn with(self, right: bool) -> Self
        ensures { result.tally.left ≤ self.tally.left - 1 }
    {
        let tally = self.tally;
        Asking {
            tally: tally.with(right),
            times: self.times,
            questions: self.questions.saturating_sub(1),
        }
    }
}
