// What the programs share that replay a list of standard input: its records, the numbers in them, the count of what was answered as
// the list says, and the line that tells it. It is proved here once, and nothing of the port rests on it.
#![tactic(auto)]

mod asking;
mod numbers;
mod records;
mod said;
mod tally;

pub use asking::Asking;
pub use numbers::{float, number, size, whole};
pub use records::{fill, held, next, part, read, read_held};
pub use said::{Said, count, is_counted, place};
pub use tally::{Tally, replay, tell, write};
