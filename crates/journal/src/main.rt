// The journal of answers: `journal INDEX` answers each eight-byte position of standard input (x and y as i32, the least significant byte
// first) from the index file, of at most 65,536 bytes, with an entry on standard output. Where the file does not open, its refusal is
// the reason of every entry. What cannot be read or written, and input that ends within a position, a message on standard error tells,
// and the program ends; the entries of the positions before it are written.
#![tactic(auto)]

ghost use Rattle.std.specs.Prelude.{◌≡◌, ◌++◌, ◌+◌, ◌*◌, ◌/◌, ◌<◌, ◌≤◌, length, take, drop, IsNone, OnOk};
ghost use Rattle.std.specs.Io.KnownBytes.{Consumes, Appends, IsAtEnd};
ghost use Rattle.entries.specs.Entry.{entry_wide, bytes_of};
ghost use Rattle.tzb_journal.specs.Journal.{entry_for};
ghost use Rattle.journal.specs.Answered.{places, position_at, entries_of};
ghost use Rattle.journal.specs.Counts.{IsPrefixLen};
ghost use Rattle.journal.specs.Runs.{TurnEnds, RunEnds, AllAnswered};
ghost use Rattle.tzb.specs.Opening.{open_of};

use answer::Answer;
use fields::Number;
use opened::Opened;
use plane::I32Point;
use std::fs::File;
use std::io::{Read, Write};
use std::rt::Files;
use std::{env, fmt, io};

// How many zones an entry has places for, and how many bytes it takes.
const PLACES: usize = 3;

const ENTRY: usize = 10 + 2 * PLACES;

const POSITION: usize = 8;

// How many positions are read at a time.
const MANY: usize = 512;

// The longest file.
const LONGEST: usize = 65536;

// ---- on slices

// The position that stands there.
// kept: the promise counts positions by their places in one input
fn position_at(s: &[u8], at: usize) -> I32Point
    requires { at + 8 ≤ length s.now }
    ensures { result ≡ position_at s.now at }
{
    I32Point {
        x: i32::at(s, at),
        y: i32::at(s, at + 4),
    }
}

// kept: the bytes and a place in them; the entry goes into lent memory of its own.
// The entry of the position that stands there, into the first bytes of what is lent.
fn note_one(opening: Answer<Opened>, file: &[u8], input: &[u8], at: usize, out: &mut [u8])
    requires { (at + 8 ≤ length input.now) × (entry_wide places ≤ length out.old) }
    ensures { out.new ≡ bytes_of places (entry_for places (opening) file.now (position_at input.now at)) ++ drop (entry_wide places) out.old }
{
    let q = position_at(input, at);
    let _ = tzb_journal::note(PLACES as u8, opening, file, q, out);
}

// The entries of all whole positions, one behind another, into the first bytes of what is lent, and how many bytes they take.
fn note_all(opening: Answer<Opened>, file: &[u8], input: &[u8], out: &mut [u8]) -> usize
    requires { entry_wide places * (length input.now / 8) ≤ length out.old }
    ensures out_after { out.new ≡ entries_of (opening) file.now input.now (length input.now / 8) ++ drop result out.old }
    ensures value { (result ≡ entry_wide places * (length input.now / 8)) × IsPrefixLen result out.new }
{
    let n = input.len() / POSITION;
    for i in 0..n {
        let at = ENTRY * i;
        note_one(opening, file, input, POSITION * i, &mut out[at..]);
    }
    ENTRY * n
}

// ---- in and out

// Why the program ends before its input does.
#[derive(Drop)]
enum Stop<'a> {
    Usage,
    Index(&'a str, io::Error),
    TooLong(&'a str),
    Input(io::Error),
    WithinPosition,
    Output(io::Error),
}

impl fmt::Display for Stop<'_> {
    fn fmt<W: fmt::Write>(&self, f: &mut fmt::Formatter<W>) -> fmt::Result {
        match self {
            Stop::Usage => write!(f, "usage: journal INDEX <POSITIONS >ENTRIES"),
            Stop::Index(name, why) => write!(f, "{name}: {why}"),
            Stop::TooLong(name) => write!(f, "{name}: more than 65,536 bytes"),
            Stop::Input(why) => write!(f, "standard input: {why}"),
            Stop::WithinPosition => write!(f, "standard input: it ends within a position"),
            Stop::Output(why) => write!(f, "standard output: {why}"),
        }
    }
}

fn say(rt: &impl Eprint, why: Stop<'_>) {
    let _ = eprintln!(rt; "{why}");
}

// How many bytes came, and why no more where a read failed.
#[derive(Clone, Copy)]
struct Came {
    count: usize,
    failed: Option<io::Error>,
}

// One read into the bytes. Where it fails, none came.
fn read_some<R: Read>(from: &mut R, buf: &mut [u8]) -> Came
    ensures within { IsPrefixLen result.count buf.new }
    ensures bytes { Consumes (R.remaining from.old) (R.remaining from.new) (take result.count buf.new) }
    ensures end { result.count ≡ 0 → 0 < length buf.new → IsNone result.failed → IsAtEnd (R.remaining from.new) }
{
    match from.read(buf) {
        Ok(count) => Came {
            count,
            failed: None,
        },
        Err(why) => Came {
            count: 0,
            failed: Some(why),
        },
    }
}

// Reads until the bytes are full, the input ends, or a read fails.
fn read<R: Read>(from: &mut R, buf: &mut [u8]) -> Came
    ensures within { IsPrefixLen result.count buf.new }
    ensures bytes { Consumes (R.remaining from.old) (R.remaining from.new) (take result.count buf.new) }
    ensures end { result.count < length buf.new → IsNone result.failed → IsAtEnd (R.remaining from.new) }
{
    let mut n = 0;
    // kept: no read of std fills the bytes and says how many came where it fails
    while n < buf.len() {
        let came = read_some(from, &mut buf[n..]);
        if came.count == 0 {
            return Came {
                count: n,
                failed: came.failed,
            };
        }
        n += came.count;
    }
    Came {
        count: n,
        failed: None,
    }
}

// Writes the entries of all whole positions.
fn write<W: Write>(to: &mut W, opening: Answer<Opened>, file: &[u8], input: &[u8]) -> io::Result<()>
    requires { length input.now ≤ 4096 }
    ensures { OnOk result (Appends (W.contents to.old) (W.contents to.new) (entries_of (opening) file.now input.now (length input.now / 8))) }
{
    let mut out = [0u8; MANY * ENTRY];
    let n = note_all(opening, file, input, &mut out);
    to.write_all(&out[..n])
}

// Answers the next positions. Whether there may be more.
fn turn<R: Read, W: Write>(
    from: &mut R,
    to: &mut W,
    opening: Answer<Opened>,
    file: &[u8],
) -> Result<bool, Stop<'static>>
    ensures { TurnEnds (opening) file.now (R.remaining from.old) (R.remaining from.new) (W.contents to.old) (W.contents to.new) result }
{
    let mut input = [0u8; MANY * POSITION];
    let came = read(from, &mut input);
    let n = came.count;
    write(to, opening, file, &input[..n]).map_err(|why| Stop::Output(why))?;
    if let Some(why) = came.failed {
        return Err(Stop::Input(why));
    }
    if n % POSITION != 0 {
        return Err(Stop::WithinPosition);
    }
    Ok(n == MANY * POSITION)
}

// Nothing says that the input ends, so the loop counts its turns, up to a number that no run uses up.
fn answer<R: Read, W: Write>(from: &mut R, to: &mut W, file: &[u8]) -> Result<(), Stop<'static>>
    ensures ends { RunEnds (open_of file.now) file.now (R.remaining from.old) (R.remaining from.new) (W.contents to.old) (W.contents to.new) result }
    ensures all { OnOk result (AllAnswered (open_of file.now) file.now (R.remaining from.old) (R.remaining from.new) (W.contents to.old) (W.contents to.new)) }
{
    let opening = tzb::open(file);
    for _turn in 0..u64::MAX {
        if !turn(from, to, opening, file)? {
            return Ok(());
        }
    }
    Ok(())
}

// Reads the file, with room for one byte more than it may have.
fn read_file<'a>(rt: &impl Files, name: &'a str, file: &mut [u8]) -> Result<usize, Stop<'a>> {
    let mut from = File::open(rt, name).map_err(|why| Stop::Index(name, why))?;
    let came = read(&mut from, file);
    match came.failed {
        Some(why) => Err(Stop::Index(name, why)),
        None => Ok(came.count),
    }
}

fn run<'a>(rt: &(impl Files + Input + Print), name: &'a str) -> Result<(), Stop<'a>> {
    let mut file = [0u8; LONGEST + 1];
    let n = read_file(rt, name, &mut file)?;
    if LONGEST < n {
        return Err(Stop::TooLong(name));
    }
    answer(&mut rt.reader(), &mut io::writer(rt), &file[..n])
}

fn main(rt: HostRuntime) -> io::Result<()> {
    let args: Vec<String> = env::args(&rt)?.collect(rt.alloc())?;
    let ran = match args.as_slice() {
        [_, name] => run(&rt, name.as_str()),
        _ => Err(Stop::Usage),
    };
    if let Err(why) = ran {
        say(&rt, why);
    }
    Ok(())
}
