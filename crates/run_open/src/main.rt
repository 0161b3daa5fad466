// Opens the small files of standard input, each of which stands in a record with the number that document 01 gives it (0: it opens),
// and writes how many are answered so before the first difference or the list's end. A file that opens is then asked for its first
// name, for one past its last zone (45), and for a name and a chunk of which the bytes are not lent (44).
#![tactic(auto)]

use opened::Opened;
use std::io;
use std::io::Read;

// The number by which chunk 0 is refused, or 0.
fn first_chunk(o: Opened, file: &[u8]) -> u32 {
    match tzb::chunk_at(o, file, 0) {
        Ok(_) => 0,
        Err(why) => why.number,
    }
}

// With the file's own bytes, and with its first 64 alone.
fn is_answered(o: Opened, file: &[u8]) -> bool {
    let few = harness::part(file, 0, 64);
    (tzb::name_refusal(o, file, 0) == 0)
        & (tzb::name_refusal(o, file, o.zones.count) == 45)
        & (tzb::name_refusal(o, few, 0) == 44)
        & (first_chunk(o, file) == 0)
        & (first_chunk(o, few) == 44)
}

// Whether the port says of the record's file what its number says.
fn is_same(r: &[u8; 1024]) -> bool {
    let expected = harness::number(r, 4);
    let file = harness::held(r);
    match tzb::open(file) {
        Ok(o) => (expected == 0) & is_answered(o, file),
        Err(why) => why.number == expected,
    }
}

// Whether there is one more record, and the port says the same.
fn next<R: Read>(input: &mut R) -> io::Result<bool> {
    let mut r = [0u8; 1024];
    Ok(harness::read_held(input, &mut r)? & is_same(&r))
}

fn main(rt: HostRuntime) -> io::Result<()> {
    let right = harness::replay(&mut rt.stdin(), |input| next(input))?;
    harness::tell(
        &mut rt.stdout(),
        right,
        b" files opened or refused as document 01 says\n",
    )
}
