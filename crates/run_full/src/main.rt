// Puts the small files of standard input to the full check. Each stands in a record with the number that documents 01 and 02 give it: 0 where the
// full check accepts it, opening's number where that refuses it, else 47 and a hundred times the lowest broken rule. Writes how many are
// answered so before the first difference or the list's end.
#![tactic(auto)]

use replies::Fault;
use std::io;
use std::io::Read;

// Whether the port says of the record's file what its number says.
fn is_same(r: &[u8; 1024]) -> bool {
    let expected = harness::number(r, 4);
    match tzb::full_check(harness::held(r)) {
        Ok(()) => expected == 0,
        Err(Fault::Refused(why)) => (why.number != 0) & (why.number == expected),
        Err(Fault::Broken(why, rule)) => {
            (why.number == 47) & (expected % 100 == 47) & (rule == expected / 100)
        }
    }
}

// Whether there is one more record, and the port says the same.
fn next<R: Read>(input: &mut R) -> io::Result<bool> {
    let mut r = [0u8; 1024];
    Ok(harness::read_held(input, &mut r)? & is_same(&r))
}

fn main(rt: HostRuntime) -> io::Result<()> {
    let right = harness::replay(&mut rt.stdin(), |input| next(input))?;
    harness::tell(
        &mut rt.stdout(),
        right,
        b" files checked as documents 01 and 02 say\n",
    )
}
