// A zone of a file as GeoJSON text (RFC 7946). The full check comes first: of a file that it does not accept nothing is drawn.
#![tactic(auto)]

ghost use Rattle.std.specs.Prelude.{◌≡◌, length};
ghost use Rattle.answer.specs.Answers.{left};
ghost use Rattle.tzb_map.specs.Map.{map_of, map_in, how_long, as_answer, accepted_of};

use opened::Opened;
use replies::Fault;

// The file opened, where the full check accepts it.
#[tactic(auto, using(crate::proofs::MapLaws::accepted_barred, crate::proofs::MapLaws::accepted_is, crate::proofs::MapLaws::accepted_broken))]
fn accepted(file: &[u8]) -> Result<Opened, Fault>
    ensures { result ≡ accepted_of file.now }
{
    let o = tzb::open(file)?;
    match reader_check::broken_rule(o, file) {
        0 => Ok(o),
        rule => Err(Fault::Broken(answer::refuse(47), rule)),
    }
}

// How many bytes the text of a zone takes.
pub fn map_length(file: &[u8], zone: u32) -> Result<usize, Fault>
    ensures { result ≡ how_long (map_of file.now zone) }
{
    let o = accepted(file)?;
    Ok(reader_map::map_size(o, file, zone)?)
}

// The text into the first bytes of `out`: how many they are. A refusal leaves the lent memory as it was, and bytes behind the text are never touched.
pub fn map(file: &[u8], zone: u32, out: &mut [u8]) -> Result<usize, Fault>
    ensures result_value { result ≡ how_long (map_in file.now zone (length out.old)) }
    ensures memory { out.new ≡ left out.old (as_answer (map_in file.now zone (length out.old))) }
{
    let o = accepted(file)?;
    Ok(reader_map::map_into(o, file, zone, out)?)
}
