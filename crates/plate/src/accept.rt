// Judging a whole plate.
ghost use Rattle.std.specs.Prelude.{◌≡◌, ◌<◌, MatchResult};
ghost use Rattle.plate.specs.Plans.{Accepted, Refused, WrittenIsRead};
ghost use Rattle.plate.specs.Reading.{rest_of, fault_of};
ghost use Rattle.plate.specs.Readers.{state, plate_of};

use super::reader::{Counts, Reader};
use denial::Denial;

// Reads all the rows to come.
#[tactic(auto, using(crate::proofs::Rests::reads))]
fn read_on(reader: &mut Reader) -> Result<(), Denial>
    requires { 0 < (state reader.old).place }
    ensures { fault_of result ≡ fault_of (rest_of (plate_of reader.old) (state reader.old)) }
{
    while let Some(_) = reader.next_row()? {}
    Ok(())
}

// Reads the whole plate: the numbers of its rows, or its first fault. A plate is accepted exactly if it is the encoding of
// a sound plan.
#[tactic(auto, using(crate::proofs::Verdicts::verdicts))]
pub fn accept(plate: &[u8]) -> Result<Counts, Denial>
    ensures verdict { MatchResult result (λ n. Accepted plate.now n.counted n.framed) (λ d. Refused plate.now d) }
    ensures trips { WrittenIsRead }
{
    let mut reader = Reader::new(plate);
    let counts = reader.open()?;
    read_on(&mut reader)?;
    Ok(counts)
}
