// Whether a group of work may be started: no two of its tasks share a rank, and every class that must have a bound has one.
#![tactic(auto)]

mod marked;
mod marks;

ghost use Rattle.std.specs.Prelude.{◌≡◌, ◌++◌, length, drop, MatchResult};
ghost use Rattle.denial.specs.Checks.{unless};
ghost use Rattle.admission.specs.Start.{marks, early_fault, start_fault, scratch_after, StartLaw};

use bounds::check_count;
use denial::{Denial, Rule};
use group::Group;
use marked::Marked;
use marks::mark_ranks;

// Refuses a start before ranks and bounds are looked at. (`group` and `started` are what `admit` is given: a struct of both would be
// made there and taken apart here.)
fn check_early<G: Group>(group: &G, started: bool, room: usize) -> Result<(), Denial>
    ensures { result ≡ unless (early_fault started room (G.tasks group.now)) tt }
{
    if started {
        return Err(Rule::Started.denies(0, 0));
    }
    if room < 256 {
        return Err(Rule::Scratch.denies(0, 0));
    }
    check_count(group)
}

// Marks the ranks in use, unless the start is refused before that.
fn prepare<G: Group>(group: &G, started: bool, scratch: &mut [u8]) -> Result<(), Denial>
    ensures result { result ≡ unless (early_fault started (length scratch.old) (G.tasks group.now)) tt }
    ensures scratch { MatchResult result (λ _. scratch.new ≡ marks (G.tasks group.now) ++ drop 256 scratch.old)
        (λ _. scratch.new ≡ scratch.old) }
{
    check_early(group, started, scratch.len())?;
    mark_ranks(group, scratch);
    Ok(())
}

// Judges a start, and marks the ranks in use: the scratch, one byte for each rank, then holds their marks, unless the start was
// refused before that.
pub fn admit<G: Group>(group: &G, started: bool, scratch: &mut [u8]) -> Result<(), Denial>
    ensures result { result ≡ unless (start_fault started (length scratch.old) (G.tasks group.now)) tt }
    ensures scratch { scratch.new ≡ scratch_after (early_fault started (length scratch.old) (G.tasks group.now))
        (G.tasks group.now) scratch.old }
    ensures law { StartLaw started (length scratch.old) (G.tasks group.now) result }
{
    prepare(group, started, scratch)?;
    let marked = Marked {
        group,
        marks: scratch,
    };
    marked.check()
}
