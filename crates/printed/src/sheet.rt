// The sheet of a plate.
ghost use Rattle.std.specs.Prelude.{◌≡◌, ◌^◌, ◌<◌, ◌≤◌, [], ◌++◌, length, IfOk, MatchResult};
ghost use Rattle.denial.specs.Checks.{unless};
ghost use Rattle.plate.specs.Plans.{Refused, decode};
ghost use Rattle.plate.specs.Writing.{left};
ghost use Rattle.plan.specs.Loads.{Loaded};
ghost use Rattle.admission.specs.Start.{plan_fault, marks};
ghost use Rattle.printed.specs.Text.{HasRoom};
ghost use Rattle.printed.specs.Sheet.{FewTasks, front_of, fault_of, marks_of, sheet_text, sheet_fault};
ghost use Rattle.printed.specs.Told.{Told};

use crate::tasks::Lines;
use crate::text::Text;
use crate::verdict::verdict;
use denial::{Denial, check_room};
use dispatcher::Dispatcher;
use group::{Group, Join};
use kinds::{FrameTable, MissCountedTable};
use plan::load::load;

// The tasks of a plate.
type Plan = Join<MissCountedTable, FrameTable>;

// Loads a plate.
fn loaded(plate: &[u8]) -> Result<Plan, Denial>
    ensures { MatchResult result (λ plan. Loaded plate.now plan.first plan.second) (λ d. Refused plate.now d) }
{
    let mut first = MissCountedTable::new();
    let mut second = FrameTable::new();
    load(plate, &mut first, &mut second)?;
    Ok(Join { first, second })
}

// Starts a group of work, if it may be started; the scratch is lent to the start.
fn start<G: Group + Drop>(group: G, scratch: &mut [u8; 256]) -> Result<(), Denial>
    requires { FewTasks (G.tasks group) }
    ensures result { result ≡ unless (plan_fault (G.tasks group)) tt }
    ensures scratch { scratch.new ≡ marks (G.tasks group) }
{
    Dispatcher::new(group).start(scratch)
}

// Appends what stands above the verdict, and gives the verdict: whether the plate has tasks that may be started.
fn put_front(text: &mut Text, plate: &[u8], scratch: &mut [u8; 256]) -> Result<(), Denial>
    requires { HasRoom text.old.bytes (front_of (decode plate.now)) }
    ensures result { result ≡ unless (fault_of (decode plate.now)) tt }
    ensures text { text.new.bytes ≡ text.old.bytes ++ front_of (decode plate.now) }
    ensures scratch { scratch.new ≡ marks_of (decode plate.now) scratch.old }
{
    let plan = loaded(plate)?;
    Lines { group: &plan }.put(text);
    start(plan, scratch)
}

// Puts the sheet into a text that is empty yet, which is lent: the text is large, and one that was handed back would stand on the
// stack once more for each call. (`plate` and `scratch` are what `print_sheet` is given.)
fn put_sheet(text: &mut Text, plate: &[u8], scratch: &mut [u8; 256])
    requires { text.old.bytes ≡ [] }
    ensures text { text.new.bytes ≡ sheet_text plate.now }
    ensures scratch { scratch.new ≡ marks_of (decode plate.now) scratch.old }
    ensures told { Told plate.now }
{
    let started = put_front(text, plate, scratch);
    text.push_str(verdict(started).as_str());
}

// Prints the sheet of a plate into the caller's bytes: how many bytes it has, or 8 with the bytes needed, and then all bytes stay.
// The scratch is lent to the start, which leaves the marks of the ranks in it; a refused plate leaves it as it was.
pub fn print_sheet(plate: &[u8], scratch: &mut [u8; 256], out: &mut [u8]) -> Result<usize, Denial>
    ensures result { result ≡ unless (sheet_fault (length (sheet_text plate.now)) (length out.old)) (length (sheet_text plate.now)) }
    ensures within { IfOk result (λ n. n ≤ length out.old) }
    ensures out { out.new ≡ left result out.old 0 (sheet_text plate.now) }
    ensures scratch { scratch.new ≡ marks_of (decode plate.now) scratch.old }
    ensures short { length (sheet_text plate.now) ≤ 4830 }
    ensures told { Told plate.now }
{
    let mut text = Text::new();
    put_sheet(&mut text, plate, scratch);
    let needed = text.len();
    check_room(needed, out.len())?;
    out[..needed].copy_from_slice(text.as_str().as_bytes());
    Ok(needed)
}
