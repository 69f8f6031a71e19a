// The promise over whole runs: what every succession of calls on a new dispatcher keeps, and the theorems that it stands on.
#![tactic(auto)]

ghost use Rattle.std.specs.Prelude.{◌≡◌};
ghost use Rattle.choose.specs.Foremost.{ForemostFound};
ghost use Rattle.promise.specs.OwnBudget.{OwnBudgetFails};
ghost use Rattle.promise.specs.PrintedRun.{PrintedRun};
ghost use Rattle.promise.specs.Promise.{in_time, Promise, BoundIsLeast, NoChoice};
ghost use Rattle.promise.specs.Window.{WindowTheorem};

use dispatcher::end::Way;

// Finished or cut, at an age of at most the bound.
fn keeps(bound: u16, way: Way, age: u32) -> bool
    ensures { result ≡ in_time bound way age }
{
    match way {
        Way::Finished | Way::Cut => age <= u32::from(bound),
        Way::Late => false,
    }
}

// Whether an end keeps a bound. The promise: over every lawful group and every succession of calls on a new dispatcher, this
// answers yes for every end of a job whose class has a bound; tasks are halted only by a job cut at its own budget; late ends in a
// row stay few; and the slots are as the trace reads.
pub fn in_time(bound: u16, way: Way, age: u32) -> bool
    ensures value { result ≡ in_time bound way age }
    ensures promise { Promise }
{
    keeps(bound, way, age)
}

// What the promise stands on. `window`: all jobs of any choice of counted classes end within R ticks, under any rule of who runs
// that keeps the closure, with some ticks lost. `least`: the bound that is answered is the least number of ticks that is enough.
// `choice`: the rule leaves no choice of who runs. `foremost`: the search for the foremost finds it. `own`: a bound by the class's
// own budget alone would be broken. `run`: a run of the printed plan is such a trace, and reads as it should.
pub fn theorems_stand()
    ensures window { WindowTheorem }
    ensures least { BoundIsLeast }
    ensures choice { NoChoice }
    ensures foremost { ForemostFound }
    ensures own { OwnBudgetFails }
    ensures run { PrintedRun }
{}
