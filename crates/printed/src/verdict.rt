// The last line of the sheet: what the start says of the plan.
ghost use Rattle.std.specs.Prelude.{◌≡◌, ◌++◌, codes};
ghost use Rattle.std.specs.Result.{result_err};
ghost use Rattle.denial.specs.Numbers.{report};
ghost use Rattle.printed.specs.Lines.{verdict_line};

use crate::text::{LineText, put_number};
use denial::Denial;

// The line of a plan that may be started.
fn accepted() -> LineText
    ensures { result.bytes ≡ codes "accepted\n" }
{
    let mut line = LineText::new();
    line.push_str("accepted\n");
    line
}

// What a denial prints, as a line.
fn report(denial: &Denial) -> LineText
    ensures { result.bytes ≡ report denial.now ++ codes "\n" }
{
    let mut line = LineText::new();
    line.push_str("refused ");
    put_number(&mut line, denial.number(), ' ');
    put_number(&mut line, denial.first, ' ');
    put_number(&mut line, denial.second, '\n');
    line
}

// The verdict as a line.
pub(crate) fn verdict(started: Result<(), Denial>) -> LineText
    ensures { result.bytes ≡ verdict_line (result_err started) }
{
    match started {
        Ok(()) => accepted(),
        Err(denial) => report(&denial),
    }
}
