// One line of the sheet.
ghost use Rattle.std.specs.Prelude.{◌≡◌, ◌+◌, ◌≤◌, ◌++◌, length};
ghost use Rattle.arrayvec.specs.ArrayString.{array_string_len};
ghost use Rattle.printed.specs.Lines.{Listed, last_column, line_of, line_text};

use crate::text::{LineText, put_number};
use bounds::bound;
use group::Group;

// What the sheet says of a class.
#[derive(Clone, Copy)]
pub struct Line {
    pub task: u16,
    pub class: u8,
    pub rank: u8,
    pub budget: u16,
    pub bound: Option<u16>,
}

impl Line {
    // What a group says of a class that is there.
    pub(crate) fn of<G: Group>(group: &G, task: u16, class: u8) -> Line
        requires { Listed (G.tasks group.now) task class }
        ensures { result ≡ line_of (G.tasks group.now) task class }
    {
        let terms = group.terms(task, class);
        Line {
            task,
            class,
            rank: terms.rank,
            budget: terms.budget,
            bound: bound(group, task, class).ok().flatten(),
        }
    }

    // The line as text.
    #[tactic(auto, using(std::proofs::Common::append_assoc), unfolding(crate::specs::Lines::line_text))]
    pub(crate) fn text(&self) -> LineText
        ensures { result.bytes ≡ line_text self.now }
    {
        let mut line = LineText::new();
        put_number(&mut line, self.task, ' ');
        put_number(&mut line, self.class, ' ');
        put_number(&mut line, self.rank, ' ');
        put_number(&mut line, self.budget, ' ');
        put_bound(&mut line, self.bound);
        line
    }
}

// Appends the last column, which ends the line.
fn put_bound(line: &mut LineText, bound: Option<u16>)
    requires { array_string_len line.old + 6 ≤ 26 }
    ensures { line.new.bytes ≡ line.old.bytes ++ last_column bound }
{
    match bound {
        Some(ticks) => put_number(line, ticks, '\n'),
        None => line.push_str("-\n"),
    }
}
