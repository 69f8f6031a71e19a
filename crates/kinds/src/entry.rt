// The place of a task in a table.
ghost use Rattle.std.specs.Prelude.{◌≤◌};

use crate::table_row::TableRow;
use group::Terms;

// A row that keeps the rules of its kind, and the class that its task is at.
#[derive(Drop)]
pub struct Entry<R: TableRow> {
    pub row: R,
    pub place: u8,
    pub ghost keeps: { R.kind.good row } by { R.kind.one row },
    pub ghost low: { 1 ≤ place },
    pub ghost high: { place ≤ R.kind.classes row },
}

impl<R: TableRow> Entry<R> {
    ghost use Rattle.std.specs.Prelude.{◌≡◌};
    ghost use Rattle.group.specs.Task.{terms_of};
    ghost use Rattle.kinds.specs.Held.{meant};

    // A good row at its first class.
    pub(crate) fn first(row: R) -> Self
        requires { R.kind.good row }
        ensures row { result.row ≡ row }
        ensures place { result.place ≡ 1 }
    {
        Entry { row, place: 1 }
    }

    // The terms of a class, counted from 1; zeros where there is none.
    pub(crate) fn terms(&self, class: u8) -> Terms
        ensures { result ≡ terms_of (meant R.TableRow self.now.row) class }
    {
        class
            .checked_sub(1)
            .and_then(|index| R::class(self, usize::from(index)))
            .unwrap_or(Terms::NONE)
    }
}

// What stands in the places of a table that no task has.
impl<R: TableRow> Default for Entry<R> {
    ghost use Rattle.std.specs.Prelude.{◌≡◌};

    fn default() -> Self
        ensures row { result.row ≡ R.blank }
        ensures place { result.place ≡ 1 }
    {
        Entry::first(R::blank())
    }
}
