// Where a task of two joined groups stands: under which number in the first or in the second.
ghost use Rattle.group.specs.Joined.{MayAsk, Answers};

#[derive(Clone, Copy)]
pub enum Part {
    First(u16),
    Second(u16),
    Absent,
}

impl Part {
    // What the group in which the task stands answers; `none` where there is no such task.
    pub(crate) fn ask<T: Drop, F: FnOnce(u16) -> T + Drop, S: FnOnce(u16) -> T + Drop>(
        self,
        none: T,
        first: F,
        second: S,
    ) -> T
        requires { MayAsk self (F.pre first) (S.pre second) }
        ensures { Answers self none (F.post first) (S.post second) result }
    {
        match self {
            Part::First(i) => first(i),
            Part::Second(i) => second(i),
            Part::Absent => none,
        }
    }
}
