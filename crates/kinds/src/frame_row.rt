// What a frame row answers.
ghost use Rattle.std.specs.Prelude.{◌≡◌, ◌+◌, ◌*◌, ◌/◌, ◌^◌, ◌<◌, ◌≤◌, take};
ghost use Rattle.kinds.specs.Cycle.{successive, largest};
ghost use Rattle.kinds.specs.FramedRows.{framed_kind};
ghost use Rattle.kinds.specs.Rows.{framed_blank, row_above};

use crate::entry::Entry;
use crate::rows::FrameRow;
use crate::steps::{above, next_class};
use crate::table_row::TableRow;
use denial::{Denial, Rule};
use group::{Outcome, Terms};
use plate::frame::Frame;
use plate::rules::check_frames;

// What so many jobs ask for: whole turns of a cycle of `count` frames, and the rest.
fn turns_and_rest(jobs: u16, count: u16, turn: u32, rest: u32) -> u32
    requires some { 1 ≤ count }
    requires small { jobs / count * turn + rest < 2 ^ 32 }
    ensures { result ≡ jobs / count * turn + rest }
{
    u32::from(jobs / count) * turn + rest
}

impl TableRow for FrameRow {
    ghost kind = { framed_kind };

    ghost blank = { framed_blank };

    ghost NUMBER_AT = { 10 };

    const NUMBER_AT: u16 = 10;

    fn blank() -> Self {
        FrameRow {
            gap: 1,
            count: 1,
            frames: [Frame { budget: 1, rank: 1 }; 8],
        }
    }

    fn check(&self) -> Result<(), Denial> {
        if self.count > 8 {
            return Err(Rule::Ranks.denies(0, 28));
        }
        check_frames(self.gap, &self.frames[..usize::from(self.count)])
    }

    fn gap(&self) -> u16 {
        self.gap
    }

    fn class_count(entry: &Entry<Self>) -> u8 {
        entry.row.count
    }

    fn class(entry: &Entry<Self>, index: usize) -> Option<Terms> {
        entry.frames().get(index).map(|frame| Terms {
            rank: frame.rank,
            budget: frame.budget,
            tolerated: false,
        })
    }

    // The next frame, however the job ended.
    fn next(entry: &Entry<Self>, _outcome: Outcome) -> u8 {
        next_class(entry.row.count, entry.place)
    }

    // Whole turns, and the best of the rest.
    fn demand(entry: &Entry<Self>, jobs: u16, rank: u8) -> u32 {
        let jobs = jobs.min(4095);
        let count = u16::from(entry.row.count);
        let turn = entry.successive_above(1, entry.row.count, rank);
        let rest = entry.largest_above((jobs % count) as u8, rank);
        turns_and_rest(jobs, count, turn, rest)
    }
}

impl Entry<FrameRow> {
    // The frames of the task's cycle.
    pub fn frames(&self) -> &[Frame]
        ensures { result.now ≡ take self.now.row.count self.now.row.frames }
    {
        &self.row.frames[..usize::from(self.row.count)]
    }

    // The budget of a frame, if its rank is above `rank`.
    fn budget_above(&self, frame: u8, rank: u8) -> u32
        requires low { 1 ≤ frame }
        requires high { frame ≤ self.now.row.count }
        ensures { result ≡ row_above self.now.row rank frame }
    {
        let frame = self.row.frames[usize::from(frame) - 1];
        u32::from(above(rank, frame.rank, frame.budget))
    }

    // The budgets above `rank` of `number` successive frames. (A `for`: each step goes on from the frame of the step before.)
    fn successive_above(&self, start: u8, number: u8, rank: u8) -> u32
        requires low { 1 ≤ start }
        requires high { start ≤ self.now.row.count }
        requires few { number ≤ 8 }
        ensures { result ≡ successive (row_above self.now.row rank) self.now.row.count start number }
    {
        let mut sum = 0;
        let mut frame = start;
        for _ in 0..number {
            sum += self.budget_above(frame, rank);
            frame = next_class(self.row.count, frame);
        }
        sum
    }

    // The largest such sum over all starts.
    fn largest_above(&self, number: u8, rank: u8) -> u32
        requires few { number ≤ 8 }
        ensures { result ≡ largest self.now.row.count (λ x. successive (row_above self.now.row rank) self.now.row.count x number) }
    {
        (1..=self.row.count)
            .map(|start| self.successive_above(start, number, rank))
            .max()
            .unwrap_or(0)
    }
}
