// The rules of a row: each function refuses by the first one that is broken.
ghost use Rattle.std.specs.Prelude.{◌≡◌, ℕ, ◌+◌, ◌-◌, ◌*◌, ◌/◌, ◌%◌, ◌^◌, ◌<◌, ◌≤◌, ◌||◌, length, IfSome};
ghost use Rattle.denial.specs.Checks.{unless};
ghost use Rattle.find.specs.First.{first};
ghost use Rattle.plate.specs.Faults.{frame_at, spare_fault, bad_gap, bad_budget, bad_classes, bad_rank, no_rank, counted_fault, framed_fault};

use super::frame::Frame;
use super::start::RowStart;
use denial::{Denial, Rule};
use find::first_of;

// A spare field, so many bits into its row, is zero.
pub(crate) fn check_spare(start: RowStart, bits: u16, spare: u16) -> Result<(), Denial>
    requires { bits < 2 ^ 15 }
    ensures { result ≡ unless (spare_fault start.row (start.place + bits) spare) tt }
{
    if spare > 0 {
        return Err(start.denies(Rule::Spare, bits));
    }
    Ok(())
}

// The limits of a gap, a budget and a number of classes. Each has the name of its rule and a type of its own: one function for all
// would be the same comparison behind conversions.

fn bad_gap(gap: u16) -> bool
    ensures { result ≡ bad_gap gap }
{
    gap == 0 || gap > 4095
}

fn bad_budget(gap: u16, budget: u16) -> bool
    ensures { result ≡ bad_budget gap budget }
{
    budget == 0 || budget > gap
}

fn bad_classes(n: usize) -> bool
    ensures { result ≡ bad_classes n }
{
    n == 0 || n > 8
}

fn no_rank(rank: u8) -> bool
    ensures { result ≡ no_rank rank }
{
    rank == 0
}

// The first rank of a miss-counted row that is 0, or lower than the rank before it.
fn first_bad_rank(ranks: &[u8]) -> Option<usize>
    ensures within { IfSome result (λ i. i < length ranks.now) }
    ensures value { result ≡ first (bad_rank ranks.now) (length ranks.now) }
{
    // By index, since a rank is held against its neighbour, and the first against itself.
    first_of(
        ranks.len(),
        |i| no_rank(ranks[i]) || ranks[i] < ranks[i.saturating_sub(1)],
    )
}

// The first budget of a frame row that its gap forbids.
fn first_bad_budget(gap: u16, frames: &[Frame]) -> Option<usize>
    ensures within { IfSome result (λ i. i < length frames.now) }
    ensures value { result ≡ first (λ i. bad_budget gap (frame_at frames.now i).budget) (length frames.now) }
{
    frames
        .iter()
        .position(|frame| bad_budget(gap, frame.budget))
}

// The first rank of a frame row that is 0.
fn first_no_rank(frames: &[Frame]) -> Option<usize>
    ensures within { IfSome result (λ i. i < length frames.now) }
    ensures value { result ≡ first (λ i. no_rank (frame_at frames.now i).rank) (length frames.now) }
{
    frames.iter().position(|frame| no_rank(frame.rank))
}

// A miss-counted row keeps its rules. It goes in by its numbers, as the public checks and writers take it: no caller has a row to give.
// Each kind has a function of its own, since what is tested, at which bit and by which rule differs.
pub(crate) fn check_counted(
    start: RowStart,
    gap: u16,
    budget: u16,
    ranks: &[u8],
) -> Result<(), Denial>
    ensures { result ≡ unless (counted_fault start.row start.place gap budget ranks.now) tt }
{
    if bad_classes(ranks.len()) {
        return Err(start.denies(Rule::Ranks, 32));
    }
    if bad_gap(gap) {
        return Err(start.denies(Rule::Times, 0));
    }
    if bad_budget(gap, budget) {
        return Err(start.denies(Rule::Times, 12));
    }
    match first_bad_rank(ranks) {
        Some(i) => Err(start.denies(Rule::Ranks, 32 + 8 * i as u16)),
        None => Ok(()),
    }
}

// A frame row keeps its rules.
pub(crate) fn check_framed(start: RowStart, gap: u16, frames: &[Frame]) -> Result<(), Denial>
    ensures { result ≡ unless (framed_fault start.row start.place gap frames.now) tt }
{
    if bad_classes(frames.len()) {
        return Err(start.denies(Rule::Ranks, 28));
    }
    if bad_gap(gap) {
        return Err(start.denies(Rule::Times, 0));
    }
    if let Some(i) = first_bad_budget(gap, frames) {
        return Err(start.denies(Rule::Times, 16 + 24 * i as u16));
    }
    match first_no_rank(frames) {
        Some(i) => Err(start.denies(Rule::Ranks, 28 + 24 * i as u16)),
        None => Ok(()),
    }
}
