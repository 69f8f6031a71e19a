// Why a release, a tick or a resume is refused.
ghost use Rattle.std.specs.Prelude.{◌≡◌, not};
ghost use Rattle.denial.specs.Checks.{unless, when};
ghost use Rattle.denial.specs.declared.Rule.TheVariants.{NotHalted};
ghost use Rattle.denial.specs.Numbers.{denied};
ghost use Rattle.dispatcher.specs.Slots.{is_halted};
ghost use Rattle.dispatcher.specs.Refusals.{unstarted_fault, no_task_fault, too_soon, seat_fault, room_fault};

use crate::seats::SEATS;
use crate::slot::{Seat, Slot};
use denial::{Denial, Rule};

// No start was accepted; a group of more than 64 tasks never was started.
pub(crate) fn check_started(started: bool, count: u16) -> Result<(), Denial>
    ensures { result ≡ unless (unstarted_fault started count) tt }
{
    if started && usize::from(count) <= SEATS {
        Ok(())
    } else {
        Err(Rule::NotStarted.denies(0, 0))
    }
}

// There is no task of that number. (Without a look at the count, unlike `bounds::check_task`: that is refused by 14 before.)
pub(crate) fn check_number(count: u16, task: u16) -> Result<(), Denial>
    ensures { result ≡ unless (no_task_fault count task) tt }
{
    if task >= count {
        return Err(Rule::NoTask.denies(0, 0));
    }
    Ok(())
}

// Whether fewer than gap ticks have passed since the last accepted release.
fn is_too_soon(gap: u16, clock: u32, last: Option<u32>) -> bool
    ensures { result ≡ too_soon gap clock last }
{
    last.is_some_and(|at| clock.saturating_sub(at) < u32::from(gap))
}

// The task is halted, or was released too shortly before.
pub(crate) fn check_seat(gap: u16, clock: u32, seat: Seat) -> Result<(), Denial>
    ensures { result ≡ unless (seat_fault gap clock seat) tt }
{
    if seat.slot == Slot::Halted {
        return Err(Rule::Halted.denies(0, 0));
    }
    if is_too_soon(gap, clock, seat.last) {
        return Err(Rule::TooSoon.denies(0, 0));
    }
    Ok(())
}

// The task is not halted.
pub(crate) fn check_halted(slot: Slot) -> Result<(), Denial>
    ensures { result ≡ unless (when (not (is_halted slot)) (denied NotHalted 0 0)) tt }
{
    if slot == Slot::Halted {
        Ok(())
    } else {
        Err(Rule::NotHalted.denies(0, 0))
    }
}

// The clock is at its last value, a finish is marked while no job is pending, or the list for ends is too short.
pub(crate) fn check_room(clock: u32, mark: bool, pending: usize, room: usize) -> Result<(), Denial>
    ensures { result ≡ unless (room_fault clock mark pending room) tt }
{
    if clock == u32::MAX {
        return Err(Rule::ClockEnd.denies(0, 0));
    }
    if mark && pending == 0 {
        return Err(Rule::NothingPending.denies(0, 0));
    }
    if room < pending {
        return Err(Rule::ListRoom.denies(0, 0));
    }
    Ok(())
}
