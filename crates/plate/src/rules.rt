// The rules of the two kinds of row, for a row given by its numbers: two public calls, since a row of each kind has other numbers.
ghost use Rattle.std.specs.Prelude.{◌≡◌, OnOk};
ghost use Rattle.denial.specs.Checks.{unless};
ghost use Rattle.plate.specs.Faults.{counted_fault, framed_fault};
ghost use Rattle.plate.specs.Plans.{SoundCounted, SoundFramed};

use super::faults::{check_counted, check_framed};
use super::frame::Frame;
use super::start::RowStart;
use denial::Denial;

// Refuses a miss-counted row by its first fault, as row 0 from bit 0 on. A row that is not refused keeps the rules of its kind.
#[tactic(auto, using(crate::proofs::Counteds::fault_sound))]
pub fn check_miss_counted(gap: u16, budget: u16, ranks: &[u8]) -> Result<(), Denial>
    ensures value { result ≡ unless (counted_fault 0 0 gap budget ranks.now) tt }
    ensures sound { OnOk result (SoundCounted (record { gap = gap; budget = budget; ranks = ranks.now })) }
{
    check_counted(RowStart::ALONE, gap, budget, ranks)
}

// Refuses a frame row by its first fault, as row 0 from bit 0 on. A row that is not refused keeps the rules of its kind.
#[tactic(auto, using(crate::proofs::Frameds::fault_sound))]
pub fn check_frames(gap: u16, frames: &[Frame]) -> Result<(), Denial>
    ensures value { result ≡ unless (framed_fault 0 0 gap frames.now) tt }
    ensures sound { OnOk result (SoundFramed (record { gap = gap; frames = frames.now })) }
{
    check_framed(RowStart::ALONE, gap, frames)
}
