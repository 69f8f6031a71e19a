// Why a call is refused: the rule that was broken, and two details. A denial is handed up unchanged.
#![tactic(auto)]

ghost use Rattle.std.specs.Prelude.{◌≡◌, ◌≤◌, Some};
ghost use Rattle.denial.specs.Checks.{unless, short_of};
ghost use Rattle.denial.specs.Numbers.{number_of, layer_of, layer_number, denied, Alone, report};

use std::error::Error;
use std::fmt;

// One case for each rule, with the number under which it is reported. docs/RULES.md says what each means.
#[derive(Clone, Copy, PartialEq, Eq, Debug)]
pub enum Rule {
    // The plate ends before its header or the present row is complete.
    Short = 1,
    // The edition is not 1.
    Edition = 2,
    // A number of rows is above 16, or both are 0.
    RowCounts = 3,
    // A spare field is not zero.
    Spare = 4,
    // A gap is 0, or a budget is 0 or above the gap.
    Times = 5,
    // A rank is 0, or ranks of a miss-counted row fall.
    Ranks = 6,
    // Bytes remain after the last row.
    Extra = 7,
    // A buffer to write to is too short.
    Room = 8,
    // The dispatcher is already started.
    Started = 9,
    // The scratch is shorter than 256 bytes.
    Scratch = 10,
    // The group has no task, or more than 64.
    TaskCount = 11,
    // Two tasks use the same rank.
    SharedRank = 12,
    // A class whose miss is not tolerated has no bound.
    Unbounded = 13,
    // Release, tick or resume before an accepted start.
    NotStarted = 14,
    // The task number is not below the count.
    NoTask = 15,
    // The class number is 0 or above the task's classes.
    NoClass = 16,
    // A release of a halted task.
    Halted = 17,
    // Fewer than gap ticks since the task's last accepted release.
    TooSoon = 18,
    // A resume of a task that is not halted.
    NotHalted = 19,
    // A tick at the clock's last value.
    ClockEnd = 20,
    // A finish is marked while no job is pending.
    NothingPending = 21,
    // The list for ends is shorter than the number of pending jobs.
    ListRoom = 22,
}

// What a rule speaks of, with the number under which the layer is reported.
#[derive(Clone, Copy, PartialEq, Eq, Debug)]
pub enum Layer {
    Bits = 1,
    Rows = 2,
    Plate = 3,
    Start = 4,
    Dispatcher = 5,
}

// A refusal: the rule, and two details whose meaning depends on the rule.
#[derive(Clone, Copy, PartialEq, Eq, Debug)]
pub struct Denial {
    pub rule: Rule,
    pub first: u16,
    pub second: u16,
}

impl Rule {
    // A denial by this rule.
    pub fn denies(self, first: u16, second: u16) -> Denial
        ensures { result ≡ denied self first second }
    {
        Denial {
            rule: self,
            first,
            second,
        }
    }

    // The number under which the rule is reported; no other rule has it.
    pub fn number(self) -> u16
        ensures value { result ≡ number_of self }
        ensures alone { Alone self result }
    {
        self as u16
    }

    // The layer that the rule belongs to.
    pub fn layer(self) -> Layer
        ensures { layer_number result ≡ layer_of self }
    {
        match self {
            Rule::Short => Layer::Bits,
            Rule::Spare | Rule::Times | Rule::Ranks => Layer::Rows,
            Rule::Edition | Rule::RowCounts | Rule::Extra | Rule::Room => Layer::Plate,
            Rule::Started | Rule::Scratch | Rule::TaskCount | Rule::SharedRank | Rule::Unbounded =>
                Layer::Start,
            _ => Layer::Dispatcher,
        }
    }
}

impl Layer {
    // The number under which the layer is reported.
    pub fn number(self) -> u16
        ensures { result ≡ layer_number self }
    {
        self as u16
    }
}

impl Denial {
    pub fn number(&self) -> u16
        ensures { result ≡ number_of self.now.rule }
    {
        self.rule.number()
    }

    pub fn layer(&self) -> Layer
        ensures { layer_number result ≡ layer_of self.now.rule }
    {
        self.rule.layer()
    }
}

// Refuses a buffer of `room` bytes where `needed` are needed; a detail goes no higher than 65,535.
pub fn check_room(needed: usize, room: usize) -> Result<(), Denial>
    ensures { result ≡ unless (short_of needed room) tt }
{
    if room < needed {
        return Err(Rule::Room.denies(needed.min(65535) as u16, 0));
    }
    Ok(())
}

// `refused`, the number and the two details.
impl fmt::Display for Denial {
    ghost output = { λ d. Some (report d) };

    fn fmt<W: fmt::Write>(&self, f: &mut fmt::Formatter<W>) -> fmt::Result {
        write!(
            f,
            "refused {} {} {}",
            self.number(),
            self.first,
            self.second
        )
    }
}

impl Error for Denial {}
