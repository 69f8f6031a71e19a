// Where a row starts.
ghost use Rattle.std.specs.Prelude.{◌≡◌, ◌+◌, ◌%◌, ◌^◌, ◌<◌, ◌≤◌};
ghost use Rattle.denial.specs.Numbers.{denied};

use denial::{Denial, Rule};

// The number of a row and the bit place of its first field, which is the first of a byte.
#[derive(Clone, Copy)]
pub(crate) struct RowStart {
    pub(crate) row: u16,
    pub(crate) place: u16,
    ghost aligned: { place % 8 ≡ 0 },
    ghost near: { place ≤ 4880 },
}

impl RowStart {
    // Of a row that stands alone: row 0, from bit 0 on.
    pub(crate) const ALONE: Self = RowStart { row: 0, place: 0 };

    // The refusal of what stands so many bits into the row.
    pub(crate) fn denies(self, rule: Rule, bits: u16) -> Denial
        requires { bits < 2 ^ 15 }
        ensures { result ≡ denied rule self.row (self.place + bits) }
    {
        rule.denies(self.row, self.place + bits)
    }
}
