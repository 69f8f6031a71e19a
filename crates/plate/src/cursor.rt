// A plate and a bit place in it, moved on by reading.
ghost use Rattle.std.specs.Prelude.{◌≡◌, ℕ, ◌+◌, ◌-◌, ◌*◌, ◌/◌, ◌%◌, ◌^◌, ◌<◌, ◌≤◌, length, take, drop, true, Some, None, is_ok, OnOk, MatchResult};
ghost use Rattle.denial.specs.Checks.{unless};
ghost use Rattle.plate.specs.Bits.{field};
ghost use Rattle.plate.specs.Rows.{short_fault};

use denial::{Denial, Rule};

#[derive(Clone, Copy)]
pub struct Cursor<'a> {
    pub(crate) plate: &'a [u8],
    pub(crate) place: usize,
}

// The n bits of byte b from its bit `from` on.
fn within_byte(b: u8, from: u8, n: u8) -> u16
    requires { (1 ≤ n) × (from + n ≤ 8) }
    ensures { result ≡ b / 2 ^ (8 - (from + n)) % 2 ^ n }
{
    u16::from(b >> (8 - (from + n))) % (1 << n)
}

impl<'a> Cursor<'a> {
    // The number in the next n bits.
    pub(crate) fn field(&mut self, n: u8) -> u16
        requires width { (1 ≤ n) × (self.old.place % 8 + n ≤ 16) }
        requires within { (self.old.place + n ≤ 8 * length self.old.plate.now) × (self.old.place < 2 ^ 32) }
        ensures plate { self.new.plate.now ≡ self.old.plate.now }
        ensures value { result ≡ field self.old.plate.now self.old.place n }
        ensures small { result < 2 ^ n }
        ensures place { self.new.place ≡ self.old.place + n }
    {
        let at = self.place / 8;
        let from = (self.place % 8) as u8;
        self.place += usize::from(n);
        if from + n <= 8 {
            return within_byte(self.plate[at], from, n);
        }
        let low = from + n - 8;
        within_byte(self.plate[at], from, 8 - from) * (1 << low)
            + within_byte(self.plate[at + 1], 0, low)
    }

    // The plate has n bytes more of a row.
    pub(crate) fn check_left(&self, row: u16, n: usize) -> Result<(), Denial>
        requires { (self.now.place < 2 ^ 13) × (n < 2 ^ 8) }
        ensures value { result ≡ unless (short_fault self.now.plate.now row (self.now.place / 8 + n)) tt }
        ensures enough { OnOk result (self.now.place / 8 + n ≤ length self.now.plate.now) }
    {
        if self.plate.len() < self.place / 8 + n {
            return Err(Rule::Short.denies(row, 8 * self.plate.len() as u16));
        }
        Ok(())
    }

    // The next n bytes of a row.
    pub(crate) fn bytes(&mut self, row: u16, n: usize) -> Result<&'a [u8], Denial>
        requires { (self.old.place % 8 ≡ 0) × ((self.old.place < 2 ^ 13) × (n < 2 ^ 8)) }
        ensures plate { self.new.plate.now ≡ self.old.plate.now }
        ensures result { MatchResult result
            (λ bytes. (short_fault self.old.plate.now row (self.old.place / 8 + n) ≡ None) × (length bytes.now ≡ n)
            × (bytes.now ≡ take n (drop (self.old.place / 8) self.old.plate.now)))
            (λ d. short_fault self.old.plate.now row (self.old.place / 8 + n) ≡ Some d) }
        ensures place { is_ok result ≡ true → self.new.place ≡ self.old.place + 8 * n }
    {
        self.check_left(row, n)?;
        let at = self.place / 8;
        self.place += 8 * n;
        Ok(&self.plate[at..at + n])
    }
}
