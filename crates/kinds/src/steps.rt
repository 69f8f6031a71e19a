// Small steps that both kinds take.
ghost use Rattle.std.specs.Prelude.{◌≡◌, if◌then◌else◌, nat_lt};
ghost use Rattle.kinds.specs.Cycle.{next_class};

// The class after one of `count` classes; after the last the first.
pub(crate) fn next_class(count: u8, class: u8) -> u8
    ensures { result ≡ next_class count class }
{
    if class < count { class + 1 } else { 1 }
}

// A weight that counts only if a rank is above a limit.
pub(crate) fn above(limit: u8, rank: u8, weight: u16) -> u16
    ensures { result ≡ (if nat_lt limit rank then weight else 0) }
{
    if rank > limit { weight } else { 0 }
}
