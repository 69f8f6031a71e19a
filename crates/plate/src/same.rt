// Comparing two plates.
ghost use Rattle.std.specs.Prelude.{◌≡◌, min, not, length, Decides, ◌==◌, slice_index};
ghost use Rattle.find.specs.First.{first};

// Whether two plates are the same: yes exactly when length and all bytes agree.
pub fn same(a: &[u8], b: &[u8]) -> bool
    ensures { Decides result (a.now ≡ b.now) }
{
    a == b
}

// Whether two bytes differ. (A leaf, so that what it means stands in a contract.)
fn differ(x: u8, y: u8) -> bool
    ensures { result ≡ not (x == y) }
{
    x != y
}

// The first byte in which two plates differ, as far as both go.
pub fn first_difference(a: &[u8], b: &[u8]) -> Option<usize>
    ensures { result ≡ first (λ i. not (slice_index a.now i == slice_index b.now i))
        (min (length a.now) (length b.now)) }
{
    a.iter().zip(b).position(|(x, y)| differ(*x, *y))
}
