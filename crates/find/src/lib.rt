// Finding the first index that passes a test, once for every test.
#![tactic(auto)]

ghost use Rattle.std.specs.Prelude.{◌≡◌, ℕ, ◌<◌, Bool, IfSome};
ghost use Rattle.find.specs.First.{first, Agrees, Searched};

// The first index below `count` that passes.
pub fn first_of<F: Fn(usize) -> bool>(count: usize, passes: F) -> Option<usize>
    requires { (i : ℕ) → i < count → F.pre passes i }
    ensures within { IfSome result (λ i. i < count) }
    ensures value { (test : ℕ → Bool) → Agrees (F.post passes) count test → result ≡ first test count }
    ensures says { (test : ℕ → Bool) → Agrees (F.post passes) count test → Searched test count result }
{
    // No `(0..count).find(..)`: it was tried, and the proof that `passes` may be called there did not close.
    for i in 0..count {
        if passes(i) {
            return Some(i);
        }
    }
    None
}
