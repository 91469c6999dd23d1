// The least of some numbers.
ghost use Rattle.std.specs.Prelude.{◌≡◌, ◌<◌, ℕ};
ghost use Rattle.event_chain.specs.Coloured.{least_of};

use constraint::NO_LIMIT;

// The least of n numbers, or the mark.
#[inline]
pub(crate) fn least_by<F: Fn(usize) -> u64>(n: usize, f: F) -> u64
    requires { (i : ℕ) → i < n → F.pre f i }
    ensures { (h : ℕ → ℕ) → ((i r : ℕ) → i < n → F.post f i r → r ≡ h i) → result ≡ least_of h n }
{
    let mut least = NO_LIMIT;
    for i in 0..n {
        least = least.min(f(i));
    }
    least
}
