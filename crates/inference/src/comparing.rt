// Comparison of types: of words, never of reduced types.
ghost use Rattle.std.specs.Prelude.{true, ◌↔◌, ◌≡◌};

// Whether both are the same words. No early end, so that many words are compared at once: of a few words the slices' own `==` takes
// twice as long.
pub(crate) fn same(first: &[u16], second: &[u16]) -> bool
    ensures { (result ≡ true) ↔ (first.now ≡ second.now) }
{
    first.len() == second.len()
        && first
            .iter()
            .zip(second)
            .fold(true, |alike, (a, b)| alike & (a == b))
}
