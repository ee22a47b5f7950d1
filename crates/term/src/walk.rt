// The walk over a subterm of prefix words.
ghost use Rattle.std.specs.Prelude.{◌≡◌, ◌≤◌, length};
ghost use Rattle.term.specs.Walk.{span};

use crate::word::parts;

// The length of the subterm that `words` begins with, in one pass; of all the words where it does not end in them.
pub fn span(words: &[u16]) -> usize
    ensures { (result ≡ span words.now 1) × (result ≤ length words.now) }
{
    let mut left: usize = 1;
    for (at, word) in words.iter().enumerate() {
        left = left + parts(*word) - 1;
        if left == 0 {
            return at + 1;
        }
    }
    words.len()
}
