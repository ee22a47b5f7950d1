// Clearing the front of a working slice, in blocks of 512 words: a block that is clear already is only read.
ghost use Rattle.std.specs.Prelude.{true, ◌↔◌, ◌≡◌, ◌*◌, ◌≤◌, length, replicate};
ghost use Rattle.calculus.specs.Outcomes.{cleared};

// Whether every word is 0. No early end, so that many words are tested at once.
fn is_clear(words: &[u16]) -> bool
    ensures { (result ≡ true) ↔ (words.now ≡ replicate (length words.now) 0) }
{
    words.iter().fold(true, |clear, word| clear & (*word == 0))
}

// Makes the words of the first `blocks` blocks 0.
pub fn clear(work: &mut [u16], blocks: usize)
    requires { 512 * blocks ≤ length work.old }
    ensures { work.new ≡ cleared (512 * blocks) work.old }
{
    for block in 0..blocks {
        let part = &mut work[512 * block..512 * (block + 1)];
        if !is_clear(part) {
            part.fill(0);
        }
    }
}
