// A term in plain words and the same term kept in working memory: two words a node, the node's word and the length of its subterm.
ghost use Rattle.std.specs.Prelude.{◌≡◌, ◌+◌, ◌*◌, ◌≤◌, ◌<◌, length};
ghost use Rattle.std.proofs.lemmas.List.Edits.{sets};
ghost use Rattle.calculus.specs.Term.{Term, size};
ghost use Rattle.calculus.specs.Words.{words, longest};
ghost use Rattle.calculus.specs.Outcomes.{begun};
ghost use Rattle.term.specs.Kept.{Lies, kept, length_at};

use term::word::shape_of;

// A place or a length as a word. A cast alone does not say that nothing of it is lost.
pub fn narrow(count: usize) -> u16
    requires { count ≤ 2048 }
    ensures { result ≡ count }
{
    count as u16
}

// The length that is kept at a node.
pub fn length_at(slice: &[u16], node: usize) -> usize
    requires { 2 * node + 1 < length slice.now }
    ensures value { result ≡ length_at slice.now node }
    ensures value_2 { (t : Term) → Lies t slice.now node → result ≡ size t }
{
    usize::from(slice[2 * node + 1])
}

// Keeps a plain term from the node `at` on. From its end, so that the lengths of a node's parts are at hand: this is the one walk over
// the caller's own words that writes.
pub fn note(plain: &[u16], out: &mut [u16], at: usize)
    requires { (2 * (at + length plain.now) ≤ length out.old) × (length plain.now ≤ longest) × ((t : Term) × (plain.now ≡ words t)) }
    ensures { (t : Term) → plain.now ≡ words t → out.new ≡ sets out.old (2 * at) (kept t) }
{
    let end = at + plain.len();
    for node in (at..end).rev() {
        let word = plain[node - at];
        let shape = shape_of(word);
        let count = shape.parts;
        let mut length = 1;
        if 0 < count {
            length += noted(out, node + 1, end);
        }
        if 1 < count {
            length += noted(out, node + length, end);
        }
        out[2 * node] = word;
        out[2 * node + 1] = narrow(length);
    }
}

// The length noted at a node, 0 from `end` on.
fn noted(out: &[u16], node: usize, end: usize) -> usize
    requires { 2 * end ≤ length out.now }
    ensures { (node < end → result ≡ length_at out.now node) × (end ≤ node → result ≡ 0) }
{
    if node < end { length_at(out, node) } else { 0 }
}

// Writes the plain words of a kept term to the front of `out`.
pub fn spell(slice: &[u16], out: &mut [u16])
    requires { (t : Term) × (slice.now ≡ kept t) × (size t ≤ length out.old) }
    ensures { (t : Term) → slice.now ≡ kept t → out.new ≡ begun (words t) out.old }
{
    for i in 0..slice.len() / 2 {
        out[i] = slice[2 * i];
    }
}
