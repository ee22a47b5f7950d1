// Reading a whole list of words (document 01, Words and Calls), left to right and each word once.
ghost use Rattle.std.specs.Prelude.{◌≡◌, ℕ, ◌≤◌, [], ◌∷◌, leb};
ghost use Rattle.calculus.specs.Words.{deepest};
ghost use Rattle.calculus.specs.Meaning.{meaning};
ghost use Rattle.calculus.specs.Scan.{read, test};
ghost use Rattle.term.specs.Reasons.{answer_of};
ghost use Rattle.term.specs.Subterms.{inside, outcome, pending, skim, visit_of};

use crate::refusal::{Reason, Refusal};
use crate::word::{Meaning, bound, classify, parts};

// How many binders a word needs around it: a variable one more than its index, and a word that means nothing, or a name, which no call
// reads, more than there ever are. Of the sum on 16 bits the compiler makes no branch, as it does of one on 64 (docs/SHAPES.md).
fn needed(word: u16) -> u16
    ensures { (b : ℕ) → b ≤ deepest → leb result b ≡ inside (meaning word) b }
{
    match classify(word) {
        Meaning::Variable(index) => index + 1,
        Meaning::Nothing | Meaning::Name(_) => 65,
        _ => 0,
    }
}

// The tests of one word. Whether it passes them all is asked first, by tests that go the same way for almost every word; only where
// it does not they are gone through, "in the order 5, 8, 9".
fn tested(word: u16, room: usize, binders: usize) -> Result<(), Reason>
    requires { binders ≤ deepest }
    ensures { (p : ℕ) → visit_of result p ≡ test (meaning word) (pending room binders) p }
{
    if 0 < room && usize::from(needed(word)) <= binders {
        return Ok(());
    }
    if matches!(classify(word), Meaning::Nothing | Meaning::Name(_)) {
        return Err(Reason::NoMeaning);
    }
    if room == 0 {
        return Err(Reason::Level65);
    }
    Err(Reason::Unbound)
}

// Reads the closed term that the words begin with, and answers the place behind it. `rooms` and `scopes` hold the levels left for each
// pending subterm and the binders around it, the one that comes next last. Every word stores what holds in two parts, the first behind
// the second, whether it has them or not, and its number of parts says how many of these entries count: so no branch depends on what
// the word is, which the processor cannot foresee. Two arrays, not one of pairs, which would be made and taken apart at every word.
fn read_first(words: &[u16]) -> Result<usize, Refusal>
    ensures { answer_of result ≡ skim words.now (pending deepest 0 ∷ []) 0 }
{
    let mut rooms = [0u8; 65];
    let mut scopes = [0u8; 65];
    let mut waiting = 0;
    let mut room = 64;
    let mut binders = 0;
    for (place, word) in words.iter().enumerate() {
        if let Err(reason) = tested(*word, room, binders) {
            return Err(Refusal { reason, place });
        }
        let left = (room - 1) as u8;
        let first = waiting + 1;
        rooms[waiting] = left;
        rooms[first] = left;
        scopes[waiting] = (binders + usize::from(bound(*word))) as u8;
        scopes[first] = binders as u8;
        waiting += parts(*word);
        if waiting == 0 {
            return Ok(place + 1);
        }
        waiting -= 1;
        room = usize::from(rooms[waiting]);
        binders = usize::from(scopes[waiting]);
    }
    Err(Refusal {
        reason: Reason::ListEnds,
        place: words.len(),
    })
}

// The whole list: refusals 4–9 in document 01's order.
pub fn read(words: &[u16]) -> Result<(), Refusal>
    ensures { answer_of result ≡ outcome (read words.now) }
{
    let length = words.len();
    if length == 0 || 1024 < length {
        return Err(Refusal {
            reason: Reason::LengthNotAllowed,
            place: 0,
        });
    }
    let end = read_first(words)?;
    if end < length {
        return Err(Refusal {
            reason: Reason::WordsAfter,
            place: end,
        });
    }
    Ok(())
}
