// Terms in words (document 01, Words): what a word means, the walk over a subterm, reading, and the part lookup.
#![tactic(auto)]

ghost use Rattle.std.specs.Prelude.{◌≡◌};
ghost use Rattle.calculus.specs.Outcomes.{found, part};
ghost use Rattle.term.specs.Found.{found_of, words_behind};

pub mod reading;
pub mod refusal;
pub mod walk;
pub mod word;

use crate::reading::read;
use crate::walk::span;
use crate::word::parts;

// Where a part stands in the caller's words: 0, 0 where there is none. No Option, since the calculus answers the same two numbers for
// none, and the theorem found_of_injective names this struct.
#[derive(Clone, Copy, Debug, PartialEq, Eq)]
pub struct Found {
    pub start: usize,
    pub length: usize,
}

// The first or second part of the term that `term` is.
pub fn find(term: &[u16], number: u32) -> Found
    ensures { found_of result ≡ found term.now number }
{
    let absent = Found {
        start: 0,
        length: 0,
    };
    if read(term).is_err() {
        return absent;
    }
    let count = parts(term[0]);
    if number == 1 && 1 <= count {
        return Found {
            start: 1,
            length: span(&term[1..]),
        };
    }
    if number == 2 && 2 <= count {
        let second = 1 + span(&term[1..]);
        return Found {
            start: second,
            length: span(&term[second..]),
        };
    }
    absent
}

// The part lookup: that part of the caller's own words, empty where there is none.
pub fn part(term: &[u16], number: u32) -> &[u16]
    ensures { (result.now ≡ part term.now number)
        × (result.ref_ptr ≡ words_behind term.entry.ref_ptr (found term.now number).start) }
{
    let found = find(term, number);
    let start = found.start;
    let end = start + found.length;
    &term[start..end]
}
