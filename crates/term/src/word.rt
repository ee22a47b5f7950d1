// What a word means.
ghost use Rattle.std.specs.Prelude.{◌≡◌};
ghost use Rattle.calculus.specs.Meaning.{binds, meaning};
ghost use Rattle.term.specs.Word.{arity, meaning_of, second, shape_of};

// Not in the order of the words throughout: as long as a meaning is the word itself, the compiler decides by a table of jumps,
// and a jump to an unknown place costs more than a few comparisons (docs/SHAPES.md).
#[derive(Clone, Copy, Debug, PartialEq, Eq)]
pub enum Meaning {
    Star,
    CastDown,
    Application,
    CastUp,
    Abstraction,
    Recursion,
    Product,
    Variable(u16),
    Nothing,
    Name(u16),
}

// The one decision over a word.
pub fn classify(word: u16) -> Meaning
    ensures { meaning_of result ≡ meaning word }
{
    match word {
        0 => Meaning::Star,
        1 => Meaning::CastDown,
        2 => Meaning::Application,
        3 => Meaning::CastUp,
        4 => Meaning::Abstraction,
        5 => Meaning::Product,
        6 => Meaning::Recursion,
        7..=15 => Meaning::Nothing,
        16..=2047 => Meaning::Variable(word - 16),
        2048..=2079 => Meaning::Name(word - 2048),
        _ => Meaning::Nothing,
    }
}

// How many parts follow a word: of words 0–6 the smaller of the word and 2 (document 02, 2.4), of the others none. In this order of
// the tests the compiler makes no branch of them, as it does of the smaller number behind a test for 7 (docs/SHAPES.md).
pub(crate) fn parts(word: u16) -> usize
    ensures { result ≡ arity word }
{
    if word < 2 {
        return usize::from(word);
    }
    if word < 7 { 2 } else { 0 }
}

// What follows a word: the number of its parts, and how many variables it binds in the second of two.
#[derive(Clone, Copy, Debug, PartialEq, Eq)]
pub struct Shape {
    pub parts: usize,
    pub bound: u16,
}

// How many variables a word binds in its second part; none where it has no second part.
pub(crate) fn bound(word: u16) -> u16
    ensures { result ≡ second (binds (meaning word)) }
{
    match classify(word) {
        Meaning::Abstraction | Meaning::Product | Meaning::Recursion => 1,
        _ => 0,
    }
}

// The shape of a word, from the number of its parts and from what the word means: the two functions that this asks, and nothing
// else, tell which parts a word has.
pub fn shape_of(word: u16) -> Shape
    ensures { shape_of result ≡ binds (meaning word) }
{
    Shape {
        parts: parts(word),
        bound: bound(word),
    }
}
