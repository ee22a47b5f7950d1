// A book of definitions in a lent slice (document 02, 2.3): the parts of the slice in which a definition is stored.
#![tactic(auto)]

ghost use Rattle.std.specs.Prelude.{◌≡◌, ◌+◌, ◌*◌, ◌<◌, ◌≤◌, length, slice_index};
ghost use Rattle.calculus.specs.Book.{Definition};
ghost use Rattle.calculus.specs.Term.{Term};
ghost use Rattle.calculus.specs.Words.{words};
ghost use Rattle.book.specs.Layout.{Defines, Stored, shows};

// Who reads a book: a run, to whom all bodies are open, or the check of an owner.
#[derive(Clone, Copy, Debug, PartialEq, Eq)]
pub enum Reader {
    Everybody,
    Owner(u16),
}

// A term of a definition: as many words as the word `LENGTH` of its entry says, from the word `FIRST` of its room on.
fn stored<const LENGTH: usize, const FIRST: usize>(book: &[u16], number: usize) -> &[u16]
    requires { (LENGTH < FIRST) × (FIRST + 2048 * number + slice_index book.now (LENGTH + 4 * number) ≤ length book.now) }
    ensures { (t : Term)
        → Stored t number (FIRST + 2048 * number) (slice_index book.now (LENGTH + 4 * number)) book.now
        → result.now ≡ words t }
{
    let from = FIRST + 2048 * number;
    let to = from + usize::from(book[LENGTH + 4 * number]);
    &book[from..to]
}

// The body of a definition. That one stands in the slice is asked by each function, and is no invariant of a type: the fact chooses the
// definition, which a ghost field cannot.
pub fn body(book: &[u16], number: usize) -> &[u16]
    requires { (d : Definition) × Defines d number book.now }
    ensures { (d : Definition) → Defines d number book.now → result.now ≡ words d.body }
{
    stored::<3, 464>(book, number)
}

// The stored type of a definition.
pub fn stored_type(book: &[u16], number: usize) -> &[u16]
    requires { (d : Definition) × Defines d number book.now }
    ensures { (d : Definition) → Defines d number book.now → result.now ≡ words d.type }
{
    stored::<4, 1488>(book, number)
}

// Whether a reader sees the body of a definition: "a closed body of another owner does not step there".
pub fn shown(book: &[u16], number: usize, reader: Reader) -> bool
    requires { (d : Definition) × Defines d number book.now }
    ensures { (d : Definition) → Defines d number book.now → result ≡ shows reader d }
{
    match reader {
        Reader::Everybody => true,
        Reader::Owner(owner) => book[2 + 4 * number] == 0 || book[1 + 4 * number] == owner,
    }
}
