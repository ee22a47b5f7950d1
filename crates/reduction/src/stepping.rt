// One step (document 002, A.2): where the redex is and by which rule, and writing the next state. What is read, what is written and the
// node of the redex go through the rules side by side, with the room that may be written: as a struct they would be the caller's
// references, and each contract would have to say that they are the same ones afterwards.
ghost use Rattle.std.specs.Prelude.{List, ◌≡◌, ℕ, ◌+◌, ◌*◌, ◌≤◌, length, take};
ghost use Rattle.std.proofs.lemmas.List.Edits.{sets};
ghost use Rattle.calculus.specs.Term.{Term, size};
ghost use Rattle.calculus.specs.Words.{longest};
ghost use Rattle.calculus.specs.Book.{Book};
ghost use Rattle.calculus.specs.Step.{step};
ghost use Rattle.book.specs.Layout.{Holds, sight};
ghost use Rattle.term.specs.Kept.{kept};
ghost use Rattle.reduction.specs.Stepping.{Around, Arrives, Held, HeldWithin, Keeps, Located, Movable, PutIn, Steps, Tells, TellsOver, Within, halt_of, heads, locate, moved};
ghost use Rattle.kept.specs.Writing.{Puts};

use book::{Reader, body, shown};
use kept::copying::copy;
use kept::keeping::{length_at, narrow, note};
use kept::rewriting::{copy_nodes, substitute};
use term::word::{Meaning, classify};

// Where a state steps and by which rule: the node of the application, of the down cast, of the recursion or of the name.
#[derive(Clone, Copy, Debug, PartialEq, Eq)]
pub enum Redex {
    Beta(usize),
    Cancel(usize),
    Unfold(usize),
    Name(usize),
}

// Why a state has no redex.
#[derive(Clone, Copy, Debug, PartialEq, Eq)]
pub enum Rest {
    Value,
    Stuck,
}

// The kinds of steps, by their rule: S_BETA, S_MU and the step of a name, S_CASTDOWNUP.
#[derive(Clone, Copy, Debug, PartialEq, Eq)]
pub enum Kind {
    Substitution,
    Unfolding,
    Cancellation,
}

// A step that was taken: its kind, and the length of the next state.
#[derive(Clone, Copy, Debug, PartialEq, Eq)]
pub struct Stepped {
    pub kind: Kind,
    pub length: usize,
}

// Why none was: the state is at rest, or the next one does not fit.
#[derive(Clone, Copy, Debug, PartialEq, Eq)]
pub enum Halt {
    Value,
    Stuck,
    Full,
}

impl From<Rest> for Halt {
    ghost from_gives = { λ rest halt. halt ≡ halt_of rest };

    fn from(rest: Rest) -> Halt {
        match rest {
            Rest::Value => Halt::Value,
            Rest::Stuck => Halt::Stuck,
        }
    }
}

// How many down casts and applications `state` begins with: the nodes whose first part may step.
fn leading(state: &[u16]) -> usize
    ensures { result ≡ heads state.now }
{
    let count = state.len() / 2;
    // Not `take_while` over the nodes: what its closure answers did not reach the count in the proof.
    for at in 0..count {
        match classify(state[2 * at]) {
            Meaning::CastDown | Meaning::Application => {}
            _ => return at,
        }
    }
    count
}

// The redex of a state: the half of a step that writes nothing. In place, as what it answers need not be written down then.
#[inline]
#[tactic(auto, using(crate::proofs::Deciding::heads_within))]
pub fn find_redex(state: &[u16], book: &[u16], reader: Reader) -> Result<Redex, Rest>
    requires { Held book.now state.now }
    ensures { (B : Book) (t : Term) → Holds B book.now → Keeps B t state.now → result ≡ locate (sight reader B) t }
{
    let at = leading(state);
    // Several arms with one answer, as a proof knows the variants of an arm and not those that a guard above it took.
    match classify(state[2 * at]) {
        Meaning::Recursion => Ok(Redex::Unfold(at)),
        Meaning::Name(number) if shown(book, usize::from(number), reader) => Ok(Redex::Name(at)),
        Meaning::Star | Meaning::Product if at == 0 => Err(Rest::Value),
        Meaning::Abstraction | Meaning::CastUp if at == 0 => Err(Rest::Value),
        Meaning::Abstraction => match classify(state[2 * (at - 1)]) {
            Meaning::Application => Ok(Redex::Beta(at - 1)),
            _ => Err(Rest::Stuck),
        },
        Meaning::CastUp => match classify(state[2 * (at - 1)]) {
            Meaning::CastDown => Ok(Redex::Cancel(at - 1)),
            _ => Err(Rest::Stuck),
        },
        Meaning::Name(_) | Meaning::Star | Meaning::Product => Err(Rest::Stuck),
        Meaning::Variable(_) | Meaning::Nothing => Err(Rest::Stuck),
        Meaning::CastDown | Meaning::Application => Err(Rest::Stuck),
    }
}

// Writes the nodes before `at` with their lengths moved: what stood in them up to the node `old` ends at `end` now.
fn lead(state: &[u16], at: usize, old: usize, end: usize, out: &mut [u16])
    requires { (2 * at ≤ length state.now) × (2 * at ≤ length out.old) × (old ≤ longest) × (end ≤ longest) × Movable old end (take (2 * at) state.now) }
    ensures { out.new ≡ sets out.old 0 (moved old end (take (2 * at) state.now)) }
{
    for node in 0..at {
        out[2 * node] = state[2 * node];
        out[2 * node + 1] = state[2 * node + 1] + narrow(end) - narrow(old);
    }
}

// Writes what stands around the redex at `at`, where what it steps to was written up to the node `end`, if it fits.
fn surround(
    kind: Kind,
    state: &[u16],
    at: usize,
    end: usize,
    out: &mut [u16],
) -> Result<Stepped, Halt>
    requires { (t : Term) × (s : Term) × (x : Term) × (y : Term) × (first : List ℕ) × Around t at s x y × (state.now ≡ kept t) × (size t ≤ longest) × (length first ≤ 2 * longest) × Puts (kept x) first at (Some end) out.old }
    ensures { (t s x y : Term) (first : List ℕ) → Around t at s x y → state.now ≡ kept t → Puts (kept x) first at (Some end) out.old → Arrives kind y first result out.new }
{
    let old = at + length_at(state, at);
    let last = copy(&state[2 * old..], out, 2 * end).ok_or(Halt::Full)?;
    lead(state, at, old, end, out);
    Ok(Stepped {
        kind,
        length: last / 2,
    })
}

// A step at the redex at `at` that puts a part of it in for a variable: that from the node `argument` to its end, in the body at `body`.
// In place, as a step of a short state is little more than its calls.
#[inline(always)]
fn put_in(
    kind: Kind,
    state: &[u16],
    at: usize,
    body: usize,
    argument: usize,
    closed: bool,
    out: &mut [u16],
) -> Result<Stepped, Halt>
    requires { Within state.now closed × ((y : Term) × PutIn state.now at body argument y) × (length out.old ≤ 2 * longest) }
    ensures { (y : Term) → PutIn state.now at body argument y → Arrives kind y out.old result out.new }
{
    if out.len() < 2 * at {
        return Err(Halt::Full);
    }
    let behind = at + length_at(state, at);
    let end = substitute(
        state,
        body,
        &state[2 * argument..2 * behind],
        closed,
        out,
        at,
    )
    .ok_or(Halt::Full)?;
    surround(kind, state, at, end, out)
}

// S_BETA at the application at `at`.
fn beta(state: &[u16], at: usize, closed: bool, out: &mut [u16]) -> Result<Stepped, Halt>
    requires { Within state.now closed × Located state.now (Redex.Beta at) × (length out.old ≤ 2 * longest) }
    ensures { Tells state.now out.old result out.new }
{
    let annotation = at + 2;
    let body = annotation + length_at(state, annotation);
    let argument = body + length_at(state, body);
    put_in(Kind::Substitution, state, at, body, argument, closed, out)
}

// S_MU at the recursion at `at`.
fn unfold(state: &[u16], at: usize, closed: bool, out: &mut [u16]) -> Result<Stepped, Halt>
    requires { Within state.now closed × Located state.now (Redex.Unfold at) × (length out.old ≤ 2 * longest) }
    ensures { Tells state.now out.old result out.new }
{
    let annotation = at + 1;
    let body = annotation + length_at(state, annotation);
    put_in(Kind::Unfolding, state, at, body, at, closed, out)
}

// S_CASTDOWNUP at the down cast at `at`.
fn cancel(state: &[u16], at: usize, out: &mut [u16]) -> Result<Stepped, Halt>
    requires { Located state.now (Redex.Cancel at) × (length out.old ≤ 2 * longest) }
    ensures { Tells state.now out.old result out.new }
{
    if out.len() < 2 * at {
        return Err(Halt::Full);
    }
    let annotation = at + 2;
    let body = annotation + length_at(state, annotation);
    let behind = at + length_at(state, at);
    let end = copy_nodes(&state[2 * body..2 * behind], out, at).ok_or(Halt::Full)?;
    surround(Kind::Cancellation, state, at, end, out)
}

// The step of the name at `at`: its body stands for it, as it is stored.
fn unfold_name(state: &[u16], at: usize, out: &mut [u16], book: &[u16]) -> Result<Stepped, Halt>
    requires { Held book.now state.now × Located state.now (Redex.Name at) × (length out.old ≤ 2 * longest) }
    ensures { (who : Reader) (B : Book) (t : Term) → Holds B book.now → Keeps B t state.now → locate (sight who B) t ≡ Ok (Redex.Name at) → Steps (step (sight who B) t) out.old result out.new }
{
    let Meaning::Name(number) = classify(state[2 * at]) else {
        unreachable!()
    };
    let words = body(book, usize::from(number));
    let body_end = at + words.len();
    if out.len() < 2 * body_end {
        return Err(Halt::Full);
    }
    note(words, out, at);
    surround(Kind::Unfolding, state, at, body_end, out)
}

// The next state of `state`, written to the front of `out`; `closed` where the state is a closed term. What a name stands for is looked
// up in the book, as its reader sees it.
pub fn step(
    state: &[u16],
    closed: bool,
    out: &mut [u16],
    book: &[u16],
    reader: Reader,
) -> Result<Stepped, Halt>
    requires { HeldWithin book.now state.now closed × (length out.old ≤ 2 * longest) }
    ensures { TellsOver reader book.now state.now out.old result out.new }
{
    match find_redex(state, book, reader)? {
        Redex::Beta(at) => beta(state, at, closed, out),
        Redex::Unfold(at) => unfold(state, at, closed, out),
        Redex::Cancel(at) => cancel(state, at, out),
        Redex::Name(at) => unfold_name(state, at, out, book),
    }
}
