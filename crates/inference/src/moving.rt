// Types moved within the working slice: what is read and what is written cannot lie in one slice, so that a type is copied into `held`
// first; and a part of the caller's own words is noted there, so that all that is moved is kept. Each function asks that the slice has
// room for a type within the limit at the node `top`: a struct of both would hold the caller's reference, and each contract would have to
// say that it holds the same one afterwards.
ghost use Rattle.std.specs.Prelude.{false, ◌≡◌, ◌+◌, ◌*◌, ◌≤◌, drop, length, take};
ghost use Rattle.calculus.specs.Term.{Term, pi, size};
ghost use Rattle.calculus.specs.Words.{Named, Worded, longest, words};
ghost use Rattle.book.specs.Layout.{Holds, entries, decode};
ghost use Rattle.term.specs.Kept.{Lies, kept};
ghost use Rattle.inference.specs.Moving.{Applies, Coded, CodesWithin, Codomain, HeldPair, HeldWithin, Product, Puts, StepsInto, StepsType};

use crate::Check;
use crate::comparing::same;
use kept::copying::copy;
use kept::keeping::{length_at, note};
use kept::rewriting::substitute;
use reduction::stepping::{Halt, Stepped, step};
use term::refusal::Reason;

// The codomain that `held` begins with, with the argument put in that is kept there from node 1,024 on and has `count` nodes, written
// at `top` within the limit.
fn put_held(
    held: &[u16; 4096],
    count: usize,
    closed: bool,
    work: &mut [u16],
    top: usize,
    limit: usize,
) -> Result<usize, Reason>
    requires { (2 * (top + limit) ≤ length work.old) × (limit ≤ longest) × HeldPair held.now count closed }
    ensures { (b u : Term) → Lies b held.now 0 → Worded b → Lies u held.now longest → Worded u → Puts b u work.old top limit result work.new }
{
    let to = 1024 + count;
    let end = top + limit;
    let reached = substitute(
        held,
        0,
        &held[2048..2 * to],
        closed,
        &mut work[..2 * end],
        top,
    )
    .ok_or(Reason::OverLimit)?;
    Ok(reached - top)
}

// The codomain, kept from the node `codomain` up to `next`, with the argument put in, written at `top` within the limit.
fn put_in(
    argument: &[u16],
    closed: bool,
    work: &mut [u16],
    top: usize,
    codomain: usize,
    next: usize,
    limit: usize,
    held: &mut [u16; 4096],
) -> Result<usize, Reason>
    requires { (2 * (top + limit) ≤ length work.old) × (limit ≤ longest) × Codomain work.old codomain next × Coded argument.now closed }
    ensures { (b u : Term) → take (2 * size b) (drop (2 * codomain) work.old) ≡ kept b → Worded b → next ≡ codomain + size b → argument.now ≡ words u → Worded u → Puts b u work.old top limit result work.new }
{
    copy(&work[2 * codomain..2 * next], held, 0);
    note(argument, held, 1024);
    put_held(held, argument.len(), closed, work, top, limit)
}

// The product at `top`, `count` nodes long, applied to the argument, whose type lies behind it and is `own` nodes long: the codomain
// with the argument put in, written at `top` within the limit.
pub(crate) fn apply(
    argument: &[u16],
    closed: bool,
    work: &mut [u16],
    top: usize,
    count: usize,
    own: usize,
    limit: usize,
    held: &mut [u16; 4096],
) -> Result<usize, Reason>
    requires { (2 * (top + limit) ≤ length work.old) × (limit ≤ longest) × (2 * (top + count + own) ≤ length work.old) × Product (take (2 * count) (drop (2 * top) work.old)) × Coded argument.now closed }
    ensures { (a b u σ : Term) → take (2 * count) (drop (2 * top) work.old) ≡ kept (pi a b) → Worded (pi a b) → argument.now ≡ words u → Worded u → take (2 * own) (drop (2 * (top + count)) work.old) ≡ kept σ → Worded σ → Applies a b u σ work.old top limit result work.new }
{
    let domain = top + 1;
    let codomain = domain + length_at(work, domain);
    let next = top + count;
    let end = next + own;
    if !same(&work[2 * domain..2 * codomain], &work[2 * next..2 * end]) {
        return Err(Reason::WrongArgument);
    }
    put_in(argument, closed, work, top, codomain, next, limit, held)
}

// The next state of a kept one, written at `top` within the limit.
fn step_held(
    check: &Check,
    state: &[u16],
    closed: bool,
    work: &mut [u16],
    top: usize,
) -> Result<Stepped, Halt>
    requires { (2 * (top + check.now.limit) ≤ length work.old) × (check.now.limit ≤ longest) × Holds (decode check.now.book.now) check.now.book.now × HeldWithin check.now.book.now state.now closed }
    ensures { (b : Term) → state.now ≡ kept b → Worded b → Named (entries check.now.book.now) b → StepsType check.now.reader check.now.book.now b work.old top check.now.limit result work.new }
{
    let end = top + check.limit;
    step(
        state,
        closed,
        &mut work[2 * top..2 * end],
        check.book,
        check.reader,
    )
}

// The next state of a part of the caller's own words, written at `top` within the limit.
pub(crate) fn step_into(
    check: &Check,
    state: &[u16],
    closed: bool,
    work: &mut [u16],
    top: usize,
    held: &mut [u16; 4096],
) -> Result<Stepped, Halt>
    requires { (2 * (top + check.now.limit) ≤ length work.old) × (check.now.limit ≤ longest) × Holds (decode check.now.book.now) check.now.book.now × CodesWithin check.now.book.now state.now closed }
    ensures { (b : Term) → state.now ≡ words b → Worded b → Named (entries check.now.book.now) b → StepsInto check.now.reader check.now.book.now b work.old top check.now.limit result work.new }
{
    note(state, held, 0);
    let nodes = state.len();
    step_held(check, &held[..2 * nodes], closed, work, top)
}

// The type at `top`, `count` nodes long, moved by one step within the limit.
pub(crate) fn step_type(
    check: &Check,
    closed: bool,
    work: &mut [u16],
    top: usize,
    count: usize,
    held: &mut [u16; 4096],
) -> Result<Stepped, Halt>
    requires { (2 * (top + check.now.limit) ≤ length work.old) × (check.now.limit ≤ longest) × (2 * (top + count) ≤ length work.old) × Holds (decode check.now.book.now) check.now.book.now × HeldWithin check.now.book.now (take (2 * count) (drop (2 * top) work.old)) closed }
    ensures { (b : Term) → take (2 * count) (drop (2 * top) work.old) ≡ kept b → Worded b → Named (entries check.now.book.now) b → StepsType check.now.reader check.now.book.now b work.old top check.now.limit result work.new }
{
    let end = top + count;
    copy(&work[2 * top..2 * end], held, 0);
    step_held(check, &held[..2 * count], closed, work, top)
}
