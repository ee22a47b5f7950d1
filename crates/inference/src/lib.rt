// The type of a subterm, in document 01's order ("Typing, in checking order") and under its names. The type found is kept in the
// working slice from the node `top` on; what lies before stays. The slice and the node go down side by side, for the reason told in
// `moving`.
#![tactic(auto)]

ghost use Rattle.std.specs.Prelude.{Err, ◌≡◌, ◌+◌, ◌*◌, ◌≤◌, length};
ghost use Rattle.calculus.specs.Term.{Term, app, castdown, castup, lam, mu, pi};
ghost use Rattle.calculus.specs.Words.{longest};
ghost use Rattle.calculus.specs.Book.{Definition};
ghost use Rattle.book.specs.Layout.{Defines};
ghost use Rattle.inference.specs.Inference.{Annotation, Asks, Asks₂, Raises, Stores, Tells, Tells₂, judge, star_typed};

use crate::comparing::same;
use crate::moving::{apply, step_into, step_type};
use book::{Reader, stored_type};
use kept::keeping::{narrow, note};
use kept::rewriting::raise;
use reduction::stepping::Halt;
use term::refusal::{Reason, Refusal};
use term::walk::span;
use term::word::{Meaning, classify};

mod comparing;
mod moving;

// What a check asks: the whole term, the limit of its types, and the book as its reader sees it.
#[derive(Clone, Copy)]
pub struct Check<'a> {
    pub term: &'a [u16],
    pub limit: usize,
    pub book: &'a [u16],
    pub reader: Reader,
}

// What a check writes besides the working slice: the places of the annotations around the subterm, outermost first; and room for two
// kept terms, for the moment in which a type is moved: of what it holds afterwards nothing is said.
#[derive(Drop)]
pub struct Memory {
    pub context: [u16; 64],
    pub held: [u16; 4096],
}

// The length of a subterm that has a type, and of that type.
#[derive(Clone, Copy, Debug, PartialEq, Eq)]
pub struct Typed {
    pub read: usize,
    pub length: usize,
}

fn refused(reason: Reason, place: usize) -> Result<Typed, Refusal>
    ensures { result ≡ Err (record { reason = reason; place = place }) }
{
    Err(Refusal { reason, place })
}

// "Variable: its annotation, raised to the present context": the annotation stands at `from`, and its variable is `index`.
fn variable(
    check: &Check,
    place: usize,
    from: usize,
    index: u16,
    work: &mut [u16],
    top: usize,
) -> Result<Typed, Refusal>
    requires { ((a : Term) × Annotation a index check.now.term.now from) × (2 * (top + check.now.limit) ≤ length work.old) × (check.now.limit ≤ longest) }
    ensures { (a : Term) → Annotation a index check.now.term.now from → Raises a index place check.now.limit work.old top result work.new }
{
    let length = span(&check.term[from..]);
    if check.limit < length {
        return refused(Reason::OverLimit, place);
    }
    let to = from + length;
    note(&check.term[from..to], work, top);
    let end = top + length;
    raise(&mut work[2 * top..2 * end], index + 1);
    Ok(Typed { read: 1, length })
}

// "Such a word has the stored type, raised by nothing" (document 02, 2.3).
fn definition(
    check: &Check,
    number: u16,
    place: usize,
    work: &mut [u16],
    top: usize,
) -> Result<Typed, Refusal>
    requires { (2 * (top + check.now.limit) ≤ length work.old) × (check.now.limit ≤ longest) × ((d : Definition) × Defines d number check.now.book.now) }
    ensures { (d : Definition) → Defines d number check.now.book.now → Stores d.type place check.now.limit work.old top result work.new }
{
    let stored = stored_type(check.book, usize::from(number));
    if check.limit < stored.len() {
        return refused(Reason::OverLimit, place);
    }
    note(stored, work, top);
    Ok(Typed {
        read: 1,
        length: stored.len(),
    })
}

// "Application: function; its type is a product, else 11; argument; its type equals the domain, else 12; the codomain with the
// argument put in."
#[cycle(inferring)]
fn application(
    check: &Check,
    sub: &[u16],
    depth: usize,
    memory: &mut Memory,
    work: &mut [u16],
    top: usize,
) -> Result<Typed, Refusal>
    requires { Asks₂ app check.now.book.now check.now.term.now sub.now memory.old.context depth work.old top check.now.limit }
    ensures { Tells₂ app check.now.reader check.now.book.now check.now.term.now sub.now memory.old.context depth work.old top check.now.limit result work.new memory.new.context }
{
    let place = check.term.len() - sub.len();
    let function = infer(check, &sub[1..], depth, memory, work, top)?;
    let Meaning::Product = classify(work[2 * top]) else {
        return refused(Reason::NotProduct, place);
    };
    let from = 1 + function.read;
    let next = top + function.length;
    let argument = infer(check, &sub[from..], depth, memory, work, next)?;
    let to = from + argument.read;
    let length = apply(
        &sub[from..to],
        depth == 0,
        work,
        top,
        function.length,
        argument.length,
        check.limit,
        &mut memory.held,
    )
    .map_err(|reason| Refusal { reason, place })?;
    Ok(Typed { read: to, length })
}

// A part whose type has to be star, else 10.
#[cycle(inferring)]
fn star_part(
    check: &Check,
    sub: &[u16],
    depth: usize,
    memory: &mut Memory,
    work: &mut [u16],
    top: usize,
) -> Result<Typed, Refusal>
    requires { Asks (λ e. e) check.now.book.now check.now.term.now sub.now memory.old.context depth work.old top check.now.limit }
    ensures { Tells (star_typed check.now.reader check.now.book.now) (λ e. e) check.now.book.now check.now.term.now sub.now memory.old.context depth work.old top check.now.limit result work.new memory.new.context }
{
    let part = infer(check, sub, depth, memory, work, top)?;
    let Meaning::Star = classify(work[2 * top]) else {
        return refused(Reason::NotStar, check.term.len() - sub.len());
    };
    Ok(part)
}

// "Abstraction: annotation has type star, else 10; body; the product of both." The body's type is found where it will stand in the
// product, if the product can still fit.
#[cycle(inferring)]
fn abstraction(
    check: &Check,
    sub: &[u16],
    depth: usize,
    memory: &mut Memory,
    work: &mut [u16],
    top: usize,
) -> Result<Typed, Refusal>
    requires { Asks₂ lam check.now.book.now check.now.term.now sub.now memory.old.context depth work.old top check.now.limit }
    ensures { Tells₂ lam check.now.reader check.now.book.now check.now.term.now sub.now memory.old.context depth work.old top check.now.limit result work.new memory.new.context }
{
    let place = check.term.len() - sub.len();
    let annotation = star_part(check, &sub[1..], depth, memory, work, top)?;
    memory.context[depth] = narrow(place + 1);
    let front = 1 + annotation.read;
    let skip = if front <= check.limit { front } else { 0 };
    let body = infer(check, &sub[front..], depth + 1, memory, work, top + skip)?;
    if check.limit < front + body.length {
        return refused(Reason::OverLimit, place);
    }
    work[2 * top] = 5;
    work[2 * top + 1] = narrow(front + body.length);
    note(&sub[1..front], work, top + 1);
    Ok(Typed {
        read: front + body.read,
        length: front + body.length,
    })
}

// "Product: domain has type star, else 10; then codomain under it has type star, else 10; star."
#[cycle(inferring)]
fn product(
    check: &Check,
    sub: &[u16],
    depth: usize,
    memory: &mut Memory,
    work: &mut [u16],
    top: usize,
) -> Result<Typed, Refusal>
    requires { Asks₂ pi check.now.book.now check.now.term.now sub.now memory.old.context depth work.old top check.now.limit }
    ensures { Tells₂ pi check.now.reader check.now.book.now check.now.term.now sub.now memory.old.context depth work.old top check.now.limit result work.new memory.new.context }
{
    let place = check.term.len() - sub.len();
    let domain = star_part(check, &sub[1..], depth, memory, work, top)?;
    memory.context[depth] = narrow(place + 1);
    let front = 1 + domain.read;
    let codomain = star_part(check, &sub[front..], depth + 1, memory, work, top)?;
    Ok(Typed {
        read: front + codomain.read,
        length: 1,
    })
}

// "Up cast: annotation has type star, else 10; body; the annotation steps, else 13; the stepped annotation is measured; it equals
// the body's type, else 14; the annotation is the type."
#[cycle(inferring)]
fn cast_up(
    check: &Check,
    sub: &[u16],
    depth: usize,
    memory: &mut Memory,
    work: &mut [u16],
    top: usize,
) -> Result<Typed, Refusal>
    requires { Asks₂ castup check.now.book.now check.now.term.now sub.now memory.old.context depth work.old top check.now.limit }
    ensures { Tells₂ castup check.now.reader check.now.book.now check.now.term.now sub.now memory.old.context depth work.old top check.now.limit result work.new memory.new.context }
{
    let place = check.term.len() - sub.len();
    let annotation = star_part(check, &sub[1..], depth, memory, work, top)?;
    let front = 1 + annotation.read;
    let body = infer(check, &sub[front..], depth, memory, work, top)?;
    let next = top + body.length;
    let count = match step_into(
        check,
        &sub[1..front],
        depth == 0,
        work,
        next,
        &mut memory.held,
    ) {
        Ok(stepped) => stepped.length,
        // A match of its own, as a proof does not know which variant an arm of two has within `Err`.
        Err(halt) => match halt {
            Halt::Value | Halt::Stuck => return refused(Reason::NoStep, place),
            Halt::Full => return refused(Reason::OverLimit, place),
        },
    };
    let end = next + count;
    if !same(&work[2 * top..2 * next], &work[2 * next..2 * end]) {
        return refused(Reason::WrongCast, place);
    }
    if check.limit < annotation.read {
        return refused(Reason::OverLimit, place);
    }
    note(&sub[1..front], work, top);
    Ok(Typed {
        read: front + body.read,
        length: annotation.read,
    })
}

// "Down cast: body; its type steps, else 13; the stepped type."
#[cycle(inferring)]
fn cast_down(
    check: &Check,
    sub: &[u16],
    depth: usize,
    memory: &mut Memory,
    work: &mut [u16],
    top: usize,
) -> Result<Typed, Refusal>
    requires { Asks castdown check.now.book.now check.now.term.now sub.now memory.old.context depth work.old top check.now.limit }
    ensures { Tells (judge check.now.reader check.now.book.now) castdown check.now.book.now check.now.term.now sub.now memory.old.context depth work.old top check.now.limit result work.new memory.new.context }
{
    let place = check.term.len() - sub.len();
    let body = infer(check, &sub[1..], depth, memory, work, top)?;
    match step_type(check, depth == 0, work, top, body.length, &mut memory.held) {
        Ok(stepped) => Ok(Typed {
            read: 1 + body.read,
            length: stepped.length,
        }),
        Err(halt) => match halt {
            Halt::Value | Halt::Stuck => refused(Reason::NoStep, place),
            Halt::Full => refused(Reason::OverLimit, place),
        },
    }
}

// "Recursion: annotation has type star, else 10; body under it; its type equals the raised annotation, else 15; the annotation."
#[cycle(inferring)]
fn recursion(
    check: &Check,
    sub: &[u16],
    depth: usize,
    memory: &mut Memory,
    work: &mut [u16],
    top: usize,
) -> Result<Typed, Refusal>
    requires { Asks₂ mu check.now.book.now check.now.term.now sub.now memory.old.context depth work.old top check.now.limit }
    ensures { Tells₂ mu check.now.reader check.now.book.now check.now.term.now sub.now memory.old.context depth work.old top check.now.limit result work.new memory.new.context }
{
    let place = check.term.len() - sub.len();
    let annotation = star_part(check, &sub[1..], depth, memory, work, top)?;
    memory.context[depth] = narrow(place + 1);
    let front = 1 + annotation.read;
    let body = infer(check, &sub[front..], depth + 1, memory, work, top)?;
    if body.length != annotation.read {
        return refused(Reason::WrongRecursion, place);
    }
    let next = top + body.length;
    note(&sub[1..front], work, next);
    let end = next + body.length;
    raise(&mut work[2 * next..2 * end], 1);
    if !same(&work[2 * top..2 * next], &work[2 * next..2 * end]) {
        return refused(Reason::WrongRecursion, place);
    }
    note(&sub[1..front], work, top);
    Ok(Typed {
        read: front + body.read,
        length: annotation.read,
    })
}

// The type of the subterm that `sub`, the end of the term, begins with. There are `depth` annotations around it.
#[cycle(inferring)]
pub fn infer(
    check: &Check,
    sub: &[u16],
    depth: usize,
    memory: &mut Memory,
    work: &mut [u16],
    top: usize,
) -> Result<Typed, Refusal>
    requires { Asks (λ e. e) check.now.book.now check.now.term.now sub.now memory.old.context depth work.old top check.now.limit }
    ensures { Tells (judge check.now.reader check.now.book.now) (λ e. e) check.now.book.now check.now.term.now sub.now memory.old.context depth work.old top check.now.limit result work.new memory.new.context }
{
    let place = check.term.len() - sub.len();
    match classify(sub[0]) {
        Meaning::Star => {
            work[2 * top] = 0;
            work[2 * top + 1] = 1;
            Ok(Typed { read: 1, length: 1 })
        }
        Meaning::Variable(index) => {
            let binder = depth - 1 - usize::from(index);
            let from = usize::from(memory.context[binder]);
            variable(check, place, from, index, work, top)
        }
        Meaning::Application => application(check, sub, depth, memory, work, top),
        Meaning::Abstraction => abstraction(check, sub, depth, memory, work, top),
        Meaning::Product => product(check, sub, depth, memory, work, top),
        Meaning::CastUp => cast_up(check, sub, depth, memory, work, top),
        Meaning::CastDown => cast_down(check, sub, depth, memory, work, top),
        Meaning::Recursion => recursion(check, sub, depth, memory, work, top),
        Meaning::Name(number) => definition(check, number, place, work, top),
        Meaning::Nothing => refused(Reason::NoMeaning, place),
    }
}
