// Runs (document 01, Calls): a closed term stepped within a grant over a book, of which "runs unfold all" (document 02, 2.3), and the
// desk from which the steps are taken (document 02, 2.9).
#![tactic(auto)]

ghost use Rattle.std.specs.Prelude.{◌≡◌, ℕ, ◌+◌, ◌*◌, ◌≤◌, ◌<◌, not, List, [], length, take, drop};
ghost use Rattle.calculus.specs.Term.{Term};
ghost use Rattle.calculus.specs.Book.{Book, bodies};
ghost use Rattle.calculus.specs.Words.{Readable, words, longest};
ghost use Rattle.calculus.specs.Step as calculus;
ghost use Rattle.calculus.specs.Answer.{refused};
ghost use Rattle.calculus.specs.Kinds.{counting};
ghost use Rattle.calculus.specs.Run.{last_end, run_from};
ghost use Rattle.calculus.specs.Outcomes.{allowance_of, alone, grant, last_caller, lowered, run, run_room};
ghost use Rattle.calculus.specs.Safety.{SafeRun};
ghost use Rattle.term.specs.Reasons.{reason_of};
ghost use Rattle.book.specs.Layout as layout;
ghost use Rattle.reduction.specs.Stepping.{Held, Keeps, kind_of};
ghost use Rattle.evaluation.specs.Courses.{AddUp, Advances, Goes, Holds, Performs, buffer, ended};
ghost use Rattle.evaluation.specs.Ends.{end_of_halt};
ghost use Rattle.evaluation.specs.Outcomes.{answer_of, counts_of, end_of, ran_of};

use book::Reader;
use kept::clearing::clear;
use kept::keeping::{note, spell};
use reduction::stepping::{Halt, Kind, Rest, Stepped, find_redex, step};
use term::reading::read;
use term::refusal::{Reason, Refusal};

// An allowance of steps for each of the eight callers.
#[repr(C)]
#[derive(Clone, Copy, Debug, PartialEq, Eq)]
pub struct Desk {
    pub allowances: [u32; 8],
}

impl Desk {
    // The desk of caller 0 alone: an allowance for it, and none for the others.
    pub fn alone(allowance: u32) -> Self
        ensures { result ≡ record { allowances = alone allowance } }
    {
        Desk {
            allowances: [allowance, 0, 0, 0, 0, 0, 0, 0],
        }
    }

    // The allowance of a caller, 0 where the desk has none.
    pub fn allowance_of(self, caller: u32) -> u32
        ensures { result ≡ allowance_of self.allowances caller }
    {
        self.allowances.get(caller as usize).copied().unwrap_or(0)
    }

    // The desk with the steps of a caller taken from its allowance, and the other seven as they were.
    fn lowered(mut self, caller: u32, steps: u32) -> Self
        requires { (caller ≤ last_caller) × (steps ≤ allowance_of self.allowances caller) }
        ensures { result.allowances ≡ lowered self.allowances caller steps }
    {
        let at = caller as usize;
        self.allowances[at] -= steps;
        self
    }
}

// The ends of a run, in the order of document 01's numbers.
#[derive(Clone, Copy, Debug, PartialEq, Eq)]
pub enum End {
    Value,
    Spent,
    Stuck,
    Long,
}

// The end of a run in a state from which no step was taken.
impl From<Halt> for End {
    ghost from_gives = { λ halt end. end ≡ end_of_halt halt };

    fn from(halt: Halt) -> End {
        match halt {
            Halt::Value => End::Value,
            Halt::Stuck => End::Stuck,
            Halt::Full => End::Long,
        }
    }
}

// The steps that a run took, in all and by kind.
#[derive(Clone, Copy, Debug, PartialEq, Eq)]
pub struct Steps {
    pub total: u32,
    pub substitutions: u32,
    pub unfoldings: u32,
    pub cancellations: u32,
}

// How a run ended, and after which steps.
#[derive(Clone, Copy, Debug, PartialEq, Eq)]
pub struct Ended {
    pub end: End,
    pub steps: Steps,
}

// What a run answers, with the desk after it.
#[derive(Clone, Copy, Debug, PartialEq, Eq)]
pub struct Outcome {
    pub answer: Result<Ended, Refusal>,
    pub desk: Desk,
}

// How a run went: its end, its steps, the length of the state that it came to, and whether that is kept in the lent buffer.
#[derive(Clone, Copy, Debug, PartialEq, Eq)]
pub struct Course {
    pub end: End,
    pub steps: Steps,
    pub length: usize,
    pub lent: bool,
}

// One step more, of this kind. No count overflows: the three add up to the total, so that each is at most the total, which is
// below the grant.
fn counted(mut steps: Steps, kind: Kind) -> Steps
    requires { (steps.total < 4294967295) × AddUp steps }
    ensures { (result.total ≡ steps.total + 1) × (counts_of result ≡ counting (kind_of kind) (counts_of steps)) }
{
    steps.total += 1;
    match kind {
        Kind::Substitution => steps.substitutions += 1,
        Kind::Unfolding => steps.unfoldings += 1,
        Kind::Cancellation => steps.cancellations += 1,
    }
    steps
}

// The state: `count` nodes at the front of the buffer that has it, the lent one or the other.
fn current<'a>(lent: bool, work: &'a [u16], other: &'a [u16], count: usize) -> &'a [u16]
    requires { 2 * count ≤ length (buffer lent work.now other.now) }
    ensures { result.now ≡ take (2 * count) (buffer lent work.now other.now) }
{
    let buffer = if lent { work } else { other };
    &buffer[..2 * count]
}

// Takes one step of the state, from the buffer that has it into the front of the other one: what is read and what is written cannot
// lie in one slice. Where the next state does not fit, the state is where it was. A flag says which buffer has it: two references that
// change places could be told apart only by name.
fn advance(
    lent: bool,
    work: &mut [u16],
    other: &mut [u16],
    count: usize,
    book: &[u16],
) -> Result<Stepped, Halt>
    requires { (2 * longest ≤ length work.old) × (length other.old ≡ 2 * longest) × ((B : Book) × (x : Term) × layout.Holds B book.now × Holds (length B) (buffer lent work.old other.old) count x) }
    ensures advances { (B : Book) (x : Term) → layout.Holds B book.now → Holds (length B) (buffer lent work.old other.old) count x → Advances (length B) (calculus.step (bodies B) x) result (buffer (not lent) work.new other.new) }
    ensures other_unchanged { (buffer lent work.new other.new ≡ buffer lent work.old other.old) × (drop (2 * longest) work.new ≡ drop (2 * longest) work.old) }
{
    if lent {
        return step(&work[..2 * count], true, other, book, Reader::Everybody);
    }
    step(
        &other[..2 * count],
        true,
        &mut work[..2048],
        book,
        Reader::Everybody,
    )
}

// The end of a run whose grant is used: its state tells it, and no step is written.
fn last_end(state: &[u16], book: &[u16]) -> End
    requires { Held book.now state.now }
    ensures { (B : Book) (x : Term) → layout.Holds B book.now → Keeps B x state.now → end_of result ≡ last_end (calculus.step (bodies B) x) }
{
    match find_redex(state, book, Reader::Everybody) {
        Ok(_) => End::Spent,
        Err(Rest::Value) => End::Value,
        Err(Rest::Stuck) => End::Stuck,
    }
}

// Runs the closed term of `size` nodes that the lent buffer begins with. The ends are tested in the order value, stuck, spent, too
// long: while a step is left, the step itself tells a value or a stuck state before it writes, and only then a state that does not fit.
fn go(size: usize, grant: u32, work: &mut [u16], other: &mut [u16], book: &[u16]) -> Course
    requires { (2 * longest ≤ length work.old) × (length other.old ≡ 2 * longest) × ((B : Book) × (t : Term) × layout.Holds B book.now × Holds (length B) work.old size t) }
    ensures goes { (B : Book) (t : Term) → layout.Holds B book.now → Holds (length B) work.old size t → Goes (length B) (run_from (calculus.step (bodies B)) grant t) result (buffer result.lent work.new other.new) }
    ensures work_unchanged { drop (2 * longest) work.new ≡ drop (2 * longest) work.old }
{
    let mut count = size;
    let mut lent = true;
    let mut steps = Steps {
        total: 0,
        substitutions: 0,
        unfoldings: 0,
        cancellations: 0,
    };
    // Not a `for`: the edit steps_never_taken needs the count that the loop tests.
    while steps.total < grant {
        match advance(lent, work, other, count, book) {
            Err(halt) => {
                return Course {
                    end: End::from(halt),
                    steps,
                    length: count,
                    lent,
                };
            }
            Ok(stepped) => {
                count = stepped.length;
                lent = !lent;
                steps = counted(steps, stepped.kind);
            }
        }
    }
    let end = last_end(current(lent, work, other, count), book);
    Course {
        end,
        steps,
        length: count,
        lent,
    }
}

// Runs the term, and hands over the state that it came to. One of the two buffers is the front of the lent slice, the other is its own.
fn perform(term: &[u16], grant: u32, work: &mut [u16], state: &mut [u16], book: &[u16]) -> Course
    requires { (2 * longest ≤ length work.old) × (longest ≤ length state.old) × ((B : Book) × (t : Term) × layout.Holds B book.now × (term.now ≡ words t) × Readable (length B) t) }
    ensures { (B : Book) (t : Term) → layout.Holds B book.now → term.now ≡ words t → Readable (length B) t → Performs (run_from (calculus.step (bodies B)) grant t) work.old state.old result work.new state.new }
{
    let mut other = [0u16; 2048];
    note(term, work, 0);
    let course = go(term.len(), grant, work, &mut other, book);
    spell(current(course.lent, work, &other, course.length), state);
    course
}

// Clears the working slice and lowers the caller's allowance.
fn settle(course: Course, work: &mut [u16], caller: u32, desk: Desk) -> Outcome
    requires run_room_in_bounds { run_room ≤ length work.old }
    requires caller_le_last_caller { (caller ≤ last_caller) × (course.steps.total ≤ allowance_of desk.allowances caller) }
    ensures { (state : List ℕ) → ran_of result work.new state ≡ ended (end_of course.end) course.steps caller desk.allowances work.old state }
{
    clear(work, 16);
    Outcome {
        answer: Ok(Ended {
            end: course.end,
            steps: course.steps,
        }),
        desk: desk.lowered(caller, course.steps.total),
    }
}

// A refusal leaves the desk as it was. Those before reading tell no place.
fn refused(reason: Reason, desk: Desk) -> Outcome
    ensures { (answer_of result.answer ≡ refused (reason_of reason) 0) × (result.desk ≡ desk) }
{
    Outcome {
        answer: Err(Refusal { reason, place: 0 }),
        desk,
    }
}

// The steps that a run of a caller is granted.
fn granted(budget: u32, caller: u32, desk: Desk) -> u32
    ensures { result ≡ grant budget caller desk.allowances }
{
    budget.min(desk.allowance_of(caller))
}

// A run of document 01, for one of the callers of the desk. Any slice holds the empty book, so an empty part of the words is lent for it.
pub fn run(
    term: &[u16],
    budget: u32,
    work: &mut [u16],
    state: &mut [u16],
    caller: u32,
    desk: Desk,
) -> Outcome
    ensures outcome { ran_of result work.new state.new ≡ run term.now budget caller desk.allowances work.old state.old }
    ensures safety { SafeRun [] [] term.now budget caller desk.allowances work.old state.old (ran_of result work.new state.new) }
{
    if 7 < caller {
        return refused(Reason::CallerNotAllowed, desk);
    }
    if work.len() < 8192 {
        return refused(Reason::WorkShort, desk);
    }
    if state.len() < 1024 {
        return refused(Reason::OutputShort, desk);
    }
    if let Err(refusal) = read(term) {
        return Outcome {
            answer: Err(refusal),
            desk,
        };
    }
    let grant = granted(budget, caller, desk);
    let course = perform(term, grant, work, state, &term[..0]);
    settle(course, work, caller, desk)
}
