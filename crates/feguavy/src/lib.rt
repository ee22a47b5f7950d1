// The calls `check`, `run` and `part` for Rust and, exported by `feguavy_c`, for C. Numbers are those of documents 01 and 02.
#![tactic(auto)]

ghost use Rattle.std.specs.Prelude.{[], ◌≡◌};
ghost use Rattle.term.specs.Reasons.{number_of};
ghost use Rattle.calculus.specs.Run.{end_number};
ghost use Rattle.calculus.specs.Outcomes as calculus;
ghost use Rattle.calculus.specs.Safety.{SafeRun};
ghost use Rattle.evaluation.specs.Outcomes.{end_of};
ghost use Rattle.feguavy.specs.Numbers.{NumberedCheck, NumberedRun, found_numbers};

use evaluation::{Desk, End, run};
use term::find;
use term::refusal::Reason;
use typing::check;

// The answer of a check: 0 and the length of the type, or the number of the refusal and its place.
#[repr(C)]
#[derive(Clone, Copy)]
pub struct CheckedNumbers {
    pub answer: u32,
    pub place: u32,
    pub length: u32,
}

// The answer of a run: 0 with its end and its steps, in all and by kind, or the number of the refusal and its place; and the desk
// after it.
#[repr(C)]
#[derive(Clone, Copy)]
pub struct RanNumbers {
    pub answer: u32,
    pub place: u32,
    pub end: u32,
    pub steps: u32,
    pub substitutions: u32,
    pub unfoldings: u32,
    pub cancellations: u32,
    pub desk: Desk,
}

// Where a part stands: 0, 0 where there is none.
#[repr(C)]
#[derive(Clone, Copy)]
pub struct FoundNumbers {
    pub start: usize,
    pub length: usize,
}

// The number of a reason. A match, as the numbers are C's, and the edit caller_answered_as_the_limit gives two reasons one of them.
#[tactic(auto, unfolding(calculus::specs::Answer::number))]
fn number(reason: Reason) -> u32
    ensures { result ≡ number_of reason }
{
    match reason {
        Reason::LimitNotAllowed => 1,
        Reason::WorkShort => 2,
        Reason::OutputShort => 3,
        Reason::LengthNotAllowed => 4,
        Reason::NoMeaning => 5,
        Reason::ListEnds => 6,
        Reason::WordsAfter => 7,
        Reason::Level65 => 8,
        Reason::Unbound => 9,
        Reason::NotStar => 10,
        Reason::NotProduct => 11,
        Reason::WrongArgument => 12,
        Reason::NoStep => 13,
        Reason::WrongCast => 14,
        Reason::WrongRecursion => 15,
        Reason::OverLimit => 16,
        Reason::CallerNotAllowed => 21,
    }
}

// Document 01's number of an end. A match, as the numbers are C's, and the edit wrong_number_for_an_end gives two ends one of them.
#[tactic(auto, unfolding(calculus::specs::Run::end_number))]
fn number_of_end(end: End) -> u32
    ensures { result ≡ end_number (end_of end) }
{
    match end {
        End::Value => 1,
        End::Spent => 2,
        End::Stuck => 3,
        End::Long => 4,
    }
}

pub fn feguavy_check(
    term: &[u16],
    limit: u32,
    work: &mut [u16],
    output: &mut [u16],
) -> CheckedNumbers
    ensures { NumberedCheck (calculus.check term.now limit work.old output.old) result work.new output.new }
{
    match check(term, limit, work, output) {
        Ok(length) => CheckedNumbers {
            answer: 0,
            place: 0,
            length: length as u32,
        },
        Err(refusal) => CheckedNumbers {
            answer: number(refusal.reason),
            place: refusal.place as u32,
            length: 0,
        },
    }
}

pub fn feguavy_run(
    term: &[u16],
    budget: u32,
    work: &mut [u16],
    state: &mut [u16],
    caller: u32,
    desk: Desk,
) -> RanNumbers
    ensures outcome { NumberedRun (calculus.run term.now budget caller desk.allowances work.old state.old) result work.new state.new }
    ensures safety { (c : calculus.Ran) × NumberedRun c result work.new state.new × SafeRun [] [] term.now budget caller desk.allowances work.old state.old c }
{
    let outcome = run(term, budget, work, state, caller, desk);
    match outcome.answer {
        Ok(ended) => RanNumbers {
            answer: 0,
            place: 0,
            end: number_of_end(ended.end),
            steps: ended.steps.total,
            substitutions: ended.steps.substitutions,
            unfoldings: ended.steps.unfoldings,
            cancellations: ended.steps.cancellations,
            desk: outcome.desk,
        },
        Err(refusal) => RanNumbers {
            answer: number(refusal.reason),
            place: refusal.place as u32,
            end: 0,
            steps: 0,
            substitutions: 0,
            unfoldings: 0,
            cancellations: 0,
            desk: outcome.desk,
        },
    }
}

pub fn feguavy_part(term: &[u16], number: u32) -> FoundNumbers
    ensures { found_numbers result ≡ calculus.found term.now number }
{
    let found = find(term, number);
    FoundNumbers {
        start: found.start,
        length: found.length,
    }
}
