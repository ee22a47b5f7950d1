// The answers as lines of text: to requests that depend on none before them, and to a run at any desk. The calls answer in C's numbers,
// which are what is printed: 0 where nothing is refused.
ghost use Rattle.std.specs.Prelude.{◌≡◌, [], ◌∷◌, ◌++◌};
ghost use Rattle.calculus.specs.Outcomes.{part};
ghost use Rattle.text.specs.Appending.{appended};
ghost use Rattle.text.specs.Texts.{ascii, spaced};
ghost use Rattle.protocol.specs.Answers.{
  check_reply,
  ended_by_feed,
  numbers_line,
  part_line,
  reply,
  Replies,
};
ghost use Rattle.protocol.specs.Desks.{run_for, Serves};
ghost use Rattle.protocol.specs.Forms.{granted, is_request};

use crate::asked::Asked;
use crate::request::Request;
use evaluation::Desk;
use feguavy::{RanNumbers, feguavy_check, feguavy_run};
use term::part;
use term::walk::span;
use text::front;
use text::page::Page;

// `refused ANSWER PLACE`. The numbers are those of the C interface: they are what is printed.
#[tactic(auto, using(text::proofs::Appended::appends), unfolding(text::specs::Texts::ascii))]
pub fn refusal<const N: usize>(answer: u32, place: u32, page: &mut Page<N>)
    ensures { page.new ≡ appended N page.old (ascii "refused" ++ spaced (answer ∷ place ∷ [])) }
{
    page.text(b"refused");
    page.numbers(&[answer, place]);
}

// `typed | WORDS`, or the refusal.
fn checked<const N: usize>(term: &[u16], limit: u32, work: &mut [u16], page: &mut Page<N>)
    ensures { Replies N (check_reply term.now limit work.old) work.new page.old page.new }
{
    let mut result = [0; 1024];
    let answer = feguavy_check(term, limit, work, &mut result);
    if answer.answer != 0 {
        return refusal(answer.answer, answer.place, page);
    }
    page.text(b"typed |");
    page.numbers(front(&result, answer.length as usize));
}

// `ran END STEPS LEFT | WORDS`, with the counts BETA MU CANCEL behind the steps where they are asked for, or the refusal: from the
// numbers of a run and its state slice.
pub fn run_line<const N: usize>(
    ran: RanNumbers,
    caller: u32,
    kinds: bool,
    state: &[u16],
    page: &mut Page<N>,
)
    ensures { page.new ≡ appended N page.old (numbers_line kinds caller ran state.now) }
{
    if ran.answer != 0 {
        return refusal(ran.answer, ran.place, page);
    }
    page.text(b"ran");
    page.numbers(&[ran.end, ran.steps]);
    if kinds {
        page.numbers(&[ran.substitutions, ran.unfoldings, ran.cancellations]);
    }
    page.numbers(&[ran.desk.allowance_of(caller)]);
    page.text(b" |");
    page.numbers(front(state, span(state)));
}

// A run of a caller at a desk, and the desk after it.
pub fn ran<const N: usize>(
    term: &[u16],
    budget: u32,
    caller: u32,
    desk: Desk,
    kinds: bool,
    work: &mut [u16],
    page: &mut Page<N>,
) -> Desk
    ensures { Serves N (run_for kinds term.now budget caller desk.allowances work.old) work.new page.old result page.new }
{
    let mut state = [0; 1024];
    let answer = feguavy_run(term, budget, work, &mut state, caller, desk);
    run_line(answer, caller, kinds, &state, page);
    answer.desk
}

// `part | WORDS`.
#[tactic(auto, using(text::proofs::Appended::appends), unfolding(text::specs::Texts::ascii))]
fn parted<const N: usize>(term: &[u16], number: u32, page: &mut Page<N>)
    ensures { page.new ≡ appended N page.old (part_line (part term.now number)) }
{
    page.text(b"part |");
    page.numbers(part(term, number));
}

// The steps granted to the run that the request asks for, 0 where it asks for none.
#[tactic(auto, unfolding(crate::specs::Forms::granted))]
pub fn granted(request: Request) -> u32
    ensures { result ≡ granted request }
{
    match request.asked() {
        Some(Asked::Run { budget, allowance } | Asked::Kinds { budget, allowance }) => {
            budget.min(allowance)
        }
        _ => 0,
    }
}

// Whether the line is a request that depends on none before it.
#[tactic(auto, unfolding(crate::specs::Forms::is_request, crate::specs::Forms::is_run))]
pub fn proper(request: Request) -> bool
    ensures { result ≡ is_request request }
{
    matches!(
        request.asked(),
        Some(Asked::Check { .. } | Asked::Run { .. } | Asked::Kinds { .. } | Asked::Part { .. })
    )
}

// The answer, or `error` where the line is no request.
pub fn line<const N: usize>(request: Request, words: &[u16], work: &mut [u16], page: &mut Page<N>)
    ensures { Replies N (reply request words.now work.old) work.new page.old page.new }
{
    let term = front(words, request.count);
    match request.asked() {
        Some(Asked::Check { limit }) => checked(term, limit, work, page),
        Some(Asked::Run { budget, allowance }) => {
            ran(term, budget, 0, Desk::alone(allowance), false, work, page);
        }
        Some(Asked::Kinds { budget, allowance }) => {
            ran(term, budget, 0, Desk::alone(allowance), true, work, page);
        }
        Some(Asked::Part { number }) => parted(term, number, page),
        _ => page.text(b"error"),
    }
}

// Appends the answer and a line feed.
pub fn answer<const N: usize>(request: Request, words: &[u16], work: &mut [u16], page: &mut Page<N>)
    ensures { Replies N (ended_by_feed (reply request words.now work.old)) work.new page.old page.new }
{
    line(request, words, work, page);
    page.byte(b'\n');
}
