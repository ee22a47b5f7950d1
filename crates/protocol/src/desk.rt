// The answer to a request that depends on those before it: the desk that they left goes from one to the next.
ghost use Rattle.std.specs.Prelude.{◌≡◌, ◌++◌};
ghost use Rattle.text.specs.Appending.{appended};
ghost use Rattle.text.specs.Texts.{ascii, spaced};
ghost use Rattle.protocol.specs.Desks.{granted_at, served, served_line, Serves};

use crate::answer;
use crate::answer::ran;
use crate::asked::Asked;
use crate::request::Request;
use evaluation::Desk;
use text::front;
use text::page::Page;

// `desk ALLOWANCE …`.
#[tactic(auto, using(text::proofs::Appended::appends), unfolding(text::specs::Texts::ascii))]
fn shown<const N: usize>(desk: Desk, page: &mut Page<N>)
    ensures { page.new ≡ appended N page.old (ascii "desk" ++ spaced desk.allowances) }
{
    page.text(b"desk");
    page.numbers(&desk.allowances);
}

// The steps granted to the run that the request asks for, 0 where it asks for none.
#[tactic(auto, unfolding(crate::specs::Desks::granted_at))]
pub fn granted(request: Request, desk: Desk) -> u32
    ensures { result ≡ granted_at request desk.allowances }
{
    match request.asked() {
        Some(Asked::DeskRun { caller, budget }) => budget.min(desk.allowance_of(caller)),
        _ => answer::granted(request),
    }
}

// The answer to a request about the desk; any other is answered by itself. The desk after it.
fn line<const N: usize>(
    request: Request,
    desk: Desk,
    words: &[u16],
    work: &mut [u16],
    page: &mut Page<N>,
) -> Desk
    ensures { Serves N (served request desk.allowances words.now work.old) work.new page.old result page.new }
{
    match request.asked() {
        Some(Asked::DeskNew { allowances }) => {
            page.text(b"ok");
            Desk { allowances }
        }
        Some(Asked::DeskRun { caller, budget }) => {
            let term = front(words, request.count);
            ran(term, budget, caller, desk, false, work, page)
        }
        Some(Asked::DeskShow) => {
            shown(desk, page);
            desk
        }
        _ => {
            answer::line(request, words, work, page);
            desk
        }
    }
}

// Appends the answer and a line feed.
pub fn answer<const N: usize>(
    request: Request,
    desk: Desk,
    words: &[u16],
    work: &mut [u16],
    page: &mut Page<N>,
) -> Desk
    ensures { Serves N (served_line (served request desk.allowances words.now work.old)) work.new page.old result page.new }
{
    let after = line(request, desk, words, work, page);
    page.byte(b'\n');
    after
}
