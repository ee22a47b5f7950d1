// The check (document 01, Calls): the type of a closed term within a limit, or the first rule that fails.
#![tactic(auto)]

ghost use Rattle.std.specs.Prelude.{Err, ◌≡◌};
ghost use Rattle.calculus.specs.Outcomes.{check};
ghost use Rattle.typing.specs.Outcomes.{checked_of};

use book::Reader;
use inference::{Check, Memory, infer};
use kept::clearing::clear;
use kept::keeping::spell;
use term::reading::read;
use term::refusal::{Reason, Refusal};

fn refused(reason: Reason) -> Result<usize, Refusal>
    ensures { result ≡ Err (record { reason = reason; place = 0 }) }
{
    Err(Refusal { reason, place: 0 })
}

// A check of document 01: the length of the type, which is then in the output, or the refusal.
pub fn check(
    term: &[u16],
    limit: u32,
    work: &mut [u16],
    output: &mut [u16],
) -> Result<usize, Refusal>
    ensures { checked_of result work.new output.new ≡ check term.now limit work.old output.old }
{
    if limit == 0 || 1024 < limit {
        return refused(Reason::LimitNotAllowed);
    }
    let longest = limit as usize;
    if work.len() < 1024 * longest {
        return refused(Reason::WorkShort);
    }
    if output.len() < longest {
        return refused(Reason::OutputShort);
    }
    read(term)?;
    let check = Check {
        term,
        limit: longest,
        book: &term[..0],
        reader: Reader::Owner(0),
    };
    let mut memory = Memory {
        context: [0; 64],
        held: [0; 4096],
    };
    let room = 1024 * longest;
    let found = infer(&check, term, 0, &mut memory, &mut work[..room], 0).map(|typed| typed.length);
    if let Ok(length) = found {
        spell(&work[..2 * length], output);
    }
    clear(work, 2 * longest);
    found
}
