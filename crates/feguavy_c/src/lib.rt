// The calls `check`, `run` and `part` for C: each export calls the function of that name in `feguavy`, and promises what that promises.
#![tactic(auto)]

ghost use Rattle.std.specs.Prelude.{[], ◌≡◌};
ghost use Rattle.calculus.specs.Outcomes as calculus;
ghost use Rattle.calculus.specs.Safety.{SafeRun};
ghost use Rattle.feguavy.specs.Numbers.{NumberedCheck, NumberedRun, found_numbers};

use evaluation::Desk;
use feguavy::{CheckedNumbers, FoundNumbers, RanNumbers};

#[unsafe(no_mangle)]
pub extern "C" fn feguavy_check(
    term: &[u16],
    limit: u32,
    work: &mut [u16],
    output: &mut [u16],
) -> CheckedNumbers
    ensures { NumberedCheck (calculus.check term.now limit work.old output.old) result work.new output.new }
{
    feguavy::feguavy_check(term, limit, work, output)
}

#[unsafe(no_mangle)]
pub extern "C" fn feguavy_run(
    term: &[u16],
    budget: u32,
    work: &mut [u16],
    state: &mut [u16],
    caller: u32,
    desk: Desk,
) -> RanNumbers
    ensures outcome { NumberedRun (calculus.run term.now budget caller desk.allowances work.old state.old) result work.new state.new }
    ensures safety { (c : calculus.Ran) × NumberedRun c result work.new state.new × SafeRun [] [] term.now budget caller desk.allowances work.old state.old c }
{
    feguavy::feguavy_run(term, budget, work, state, caller, desk)
}

#[unsafe(no_mangle)]
pub extern "C" fn feguavy_part(term: &[u16], number: u32) -> FoundNumbers
    ensures { found_numbers result ≡ calculus.found term.now number }
{
    feguavy::feguavy_part(term, number)
}
