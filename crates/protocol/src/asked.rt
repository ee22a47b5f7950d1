// Which request a line is.
ghost use Rattle.std.specs.Prelude.{◌≡◌};
ghost use Rattle.protocol.specs.Forms.{asked};

use crate::request::{BARE, BARRED, DESK, NONE, Request};

// The verbs, their letters as one number in base 256.
pub const CHECK: u64 = 426953237355;

pub const RUN: u64 = 7501166;

// A run with its counts by kind.
pub const KINDS: u64 = 461330343027;

pub const PART: u64 = 1885434484;

// Of the desk.
pub const NEW: u64 = 7234935;

pub const SHOW: u64 = 1936224119;

// A request, with its numbers.
#[derive(Clone, Copy)]
pub enum Asked {
    Check { limit: u32 },
    Run { budget: u32, allowance: u32 },
    // A run with its counts by kind.
    Kinds { budget: u32, allowance: u32 },
    Part { number: u32 },
    DeskNew { allowances: [u32; 8] },
    DeskRun { caller: u32, budget: u32 },
    DeskShow,
}

impl Request {
    // What the line asks for, or none where it is no request. In place, as a short line has little else.
    #[inline(always)]
    #[tactic(auto, unfolding(crate::specs::Forms::asked, crate::specs::Forms::asks))]
    pub fn asked(self) -> Option<Asked>
        ensures { result ≡ asked self }
    {
        if self.wrong {
            return None;
        }
        let first = self.before_last();
        let last = self.last();
        match (self.topic, self.verb, self.numbers, self.phase) {
            (NONE, CHECK, 1, BARRED) => Some(Asked::Check { limit: last }),
            (NONE, RUN, 2, BARRED) => Some(Asked::Run {
                budget: first,
                allowance: last,
            }),
            (NONE, KINDS, 2, BARRED) => Some(Asked::Kinds {
                budget: first,
                allowance: last,
            }),
            (NONE, PART, 1, BARRED) => Some(Asked::Part { number: last }),
            (DESK, NEW, 8, BARE) => {
                let allowances = self.values;
                Some(Asked::DeskNew { allowances })
            }
            (DESK, RUN, 2, BARRED) => Some(Asked::DeskRun {
                caller: first,
                budget: last,
            }),
            (DESK, SHOW, 0, BARE) => Some(Asked::DeskShow),
            _ => None,
        }
    }
}
