// Why a call is refused, and where (document 01, Calls).

// One variant for each refusal of document 01, in the order of its numbers, and for 21 of document 02.
#[derive(Clone, Copy, Debug, PartialEq, Eq)]
pub enum Reason {
    LimitNotAllowed,
    WorkShort,
    OutputShort,
    LengthNotAllowed,
    NoMeaning,
    ListEnds,
    WordsAfter,
    Level65,
    Unbound,
    NotStar,
    NotProduct,
    WrongArgument,
    NoStep,
    WrongCast,
    WrongRecursion,
    OverLimit,
    CallerNotAllowed,
}

#[derive(Clone, Copy, Debug, PartialEq, Eq)]
pub struct Refusal {
    pub reason: Reason,
    pub place: usize,
}
