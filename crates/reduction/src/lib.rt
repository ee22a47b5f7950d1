// One step over kept terms, from a shared slice into a `&mut` slice with bounded room.

#![tactic(auto)]

pub mod stepping;
