// Terms kept in working memory (document 02, 2.12): noting and spelling them, raising and substitution, from parts of shared slices
// into a `&mut` slice with bounded room; and clearing a slice.

#![tactic(auto)]

pub mod clearing;
pub mod copying;
pub mod keeping;
pub mod rewriting;
