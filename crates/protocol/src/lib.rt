// Requests and their answers as lines of text, and what is said of them on standard error.
#![tactic(auto)]

pub mod answer;
pub mod asked;
pub mod desk;
pub mod output;
pub mod request;
