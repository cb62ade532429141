//! The answers to all obligations of a specification, the status that they lead to, and the texts of reports. The
//! main functions are `answer_levels` and `render_check`; the crate may touch the allocator and nothing else.
#![tactic(auto)]

mod answering;
mod answers;
mod check_text;
mod judgement_text;
mod laws;

pub use answering::answer_levels;
pub use answers::{Answer, Answers, status_of};
pub use check_text::render_check;
pub use judgement_text::render_judgements;
pub use laws::{answers_are_unique, success_is_safe};
