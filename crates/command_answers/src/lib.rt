//! What the sender of a command line is answered, and what the output has of a line that asks for the state.
//!
//! Each answer is one line, but for that of `status`, which has seven, and none has more than 512 bytes (`specs/Answers.antt`). An answer takes
//! no memory.
#![tactic(auto)]

mod answer_text;
mod answers;
pub mod laws;

pub use answer_text::AnswerText;
pub use answers::{
    ending_answer, generation_answer, late_answer, memory_answer, open_line, refused_answer,
    status_answer, stopping_answer, unknown_answer,
};
