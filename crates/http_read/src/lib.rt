//! Reads requests off the bytes of a connection.
//!
//! `next_head` says what stands at the front of the bytes: the whole head of a request, the front of one, or a head that is
//! refused, with the code of its response. A head is one of the grammar of the kit's `httparse`; what its lines are stands in
//! `specs/HeadLines.antt`, how the version in the first of them is read in `specs/Versions.antt`, what its fields say in
//! `specs/HeadRules.antt`, `specs/FieldValues.antt` and `specs/Authority.antt`, and the answers in `specs/Head.antt`.
//! `some_answer`, `one_answer` and `keeps_answer` are the laws above them. `HeadReader` gives the same answers to bytes that
//! come piece by piece, and looks for their end at each byte once (`specs/LookedAt.antt`); what a head says is read once it is
//! whole. `Request` is what a head says (`specs/RequestParts.antt`), in one copy of it. The greatest sizes of all of
//! these stand in `specs/Sizes.antt`.
//!
//! `BodyReader` reads a body as its bytes come and keeps none of them. `specs/BodyForm.antt` says what a whole body is, what
//! the front of one, and what breaks its form; `one_form`, `keeps_form` and `cuts_never_matter` are the laws above it. What a
//! call answers is in `specs/BodyAnswers.antt`, and where a reader stands in `specs/BodyPlaces.antt`. The chunks of a body
//! are in `specs/ChunkLines.antt`, the trailer lines behind them in `specs/TrailerLines.antt`.
//!
//! Which requests bytes spell, one behind the other, and what is left behind them, stands in `specs/Requests.antt`;
//! `some_spelling`, `one_spelling` and `keeps_spelling` are the laws above it.
#![tactic(auto)]

mod authority;
mod body;
mod chunk_line;
mod chunked;
mod codes;
mod condition_spans;
mod found_conditions;
mod head;
mod head_reader;
mod head_rules;
mod lines;
mod places;
mod request;
mod request_fields;
mod requests;
mod sizes;
mod trailer_line;
mod version;
mod whole_head;
mod words;

pub use authority::is_authority;
pub use body::{BodyAnswer, BodyReader, cuts_never_matter, keeps_form, one_form};
pub use head::{HeadAnswer, keeps_answer, next_head, one_answer, some_answer};
pub use head_reader::HeadReader;
pub use lines::line_len;
pub use places::place_of_byte;
pub use request::{BodyKind, Limits, Request};
pub use requests::{keeps_spelling, one_spelling, some_spelling};
pub use sizes::GREATEST_HEAD;
