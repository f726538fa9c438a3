//! Scripts: the lines that say what comes to the server, and when.
//!
//! `read_script` reads the bytes of a script exactly where they are one, and else refuses the earliest line that is wrong.
//! `one_answer` says that bytes have one answer as a script, and `one_line` that a text is one line at most;
//! `file_names_are_texts` says that the files of a script have UTF-8 names. `NamePlaces` has names in order, and finds the
//! first place of each by a map; `NameChains` finds all places of each, from the last one down. Which text is which line stands
//! in `specs/ScriptLine.antt`, which lines are a script in `specs/Script.antt`, what its clients send and which calls of their
//! links fail in `specs/Clients.antt`, and which command lines it brings in `specs/Commands.antt`: `command_line` is that of
//! one command. `load_script` makes the script of a load (`specs/Load.antt`).
//! Why it is so stands in docs/DECISIONS.md: 17, Scripts stand in two crates of their own.
#![tactic(auto)]

mod agreement;
mod commands;
mod escapes;
mod line_reader;
mod line_words;
mod load;
mod name_chains;
mod name_places;
mod read_lines;
mod script;

pub use commands::command_line;
pub use line_reader::one_line;
pub use load::load_script;
pub use name_chains::NameChains;
pub use name_places::NamePlaces;
pub use script::{Script, ScriptFault, file_names_are_texts, one_answer, read_script};
