//! Plays the runs that its input asks for, over stores and outputs in memory, and prints what came of each: its exit status and its
//! place, what it wrote, and where it opened how far its script came, what happened to each connection and, where the run asks for it,
//! the history. The file `stdin` has the runs, and `stdout` what must come of them. So a further run is lines of these two files.
//!
//! In the input a line that begins with `== ` has the title of a run; the lines behind it say what it is over:
//!
//! - `words WORD ..`: the words of the command line.
//! - `file NAME`: what follows is of the file of that name. What stands before the first such line is of the file `s`. `edition`: what
//!   follows is of the next edition of the folder, which has no file but those.
//! - `front NAME`: the front that is handed in plays the script of the file of that name. Without such a line it is one that can't be
//!   bound, and whose last dial is shown; `undialled`: its dials fail; `back TEXT`: a line that comes back of a dial. `wait N`, `accept N`, `watch N`: the wait, the accept, the watch of
//!   that number of the front that plays a script fails.
//! - `| TEXT`: a line of the file. `+ TEXT`: more of it, without the end of a line. `times N TEXT`: the text so many times.
//! - `each N M TEXT`: a line for each number from N up to M, M left out, in which it stands in place of each `#`.
//! - `store N`, `output N`: the store's, the output's call of that number fails.
//! - `slow`: the output takes single bytes.
//! - `history`: the history is shown. `commands`: of it the commands alone. `moments`: in place of each connection, how many children were started, and connections taken
//!   and closed, at each moment. `report`: nothing of the connections is shown but the report. `entries`: how many entries were folded, and
//!   how many are kept, is shown. `answers`: what the front that plays a script was given for the senders of its command lines is shown. Behind a fold a history has what came after it, and connections are shown that ended after it.
//!
//! Runs that take long stand behind all others, restarts and status pages among these, so that each allocation of the others can be made to
//! fail in turn: `.ci/allocations` does that run by run, alone and with all behind it.
//!
//! With `rt try --fail-alloc N` the Nth allocation fails, for each N. The program then ends with an error where the run of that
//! moment stopped as it must. Where the output itself found no memory for its bytes, it has failed: that run has status 5 then, and
//! a front of its text. Where the program ends well and prints something else, the run told something wrong.
#![tactic(auto)]

mod answered;
mod case;
mod given;
mod outside;
mod playing;
mod shown;

use playing::play_all;
use std::io;

fn main(rt: HostRuntime) -> io::Result<()> {
    let input = io::read_to_string(rt.alloc(), rt.reader())?;
    play_all(&rt, rt.alloc(), input.as_str())
}
