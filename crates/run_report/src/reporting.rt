//! The end of a run that opened: its report is written.
ghost use Rattle.std.specs.Prelude.{◌≡◌, ◌&&◌, IfOk};
ghost use Rattle.run_report.specs.Endings.{MayEndWith};
ghost use Rattle.run_report.specs.Report.{board_report};
ghost use Rattle.run_report.specs.EndingsInside.{EndsReport, IsExitStatusOf, IsStoppedStatus, LacksInRun, LacksReport, ReportsAs, status_of_writes};
ghost use Rattle.run_report.specs.EndingsInside.{IsEnd};

use crate::counting::tally;
use crate::exit_status;
use crate::report::report_text;
use crate::writing::write_all;
use board::Board;
use conn_machine::{Going, Why};
use conn_state::Known;
use mpm_base::{Link, NoMemory, Octets, Sink};
use std::alloc::Global;

/// Writes the report of a run that opened, whose warnings were written or not, and answers its exit status.
pub fn report_run<L: Link, N: Known, K: Sink>(
    alloc: Global,
    board: &Board<L, N>,
    written: bool,
    out: &mut K,
) -> u8
    requires stopped { IsEnd board.now.book.state.going }
    ensures stopped { MayEndWith board.now.book.state.going result }
    ensures report { EndsReport (K.seen out.old) (K.seen out.new)
        (board_report board.now) written result }
    ensures lacking { result ≡ 6 → LacksInRun (K.seen out.old) (K.seen out.new) board.now }
{
    report(alloc, board, written, out, status_of(board.going()))
}

/// The exit status of a run that stopped so, or ended gracefully.
fn status_of(going: Going) -> u8
    requires { IsEnd going }
    ensures { IsExitStatusOf going result }
{
    match going {
        Going::Halted(Why::FrontEnded | Why::Asked | Why::Overdue) | Going::Ending(_) => {
            exit_status::ENDED
        }
        Going::Halted(Why::FrontFailed) => exit_status::FRONT_FAILED,
        Going::Halted(Why::NoMemory) => exit_status::NO_MEMORY,
        _ => unreachable!(),
    }
}

/// Writes the report, and answers the exit status behind it: a write that failed, of the warnings or of the report, changes 0 alone.
fn report<L: Link, N: Known, K: Sink>(
    alloc: Global,
    board: &Board<L, N>,
    written: bool,
    out: &mut K,
    status: u8,
) -> u8
    requires status { IsStoppedStatus status }
    ensures status { ReportsAs status result }
    ensures report { EndsReport (K.seen out.old) (K.seen out.new)
        (board_report board.now) written result }
    ensures lacking { result ≡ 6 →
        LacksReport (K.seen out.old) (K.seen out.new) (board_report board.now) status }
{
    match report_of(alloc, board) {
        Ok(text) => {
            let whole = write_all(out, text.as_slice());
            status_after(whole, written, status)
        }
        Err(_) => exit_status::NO_MEMORY,
    }
}

/// The exit status behind the writes of the report and, before it, of the warnings: one that failed changes 0 alone.
fn status_after(whole: bool, written: bool, status: u8) -> u8
    ensures { result ≡ status_of_writes (whole && written) status }
{
    if whole && written || status != exit_status::ENDED {
        status
    } else {
        exit_status::UNWRITTEN
    }
}

/// The report of the board.
fn report_of<L: Link, N: Known>(alloc: Global, board: &Board<L, N>) -> Result<Octets, NoMemory>
    ensures { IfOk result (λ text. text ≡ board_report board.now) }
{
    let tally = tally(alloc, board)?;
    report_text(alloc, &tally)
}
