//! The run of a server over a front and a clock, whichever they are, with what is written where it opens.
//! Why it is so stands in docs/DECISIONS.md: 78, When warnings are written; 92, What comes before the sockets.
ghost use Rattle.std.specs.Prelude.{◌≡◌, ◌++◌, ℕ, List, [], Some, is_some, IfErr, IfOk, IfSome, OnErr};
ghost use Rattle.mpm_base.specs.Count.{NeverFalls};
ghost use Rattle.listener.specs.Unused.{IsUnused};
ghost use Rattle.board.specs.Board.{AreOfOutside, EndedOfOutside};
ghost use Rattle.run_report.specs.EndingsInside.{WritesAll};
ghost use Rattle.listener_round.specs.FirstNumbersInside.{AreNumbers, opened_book};
ghost use Rattle.listener_round.specs.FirstNumbers as opening;
ghost use Rattle.listener_round.specs.OrdersInside.{known_outside, opening_by};
ghost use Rattle.listener_round.specs.Generations.{head_limits_of};
ghost use Rattle.listener.specs.RunsInside.{HasRunBy, open_lines_of, BacksWaits};
ghost use Rattle.listener.specs.Served.{all_ended};
ghost use Rattle.listener_round.specs.Folded.{whole_book, HasFolded};
ghost use Rattle.listener.specs.Counted.{AsksOnce, KeepsClock};
ghost use Rattle.listener_round.specs.Links.{EndsLinks};
ghost use Rattle.listener.specs.Listen.{HasClosedAll, IsRunFrom};
ghost use Rattle.board_book.specs.ClosedDown.{IsClosedDown};
ghost use Rattle.listener_round.specs.FrontInside.{Follows, clients_known};
ghost use Rattle.listener.specs.ListenInside.{IsUnopened};
ghost use Rattle.board_book.specs.Timely.{AreTimely};
ghost use Rattle.listener.specs.Tells.{AllReceive};

use crate::folding::{folds_join, show_for_folds};
use crate::listen::listen;
use board::Board;
use board::laws::{
    ended_connections_are_backed, ended_links_are_of_closed_connections,
    generations_keep_their_editions,
};
use conn_machine::laws::{accepted_connections_are_closed_or_live, events_keep_states_sound};
use conn_machine::laws_of_runs::made_histories_are_runs;
use conn_state::{Known, Nothing};
use listener_round::{Listener, LoadedEdition, NamedConfig, RunNumbers, numbers_of};
use mpm_base::{Clock, Front, Gate, Link, NoMemory, Ready, Sink, Store};
use run_report::write_all;
use std::alloc::Global;
use std::sync::Wait;
use worker_group::Hands;

/// What is left of the run of a server.
#[derive(Drop)]
pub struct ServedRun<L: Link> {
    /// The table of connections, as the run left it.
    pub board: Board<L, Nothing>,
    /// Whether the text of the opening, and each line of it that tells the state, was written whole.
    pub written: bool,
}

/// Why a server did not open.
#[derive(Clone, Copy)]
pub enum OpenFault {
    /// The front could not be bound.
    Bind,
    /// Memory lacks for the table, or for the bell.
    NoMemory,
}

/// Runs a server by the configuration, over the store, the front and the clock, to its end, and serves by the edition, and by those that
/// the store has when a restart asks for them; each service passes the gate. Once the table is there and the front is bound the text is
/// written, and later a line for each command line that asks for the state; where that fails the server runs all the same.
///
/// The name says what the front tells of its clients, and what the editions of the store are, so that what connections received and what
/// they are served by are facts of the board's type.
pub fn run_server<
    R: Wait,
    D: Store,
    L: Link + Send,
    F: Front<L = L>,
    C: Clock,
    G: Gate,
    K: Sink,
    N: Known,
>(
    rt: &R,
    alloc: Global,
    config: NamedConfig<'_>,
    edition: LoadedEdition,
    store: &mut D,
    front: &mut F,
    clock: &mut C,
    gate: &G,
    out: &mut K,
    text: &[u8],
) -> Result<ServedRun<L>, OpenFault>
    requires limits { edition.limits ≡ head_limits_of config.config.now }
    requires timeout { edition.stop_ms ≡ config.config.now.current.stop_ms }
    requires named { N.known ≡ Some
        (known_outside (opening_by config edition (D.seen store.old) (F.seen front.old))) }
    requires unused { IfSome (F.seen front.old).told IsUnused }
    requires unasked { IfSome (C.told clock.old) (λ calls. calls ≡ []) }
    ensures run { let opened = opening_by config.entry edition
        (D.seen store.old) (F.seen front.old) in
        IfOk result (λ s. (run : HasRunBy opened (D.seen store.new) (F.seen front.new)
        (C.told clock.new) s.board)
        × WritesAll (K.seen out.old) (K.seen out.new) (text.now ++ open_lines_of run) s.written) }
    ensures follows { Follows (F.seen front.old) (F.seen front.new) }
    ensures still { is_some (C.told clock.new) ≡ is_some (C.told clock.old) }
    ensures clocked { IfOk result
        (λ s. KeepsClock s.board.book.state (C.greatest clock.old) (C.greatest clock.new)) }
    ensures unclocked { OnErr result (C.greatest clock.new ≡ C.greatest clock.old) }
    ensures asked { AsksOnce (F.seen front.old).counts.wakes (F.seen front.new).counts.wakes
        (C.asked clock.old) (C.asked clock.new) }
    ensures faults { IfOk result (λ s. NeverFalls (K.seen out.old).faults (K.seen out.new).faults) }
    ensures unopened { IfErr result
        (IsUnopened (opening.numbers_of config.entry.config.now) (F.seen front.old)
        (F.seen front.new)) }
    ensures store { OnErr result (D.seen store.new ≡ D.seen store.old) }
    ensures clock { OnErr result (C.told clock.new ≡ C.told clock.old) }
    ensures silent { OnErr result (K.seen out.new ≡ K.seen out.old) }
{
    let numbers = numbers_of(config.config);
    let Ok(ready) = Ready::make(alloc) else {
        return Err(OpenFault::NoMemory);
    };
    let Ok(board) = open_board::<L, N>(alloc, numbers) else {
        return Err(OpenFault::NoMemory);
    };
    let Ok(bell) = front.bell(alloc) else {
        return Err(OpenFault::NoMemory);
    };
    if !front.bind(numbers.listen, numbers.control) {
        return Err(OpenFault::Bind);
    }
    board.show();
    folds_join();
    generations_keep_their_editions();
    let written = write_all(out, text);
    let mut listener = Listener {
        alloc,
        board,
        config,
        edition,
        ready,
        hands: Hands { bell: &bell, gate },
        written,
    };
    listen(&mut listener, rt, store, front, clock, out);
    let Listener {
        alloc: _,
        board,
        config: _,
        edition: _,
        ready: _,
        hands: _,
        written,
    } = listener;
    show_run(&board, numbers);
    Ok(ServedRun {
        board: board.forget(),
        written,
    })
}

/// A board by the numbers.
fn open_board<L: Link, N: Known>(
    alloc: Global,
    numbers: RunNumbers,
) -> Result<Board<L, N>, NoMemory>
    requires numbers { AreNumbers numbers }
    ensures book { IfOk result (λ board. board.book ≡ opened_book numbers) }
{
    Board::make(
        alloc,
        numbers.slots,
        numbers.children,
        numbers.passes,
        numbers.shape,
    )
}

/// What a board shows of its run, behind what was folded of it: each state on the way was sound, and where no connection is live each one
/// that was taken ended, and the links that tell are, each once, ones that were taken; folded connections among them. Does nothing.
fn show_run<L: Link, N: Known>(board: &Board<L, N>, numbers: RunNumbers)
    requires passes { board.now.book.passes ≡ numbers.passes }
    requires timely { AreTimely board.now.book.base board.now.book.history }
    ensures run { (before : HasFolded numbers board.now.book) → IsRunFrom numbers board.now }
    ensures closed { (before : HasFolded numbers board.now.book)
        → IsClosedDown board.now.book.state
        → HasClosedAll board.now }
    ensures links { (clients : List (List ℕ)) (before : HasFolded numbers board.now.book)
        → EndedOfOutside N.known (whole_book numbers before.entries) before.ended
        → clients_known N.known ≡ Some clients
        → IsClosedDown board.now.book.state
        → EndsLinks board.now.book.state (all_ended numbers board.now before) }
    ensures receive { (clients : List (List ℕ)) (before : HasFolded numbers board.now.book)
        → EndedOfOutside N.known (whole_book numbers before.entries) before.ended
        → clients_known N.known ≡ Some clients
        → AllReceive clients (all_ended numbers board.now before) }
    ensures outside { AreOfOutside N.known board.now }
    ensures backed { BacksWaits numbers board.now }
{
    ended_connections_are_backed();
    events_keep_states_sound();
    accepted_connections_are_closed_or_live();
    ended_links_are_of_closed_connections();
    made_histories_are_runs();
    folds_join();
    show_for_folds(board);
    board.show();
}
