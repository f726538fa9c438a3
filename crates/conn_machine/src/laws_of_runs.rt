//! Laws of histories that go on: what comes and what stays where one entry is added, or the entries of a pass, and where one
//! row or child changes. Each is the contract of a function that does nothing. Who reads what the table is worth begins with `laws`;
//! these are for the crates that keep a history. They stand in full in `specs/HistoryLaws.antt`.
ghost use Rattle.conn_machine.specs.Table.{next};
ghost use Rattle.conn_machine.specs.Runs.{after};
ghost use Rattle.conn_machine.specs.Generations.{GenerationsBeginInOrder};
ghost use Rattle.conn_machine.specs.HistoryLaws.{HistoriesGoOnByOneEntry, PassesAddEntries, RecordsOpenWithNothing, RecordsGoOnByFolds, FoldsAreOneFold, HistoriesJoin, MadeHistoriesAreRuns, HistoriesKeepSizes, RowsChangeOneAtATime, ChildrenChangeOneAtATime};

/// A history that goes on by one entry has the state that the machine makes of the event. It stays a history of the machine,
/// and one that passes made, where the entry is one that its pass may make; of its pass it is the last entry, and no other
/// pass's; and it leaves its pass the connection that its event says.
pub fn histories_go_on_by_one_entry()
    ensures { HistoriesGoOnByOneEntry }
{}

/// What a pass adds is nothing, or one entry that it may make, or what it adds in two steps. A history that passes made
/// stays so, and one of so many passes stays one of theirs; every other pass has made what it had made, and has the
/// connection that it had.
pub fn passes_add_entries()
    ensures { PassesAddEntries }
{}

/// The record of a value that never folded has the number 0 and no connection for each pass, also for one that has no place in it.
/// So behind it a pass has the connection that its entries alone give it.
pub fn records_open_with_nothing()
    ensures { RecordsOpenWithNothing }
{}

/// A fold takes the record on by what each pass did in the history, where the record has a place for each pass that made an
/// entry, and leaves it as many places. Where a record goes on from another one and a history, each pass has the same connection
/// behind it, and may make the same entries.
pub fn records_go_on_by_folds()
    ensures { RecordsGoOnByFolds }
{}

/// Two folds, one behind the other, are one fold of both histories, where as many connections ended as the first one closed: so
/// whatever was folded, the record is what one fold makes of all the entries. What passes made behind a fold is made behind all
/// entries too. What a record counts stays within the number of its entries. And where a server opens a fold of nothing is the opening
/// record.
pub fn folds_are_one_fold()
    ensures { FoldsAreOneFold }
{}

/// Generations begin one by one, in the order of the commands that begin them: each has the next number, and the edition that is the
/// number of its order. One is in use only from then on, and as long as it is the newest or a child of it is there. In a sound state that
/// of each live connection is, so what is kept of the editions in use finds the edition of each.
pub fn generations_begin_in_order()
    ensures { GenerationsBeginInOrder }
{}

/// The state after two histories, one behind the other, and the entries of a pass in both.
pub fn histories_join()
    ensures { HistoriesJoin }
{}

/// A history that passes made is a run of the machine, in the order of its passes, and a pass that made no entry has the
/// connection that it had before.
pub fn made_histories_are_runs()
    ensures { MadeHistoriesAreRuns }
{}

/// A history keeps how many rows, children and signals there are.
pub fn histories_keep_sizes()
    ensures { HistoriesKeepSizes }
{}

/// A change of one row leaves each other row, and how many there are. No more rows pass a test where the changed one passes
/// only if it did before, and never more than one more; and none passes where none did and the changed one doesn't.
pub fn rows_change_one_at_a_time()
    ensures { RowsChangeOneAtATime }
{}

/// A change of one child leaves each other child, and how many there are.
pub fn children_change_one_at_a_time()
    ensures { ChildrenChangeOneAtATime }
{}
