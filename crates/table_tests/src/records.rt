//! The record of a value that never folded, and the laws.
use conn_machine::{Folded, laws, laws_of_runs};
use mpm_base::NoMemory;
use std::alloc::Global;
use test_rows::{Sheet, small_of};

/// Shows the record of a value that never folded, for so many passes as each row says.
pub fn show_records(sheet: &mut Sheet, alloc: Global, rows: &str) -> Result<(), NoMemory> {
    for row in rows.lines() {
        println!(sheet; "{row} =>");
        let folded = Folded::opening(alloc, small_of(row))?;
        show_record(sheet, &folded);
    }
    Ok(())
}

/// Shows what the record counts, and what it keeps.
fn show_record(sheet: &mut Sheet, folded: &Folded) {
    print!(sheet;
        "entries {}, accepted {}, closed {}, responses {}, causes {:?}",
        folded.entries, folded.accepted, folded.closed, folded.responses, folded.causes
    );
    println!(sheet;
        ", children {}, ticks {}, readies {}, orders {}",
        folded.children, folded.ticks, folded.readies, folded.orders
    );
    println!(sheet;
        "lines {}, {:?}, ordinals {:?}, rows {:?}",
        folded.lines.len(),
        folded.editions.as_slice(),
        folded.ordinals.as_slice(),
        folded.rows.as_slice()
    );
}

/// Calls each law of the machine, which does nothing.
pub fn call_laws() {
    laws::events_keep_states_sound();
    laws::queues_and_holds_are_earned();
    laws::accepted_connections_are_closed_or_live();
    laws::arrivals_are_taken_once();
    laws::closed_names_stay_closed();
    laws::live_connections_share_nothing();
    laws::live_connections_have_one_owner();
    laws::replaced_generations_take_nothing();
    laws::retired_children_are_drained();
    laws::connections_go_to_the_chosen_child();
    laws::taken_connections_start_afresh();
    laws::lingering_deadlines_never_move();
    laws::responses_only_grow();
    laws::each_pass_has_its_own_connection();
    laws::connections_stay_while_others_go_on();
    laws::passes_leave_the_rest_to_the_listener();
}

/// Calls each law of histories that go on, which does nothing.
pub fn call_laws_of_runs() {
    laws_of_runs::histories_go_on_by_one_entry();
    laws_of_runs::passes_add_entries();
    laws_of_runs::histories_join();
    laws_of_runs::made_histories_are_runs();
    laws_of_runs::records_open_with_nothing();
    laws_of_runs::records_go_on_by_folds();
    laws_of_runs::histories_keep_sizes();
    laws_of_runs::children_change_one_at_a_time();
    laws_of_runs::rows_change_one_at_a_time();
}
