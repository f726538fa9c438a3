//! The answers.
ghost use Rattle.run_report.specs.Report.{count_line};
ghost use Rattle.std.specs.Prelude.{◌≡◌, ◌+◌, ◌≤◌, ◌++◌, codes, decimal, length};
ghost use Rattle.command_answers.specs.Answers as spec;

use crate::answer_text::AnswerText;
use conn_machine::Totals;
use file_table::LoadFault;
use mpm_config::ConfFault;
use restart_control::ReloadFault;

/// The answer where a restart began the generation of that number.
pub fn generation_answer(generation: u32) -> AnswerText
    ensures { result ≡ spec.generation_answer generation }
{
    let mut text = AnswerText::of(b"generation ");
    text.add_number(generation as u64);
    text.end_line();
    text
}

/// The answer where a restart came too late.
pub fn late_answer() -> AnswerText
    ensures { result ≡ spec.late_answer }
{
    AnswerText::of(b"refused: late\n")
}

/// The answer where memory lacked for a restart.
pub fn memory_answer() -> AnswerText
    ensures { result ≡ spec.memory_answer }
{
    AnswerText::of(b"refused: memory\n")
}

/// The answer where a restart made no plan.
pub fn refused_answer(fault: &ReloadFault) -> AnswerText
    ensures { result ≡ spec.refused_answer fault.now }
{
    match fault {
        ReloadFault::Absent => AnswerText::of(b"refused: absent\n"),
        ReloadFault::Conf(fault) => conf_answer(*fault),
        ReloadFault::Load(LoadFault::TooLarge(name, _), _) => site_answer(name.as_slice()),
        ReloadFault::Load(LoadFault::TooMany(name), _) => site_answer(name.as_slice()),
        ReloadFault::Load(_, root) => site_answer(root.as_slice()),
        ReloadFault::StoreFault => AnswerText::of(b"refused: store\n"),
        ReloadFault::NoMemory => memory_answer(),
    }
}

/// The answer where the configuration is refused.
fn conf_answer(fault: ConfFault) -> AnswerText
    ensures { result ≡ spec.conf_answer_for fault }
{
    match fault {
        ConfFault::NotText(place) => conf_answer_at(place, b"NotText"),
        ConfFault::UnknownDirective(line) => conf_answer_at(line, b"UnknownDirective"),
        ConfFault::BadValue(line) => conf_answer_at(line, b"BadValue"),
        ConfFault::BadSection(line) => conf_answer_at(line, b"BadSection"),
        ConfFault::Unclosed(line) => conf_answer_at(line, b"Unclosed"),
        ConfFault::TooDeep(line) => conf_answer_at(line, b"TooDeep"),
        ConfFault::NoMemory => memory_answer(),
    }
}

/// The same, where it is refused at that line or place with that word.
fn conf_answer_at(number: u64, word: &[u8]) -> AnswerText
    requires { length word.now ≤ 16 }
    ensures { result ≡ spec.conf_line number word.now }
{
    let mut text = AnswerText::of(b"refused: conf at ");
    text.add_number(number);
    text.add(b": ");
    text.add(word);
    text.end_line();
    text
}

/// The answer where the site is refused for the file or the folder of that name.
fn site_answer(name: &[u8]) -> AnswerText
    ensures { result ≡ spec.site_answer name.now }
{
    let mut text = AnswerText::of(b"refused: site ");
    text.add_cut(name);
    text.end_line();
    text
}

/// The answer to a line that asks for a graceful stop: it begins with that line, or it had begun before.
pub fn ending_answer(begins: bool) -> AnswerText
    ensures { result ≡ spec.ending_answer begins }
{
    if begins {
        AnswerText::of(b"ending\n")
    } else {
        AnswerText::of(b"ending already\n")
    }
}

/// The answer to a line that asks to stop.
pub fn stopping_answer() -> AnswerText
    ensures { result ≡ spec.stopping_answer }
{
    AnswerText::of(b"stopping\n")
}

/// The answer to a line that is no command.
pub fn unknown_answer() -> AnswerText
    ensures { result ≡ spec.unknown_answer }
{
    AnswerText::of(b"no such command\n")
}

/// The answer to a line that asks for the state: the numbers of the status page.
pub fn status_answer(totals: &Totals) -> AnswerText
    ensures { result ≡ spec.status_answer totals.now }
{
    let mut text = AnswerText::empty();
    add_count(&mut text, b"Generation", totals.generation);
    add_count(&mut text, b"BusyWorkers", totals.busy);
    add_count(&mut text, b"IdleWorkers", totals.idle);
    add_count(&mut text, b"ConnsTotal", totals.total);
    add_count(&mut text, b"ConnsAsyncWriting", totals.writing);
    add_count(&mut text, b"ConnsAsyncKeepAlive", totals.keep_alive);
    add_count(&mut text, b"ConnsAsyncClosing", totals.closing);
    text
}

/// Puts a line with a number at the end.
fn add_count(text: &mut AnswerText, name: &[u8], count: u32)
    requires name { length name.now ≤ 19 }
    requires room { length text.old + 42 ≤ 512 }
    ensures is { text.new ≡ text.old ++ count_line name.now count }
    ensures len { length text.new ≤ length text.old + 42 }
{
    text.add(name);
    text.add(b": ");
    text.add_number(count as u64);
    text.add(b"\n");
}

/// What the output has of such a line: the same numbers in one line.
pub fn open_line(totals: &Totals) -> AnswerText
    ensures { result ≡ spec.open_line totals.now }
{
    let mut text = AnswerText::of(b"open: ");
    add_field(&mut text, totals.generation);
    add_field(&mut text, totals.busy);
    add_field(&mut text, totals.idle);
    add_field(&mut text, totals.total);
    add_field(&mut text, totals.writing);
    add_field(&mut text, totals.keep_alive);
    text.add_number(totals.closing as u64);
    text.end_line();
    text
}

/// Puts a number and a space at the end.
fn add_field(text: &mut AnswerText, number: u32)
    requires { length text.old + 21 ≤ 512 }
    ensures is { text.new ≡ text.old ++ decimal number ++ codes " " }
    ensures len { length text.new ≤ length text.old + 21 }
{
    text.add_number(number as u64);
    text.add(b" ");
}
