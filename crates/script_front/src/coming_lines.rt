//! Which lines of a script happen next.
ghost use Rattle.std.specs.Prelude.{◌≡◌, ◌+◌, ◌≤◌, take, drop, length};
ghost use Rattle.mpm_base.specs.Front.{earlier};
ghost use Rattle.mpm_script.specs.Clients.{names_of};
ghost use Rattle.mpm_script.specs.Commands.{command_lines_of};
ghost use Rattle.script_front.specs.PlayedFrontInside.{happens_by, is_at, is_command, is_conn};
ghost use Rattle.script_front.specs.ScriptFront.{lines_by, lines_now, next_moment};

use mpm_base::{Moment, ScriptLine};

/// So many lines behind the first ones.
pub(crate) fn next_lines(lines: &[ScriptLine], happened: usize, count: usize) -> &[ScriptLine]
    requires { happened + count ≤ length lines.now }
    ensures { result.now ≡ take count (drop happened lines.now) }
{
    &lines[happened..happened + count]
}

/// How many lines stand before the first `at`.
#[tactic(auto, using(crate::proofs::ComingLemmas::now_more, crate::proofs::ComingLemmas::now_end))]
pub(crate) fn lines_now(lines: &[ScriptLine]) -> usize
    ensures is { result ≡ lines_now lines.now }
    ensures within { result ≤ length lines.now }
{
    for (place, line) in lines.iter().enumerate() {
        if is_at(line) {
            return place;
        }
    }
    lines.len()
}

/// Whether the line is an `at`.
fn is_at(line: &ScriptLine) -> bool
    ensures { result ≡ is_at line.now }
{
    matches!(line, ScriptLine::At(_))
}

/// How many lines stand before the first `at` of a later moment.
#[tactic(auto, using(crate::proofs::ComingLemmas::by_more, crate::proofs::ComingLemmas::by_end))]
pub(crate) fn lines_by(moment: Moment, lines: &[ScriptLine]) -> usize
    ensures is { result ≡ lines_by moment lines.now }
    ensures within { result ≤ length lines.now }
{
    for (place, line) in lines.iter().enumerate() {
        if !happens_by(moment, line) {
            return place;
        }
    }
    lines.len()
}

/// Whether the line is no `at` of a later moment.
fn happens_by(moment: Moment, line: &ScriptLine) -> bool
    ensures { result ≡ happens_by moment line.now }
{
    match line {
        ScriptLine::At(at) => *at <= moment,
        _ => true,
    }
}

/// The moment of the first of the lines, where it is an `at`.
pub(crate) fn next_moment(lines: &[ScriptLine]) -> Option<Moment>
    ensures { result ≡ next_moment lines.now }
{
    match lines.first() {
        Some(ScriptLine::At(moment)) => Some(*moment),
        _ => None,
    }
}

/// The smaller of the moments that are there.
pub(crate) fn earlier(one: Option<Moment>, other: Option<Moment>) -> Option<Moment>
    ensures { result ≡ earlier one other }
{
    match (one, other) {
        (Some(moment), Some(next)) => Some(moment.min(next)),
        (Some(moment), None) => Some(moment),
        (None, next) => next,
    }
}

/// How many connections the lines make.
pub(crate) fn arrivals(lines: &[ScriptLine]) -> usize
    ensures is { result ≡ length (names_of lines.now) }
    ensures within { result ≤ length lines.now }
{
    lines.iter().filter(|line| is_conn(line)).count()
}

/// Whether the line makes a connection.
fn is_conn(line: &ScriptLine) -> bool
    ensures { result ≡ is_conn line.now }
{
    matches!(line, ScriptLine::Conn(_))
}

/// How many command lines the lines bring.
pub(crate) fn commands(lines: &[ScriptLine]) -> usize
    ensures is { result ≡ length (command_lines_of lines.now) }
    ensures within { result ≤ length lines.now }
{
    lines.iter().filter(|line| is_command(line)).count()
}

/// Whether the line is a command.
fn is_command(line: &ScriptLine) -> bool
    ensures { result ≡ is_command line.now }
{
    matches!(line, ScriptLine::Command(_))
}
