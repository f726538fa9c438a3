//! One run of the input: the words of its command line, the files of its folder, its front, and which calls fail.
use mpm_base::{NoMemory, Octets, Words};
use stand_ins::{Calls, Files};
use std::alloc::Global;
use test_rows::{number_of, words};

/// What is shown besides of a run that opened.
#[derive(Clone, Copy, Default)]
pub struct View {
    /// The history.
    pub history: bool,
    /// Moment by moment how many connections were taken and closed, in place of each connection.
    pub moments: bool,
    /// Nothing but the report.
    pub report: bool,
    /// How many entries were folded, and how many are kept.
    pub entries: bool,
    /// Of the history the commands alone.
    pub commands: bool,
    /// What the senders of command lines were answered.
    pub answers: bool,
}

/// What a run is to be over.
#[derive(Drop)]
pub struct Case {
    /// The words of the command line.
    pub words: Words,
    /// The files of the folder, but for the last one.
    pub files: Files,
    /// The files of the later editions of the folder, but for the last file.
    pub later: Vec<Files>,
    /// The name of the last file; empty where an edition has none yet.
    pub name: String,
    /// The bytes of the last file.
    pub file: Octets,
    /// The name of the file whose script the front plays; nothing comes of the front where there is none.
    pub front: Option<String>,
    /// The waits of that front that fail.
    pub bad_waits: Calls,
    /// The accepts of that front that fail.
    pub bad_accepts: Calls,
    /// The watches of that front that fail.
    pub bad_watches: Calls,
    /// The calls of `dial` fail.
    pub undialled: bool,
    /// What comes back of a dial.
    pub back: Octets,
    /// The calls of the store that fail.
    pub bad_reads: Calls,
    /// The calls of the output that fail.
    pub bad_writes: Calls,
    /// The output takes single bytes.
    pub slow: bool,
    /// What is shown besides of a run that opened.
    pub view: View,
    /// A line says nothing of a run.
    pub strange: bool,
}

impl Case {
    /// A run of which nothing was said.
    pub fn make(alloc: Global) -> Case {
        Case {
            words: Words::make(alloc),
            files: Files::make(alloc),
            later: Vec::new(alloc),
            name: String::new(alloc),
            file: Octets::make(alloc),
            front: None,
            bad_waits: Calls::make(alloc),
            bad_accepts: Calls::make(alloc),
            bad_watches: Calls::make(alloc),
            undialled: false,
            back: Octets::make(alloc),
            bad_reads: Calls::make(alloc),
            bad_writes: Calls::make(alloc),
            slow: false,
            view: View::default(),
            strange: false,
        }
    }
}

/// Takes what the lines say of the run, whose first file is `s`.
pub fn take_lines(alloc: Global, case: &mut Case, lines: &str) -> Result<(), NoMemory> {
    begin_file(alloc, case, "s")?;
    for line in lines.lines() {
        take_line(alloc, case, line)?;
    }
    put_down_file(case)
}

/// Takes what the line says of the run.
fn take_line(alloc: Global, case: &mut Case, line: &str) -> Result<(), NoMemory> {
    let (word, rest) = words(line);
    match word {
        "words" => add_words(&mut case.words, rest),
        "file" => begin_file(alloc, case, rest),
        "edition" => begin_edition(alloc, case),
        "|" => add_line(&mut case.file, rest),
        "+" => case.file.add(rest.as_bytes()),
        "times" => add_often(&mut case.file, rest),
        "each" => add_each(&mut case.file, rest),
        _ => take_setting(alloc, case, word, rest),
    }
}

/// Takes what the line of that word says of the front of the run, and of the calls that fail.
fn take_setting(alloc: Global, case: &mut Case, word: &str, rest: &str) -> Result<(), NoMemory> {
    match word {
        "front" => set_front(alloc, case, rest),
        "back" => add_line(&mut case.back, rest),
        "wait" => case.bad_waits.add(number_of(rest)),
        "accept" => case.bad_accepts.add(number_of(rest)),
        "watch" => case.bad_watches.add(number_of(rest)),
        "store" => case.bad_reads.add(number_of(rest)),
        "output" => case.bad_writes.add(number_of(rest)),
        _ => {
            take_word(case, word);
            Ok(())
        }
    }
}

/// Has the front of the run play the script of the file of that name.
fn set_front(alloc: Global, case: &mut Case, name: &str) -> Result<(), NoMemory> {
    case.front = Some(String::from_str(alloc, name)?);
    Ok(())
}

/// Takes what the word says of the run.
fn take_word(case: &mut Case, word: &str) {
    match word {
        "slow" => case.slow = true,
        "undialled" => case.undialled = true,
        "history" => case.view.history = true,
        "moments" => case.view.moments = true,
        "report" => case.view.report = true,
        "entries" => case.view.entries = true,
        "commands" => case.view.commands = true,
        "answers" => case.view.answers = true,
        _ => case.strange = true,
    }
}

/// Puts the last file down, and begins one of that name.
fn begin_file(alloc: Global, case: &mut Case, name: &str) -> Result<(), NoMemory> {
    put_down_file(case)?;
    case.name = String::from_str(alloc, name)?;
    case.file = Octets::make(alloc);
    Ok(())
}

/// Puts the last file down, and begins a further edition, without files.
fn begin_edition(alloc: Global, case: &mut Case) -> Result<(), NoMemory> {
    begin_file(alloc, case, "")?;
    match case.later.push(Files::make(alloc)) {
        Ok(()) => Ok(()),
        Err(_) => Err(NoMemory),
    }
}

/// Puts the last file, where there is one, to the others of the last edition.
fn put_down_file(case: &mut Case) -> Result<(), NoMemory> {
    if case.name.is_empty() {
        return Ok(());
    }
    match case.later.last_mut() {
        Some(files) => files.set(case.name.as_str(), case.file.as_slice()),
        None => case.files.set(case.name.as_str(), case.file.as_slice()),
    }
}

/// Puts the words of the list at the end, where it isn't empty.
fn add_words(words: &mut Words, list: &str) -> Result<(), NoMemory> {
    if list.is_empty() {
        return Ok(());
    }
    for word in list.split(' ') {
        words.add(word)?;
    }
    Ok(())
}

/// Puts the text at the end, and the end of a line.
fn add_line(file: &mut Octets, text: &str) -> Result<(), NoMemory> {
    file.add(text.as_bytes())?;
    file.add(b"\n")
}

/// Puts a text at the end as often as the number before it says.
fn add_often(file: &mut Octets, row: &str) -> Result<(), NoMemory> {
    let (count, text) = words(row);
    for _ in 0..number_of(count) {
        file.add(text.as_bytes())?;
    }
    Ok(())
}

/// Puts a line at the end for each number from the first one up to the second, which isn't among them.
fn add_each(file: &mut Octets, row: &str) -> Result<(), NoMemory> {
    let (first, rest) = words(row);
    let (end, text) = words(rest);
    for number in number_of(first)..number_of(end) {
        add_numbered(file, text, number)?;
    }
    Ok(())
}

/// Puts the text at the end, the number in place of each `#` of it, and the end of a line.
fn add_numbered(file: &mut Octets, text: &str, number: u64) -> Result<(), NoMemory> {
    let mut parts = text.split('#');
    let first = parts.next().unwrap_or("");
    file.add(first.as_bytes())?;
    for part in parts {
        file.add_number(number)?;
        file.add(part.as_bytes())?;
    }
    file.add(b"\n")
}
