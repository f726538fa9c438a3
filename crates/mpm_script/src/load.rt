//! The script of a load. Which lines it has stands in `specs/Load.antt`.
ghost use Rattle.std.specs.Prelude.{◌≡◌, ℕ, ◌≤◌, ◌++◌, ◌∷◌, [], decimal, map, IfOk, OnOk};
ghost use Rattle.std.specs.List.{flat_map, range_with_len, repeat};
ghost use Rattle.mpm_script.specs.FileNames.{HaveTextNames};
ghost use Rattle.mpm_script.specs.Load.{load_connection, load_file, load_file_bytes, load_file_name, load_lines, load_name, load_request, load_sent};

use crate::script::Script;
use mpm_base::{ClientAct, NoMemory, Octets, ScriptLine, SiteLine};
use std::alloc::Global;

/// The script of a load: ten files, and so many connections, at most 100,000, that arrive ten milliseconds apart. Each sends one,
/// two or three requests for one of the files, and ends five milliseconds later.
pub fn load_script(alloc: Global, n: u32) -> Result<Script, NoMemory>
    requires some { 1 ≤ n }
    requires few { n ≤ 100000 }
    ensures lines { IfOk result (λ script. script ≡ load_lines n) }

    // So the files that its lines set have UTF-8 names.
    ensures names { IfOk result (λ script. HaveTextNames script) }
{
    load_names_are_texts();
    let mut script = Script::make(alloc);
    add_files(alloc, &mut script)?;
    add_connections(alloc, &mut script, n)?;
    Ok(script)
}

/// The files of such a script have UTF-8 names.
fn load_names_are_texts()
    ensures { (n : ℕ) → HaveTextNames (load_lines n) }
{}

/// Puts the lines of the ten files at the end.
fn add_files(alloc: Global, script: &mut Script) -> Result<(), NoMemory>
    ensures { OnOk result (script.new ≡ script.old ++ map load_file (range_with_len 0 10)) }
{
    for number in 0..10 {
        script.add(file_line(alloc, number)?)?;
    }
    Ok(())
}

/// Puts the lines of so many connections at the end.
fn add_connections(alloc: Global, script: &mut Script, count: u32) -> Result<(), NoMemory>
    ensures { OnOk result
        (script.new ≡ script.old ++ flat_map load_connection (range_with_len 0 count)) }
{
    for number in 0..count {
        add_connection(alloc, script, number)?;
    }
    Ok(())
}

/// Puts the lines of the connection of that number at the end.
fn add_connection(alloc: Global, script: &mut Script, number: u32) -> Result<(), NoMemory>
    ensures { OnOk result (script.new ≡ script.old ++ load_connection number) }
{
    let moment = 10 * u64::from(number);
    let act = ClientAct::Send(sent_of(alloc, number)?);
    script.add(ScriptLine::At(moment))?;
    script.add(ScriptLine::Conn(name_of(alloc, number)?))?;
    script.add(ScriptLine::Client(name_of(alloc, number)?, act))?;
    script.add(ScriptLine::At(moment + 5))?;
    script.add(ScriptLine::Client(name_of(alloc, number)?, ClientAct::End))
}

/// The line that sets the file of that number.
fn file_line(alloc: Global, number: u32) -> Result<ScriptLine, NoMemory>
    ensures { IfOk result (λ line. line ≡ load_file number) }
{
    let name = numbered(alloc, b"htdocs/f", number, b".txt")?;
    let bytes = numbered(alloc, b"file ", number, b"\n")?;
    Ok(ScriptLine::Site(SiteLine::File(name, bytes)))
}

/// The name of the connection of that number.
fn name_of(alloc: Global, number: u32) -> Result<Octets, NoMemory>
    ensures { IfOk result (λ name. name ≡ load_name number) }
{
    let mut name = Octets::of(alloc, b"c")?;
    name.add_number(u64::from(number))?;
    Ok(name)
}

/// What the client of the connection of that number sends.
fn sent_of(alloc: Global, number: u32) -> Result<Octets, NoMemory>
    ensures { IfOk result (λ bytes. bytes ≡ load_sent number) }
{
    let request = numbered(
        alloc,
        b"GET /f",
        number % 10,
        b".txt HTTP/1.1\r\nHost: localhost\r\n\r\n",
    )?;
    repeated(alloc, request.as_slice(), 1 + number % 3)
}

/// The text so many times.
fn repeated(alloc: Global, text: &[u8], count: u32) -> Result<Octets, NoMemory>
    ensures { IfOk result (λ bytes. bytes ≡ repeat count text.now) }
{
    let mut bytes = Octets::make(alloc);
    for _made in 0..count {
        bytes.add(text)?;
    }
    Ok(bytes)
}

/// The decimal digits of the number between two texts.
fn numbered(alloc: Global, before: &[u8], number: u32, behind: &[u8]) -> Result<Octets, NoMemory>
    ensures { IfOk result (λ bytes. bytes ≡ before.now ++ decimal number ++ behind.now) }
{
    let mut bytes = Octets::of(alloc, before)?;
    bytes.add_number(u64::from(number))?;
    bytes.add(behind)?;
    Ok(bytes)
}
