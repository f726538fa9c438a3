//! What the line of a directive sets.
ghost use Rattle.std.specs.Prelude.{◌≡◌, IfSome, IfOk, MatchResult, Ok, Err};
ghost use Rattle.mpm_config.specs.Setting.{assignment, of_value, of_words, setting_of};
ghost use Rattle.mpm_config.specs.SettingInside.{IsSettable, IsSettableOne, assignment_shown};
ghost use Rattle.conf_text.specs.Words.{words};

use crate::directive::{Directive, Quantity, named};
use crate::host_name::{are_aliases, is_server_name};
use crate::value::{address, is_file, is_folder, is_log, port, switch, tags_of_value};
use conf_text::{First, first_word};
use mpm_base::Addr;
use type_words::{are_type_words, charset_of_value, table_of_value};

/// What a value sets. Of names, and of a character set, the value itself is kept.
#[derive(Clone, Copy, Debug)]
pub enum Setting {
    Number(Quantity, u32),
    KeepAlive(bool),
    Listen(Addr),
    ControlListen(u16),
    DocumentRoot,
    DirectoryIndex,
    FileETag(bool),
    LastModified(bool),
    MimeTable(bool),
    /// Whether the value names one.
    AddDefaultCharset(bool),
    ServerStatus(bool),
    ServerName,
    TransferLog,
}

/// What the line of a directive does.
#[derive(Clone, Copy, Debug)]
pub enum Assigned<'a> {
    /// It sets what the value spells.
    One(Setting, &'a str),
    /// It adds the words to the names of a host.
    Names(&'a str),
    /// It adds the pairs that the words spell to those of the types.
    Pairs(&'a str),
}

/// What is wrong with the line of a directive.
#[derive(Clone, Copy, Debug, PartialEq, Eq)]
pub enum Wrong {
    /// No directive has that name.
    Name,
    /// There isn't exactly one value, or the directive may not have it.
    Value,
}

impl Directive {
    /// What a value sets, where the directive may have it.
    pub fn setting(self, value: &[u8]) -> Option<Setting>
        ensures value { result ≡ setting_of self value.now }
        ensures settable { IfSome result IsSettable }
    {
        match self {
            Directive::Number(quantity) => Some(Setting::Number(quantity, quantity.read(value)?)),
            Directive::KeepAlive => Some(Setting::KeepAlive(switch(value)?)),
            Directive::Listen => Some(Setting::Listen(address(value)?)),
            Directive::ControlListen => Some(Setting::ControlListen(port(value)?)),
            Directive::DocumentRoot => is_folder(value).then_some(Setting::DocumentRoot),
            Directive::DirectoryIndex => is_file(value).then_some(Setting::DirectoryIndex),
            Directive::FileETag => Some(Setting::FileETag(tags_of_value(value)?)),
            Directive::LastModified => Some(Setting::LastModified(switch(value)?)),
            Directive::MimeTable => Some(Setting::MimeTable(table_of_value(value)?)),
            Directive::AddDefaultCharset => {
                Some(Setting::AddDefaultCharset(charset_of_value(value)?))
            }
            Directive::ServerStatus => Some(Setting::ServerStatus(switch(value)?)),
            Directive::ServerName => is_server_name(value).then_some(Setting::ServerName),
            Directive::TransferLog => is_log(value).then_some(Setting::TransferLog),
            Directive::ServerAlias | Directive::AddType => None,
        }
    }

    /// What the words after the name set, where there is exactly one.
    fn assigned_one(self, line: &str) -> Result<Assigned<'_>, Wrong>
        ensures value { MatchResult result
            (λ a. of_value self (words line.now) ≡ Ok (assignment_shown a))
            (λ wrong. of_value self (words line.now) ≡ Err wrong) }
        ensures settable { IfOk result IsSettableOne }
    {
        let First::Closed(value, after) = first_word(line) else {
            return Err(Wrong::Value);
        };
        let First::End = first_word(after) else {
            return Err(Wrong::Value);
        };
        match self.setting(value.as_bytes()) {
            Some(setting) => Ok(Assigned::One(setting, value)),
            None => Err(Wrong::Value),
        }
    }

    /// What the words after the name set.
    fn assigned(self, line: &str) -> Result<Assigned<'_>, Wrong>
        ensures value { MatchResult result
            (λ a. of_words self (words line.now) ≡ Ok (assignment_shown a))
            (λ wrong. of_words self (words line.now) ≡ Err wrong) }
        ensures settable { IfOk result IsSettableOne }
    {
        match self {
            Directive::ServerAlias => {
                if are_aliases(line) {
                    Ok(Assigned::Names(line))
                } else {
                    Err(Wrong::Value)
                }
            }
            Directive::AddType => {
                if are_type_words(line) {
                    Ok(Assigned::Pairs(line))
                } else {
                    Err(Wrong::Value)
                }
            }
            _ => self.assigned_one(line),
        }
    }
}

/// What the line of a directive does.
pub fn read_assignment(line: &str) -> Result<Assigned<'_>, Wrong>
    ensures value { MatchResult result
        (λ a. assignment line.now ≡ Ok (assignment_shown a))
        (λ wrong. assignment line.now ≡ Err wrong) }
    ensures settable { IfOk result IsSettableOne }
{
    let First::Closed(name, after) = first_word(line) else {
        return Err(Wrong::Value);
    };
    match named(name.as_bytes()) {
        Some(directive) => directive.assigned(after),
        None => Err(Wrong::Name),
    }
}
