//! The sites of responses and connections.
ghost use Rattle.std.specs.Prelude.{◌≡◌, IfOk, IsUtf8};
ghost use Rattle.file_table.specs.Site.{IsLoadable};

use failing_stand_ins::MemStore;
use file_table::{HostOrder, HostOrders, Marks, Site, SiteOrder, load};
use media_types::{MediaTypes, TypePair, TypePairs};
use mpm_base::{Names, NoMemory, Octets, Second};
use stand_ins::{Calls, Files};
use std::alloc::Global;
use std::sync::Arc;
use test_rows::{Marks as TextMarks, number_of, text_of, words};

/// An index, ten digits, a folder and an empty file: of each its name, the second of its last change, and its bytes, in which `|` stands for
/// a line feed.
const DIGITS: &str = "htdocs/index.html 0 hello|
htdocs/n.txt 0 0123456789
htdocs/docs/index.html 0 D
htdocs/empty.gif 0 ";

/// The files of two hosts, of which each has an index and a file of its own.
const OF_HOSTS: &str = "sites/a/index.html 0 A|
sites/a/a.txt 0 of a|
sites/b/docs/b.txt 0 of b|
sites/b/index.html 0 B|";

/// Files of which one was changed later than the others, and a folder.
const CHANGED: &str = "htdocs/a.txt 0 A|
htdocs/ten.txt 0 0123456789
htdocs/b.txt 5 B|
htdocs/docs/index.html 0 D";

/// Files of many types.
const TYPED: &str = "htdocs/index.html 0 x
htdocs/a.txt 0 x
htdocs/a.md 0 x
htdocs/b.tar.MD 0 x
htdocs/f.woff2 0 x
htdocs/h.named 0 x
htdocs/m.mjs 0 x
htdocs/p.JPG 0 x
htdocs/s.css 0 x
htdocs/w.wasm 0 x
htdocs/x.unknown 0 x";

/// Sets the file of which this stands in a list.
fn set_file(alloc: Global, files: &mut Files, text: &str) -> Result<(), NoMemory> {
    let (name, rest) = words(text);
    let (second, bytes) = words(rest);
    let bytes = text_of(alloc, bytes, TextMarks::Lines)?;
    files.set_at(name, bytes.as_slice(), Second::of(number_of(second)))
}

/// The files of the list.
fn files_of(alloc: Global, list: &str) -> Result<Files, NoMemory> {
    let mut files = Files::make(alloc);
    for text in list.lines() {
        set_file(alloc, &mut files, text)?;
    }
    Ok(files)
}

/// The list of the files of the site that the word names.
fn list_named(word: &str) -> &'static str {
    match word {
        "hosts" => OF_HOSTS,
        "tags" | "times" | "marks" => CHANGED,
        "short" | "long" | "added" | "charset" => TYPED,
        _ => DIGITS,
    }
}

/// A host of these names, whose root is this folder.
fn host_of(alloc: Global, names: &[&str], root: &str) -> Result<HostOrder, NoMemory>
    ensures { IfOk result (λ order. IsUtf8 order.root) }
{
    let mut list = Names::make(alloc);
    for name in names {
        list.push(Octets::of(alloc, name.as_bytes())?)?;
    }
    Ok(HostOrder {
        names: list,
        root: Octets::of(alloc, root.as_bytes())?,
        index: Octets::of(alloc, b"index.html")?,
    })
}

/// The hosts `a.example`, and `b.example` with `www.b.example`.
fn two_hosts(alloc: Global) -> Result<SiteOrder, NoMemory>
    ensures { IfOk result IsLoadable }
{
    let mut hosts = HostOrders::make(alloc);
    hosts.push(host_of(alloc, &["a.example"], "sites/a")?)?;
    hosts.push(host_of(alloc, &["b.example", "www.b.example"], "sites/b")?)?;
    Ok(SiteOrder {
        hosts,
        status: true,
        marks: Marks {
            tags: false,
            times: false,
        },
        types: MediaTypes::usual(alloc),
    })
}

/// Puts a pair at the end.
fn add_pair(
    alloc: Global,
    pairs: &mut TypePairs,
    extension: &str,
    media: &str,
) -> Result<(), NoMemory> {
    let extension = Octets::of(alloc, extension.as_bytes())?;
    let media = Octets::of(alloc, media.as_bytes())?;
    pairs.push(TypePair { extension, media })
}

/// Sets the types that the word names: by the short table or the long one, with pairs, or with a character set.
fn set_types(alloc: Global, types: &mut MediaTypes, word: &str) -> Result<(), NoMemory> {
    types.long = word == "long";
    if word == "added" {
        add_pair(alloc, &mut types.added, "md", "text/markdown")?;
        add_pair(alloc, &mut types.added, "txt", "text/markdown")?;
        add_pair(alloc, &mut types.added, "txt", "text/plain")?;
    }
    if word == "charset" {
        add_pair(
            alloc,
            &mut types.added,
            "named",
            "text/html; charset=latin1",
        )?;
        types.charset = Some(Octets::of(alloc, b"utf-8")?);
    }
    Ok(())
}

/// What the site is made of that the word names.
fn order_named(alloc: Global, word: &str) -> Result<SiteOrder, NoMemory>
    ensures { IfOk result IsLoadable }
{
    if word == "hosts" {
        return two_hosts(alloc);
    }
    let mut order = SiteOrder::one_host(alloc, "htdocs", "index.html", word != "hidden")?;
    order.marks = Marks {
        tags: matches!(word, "tags" | "marks"),
        times: matches!(word, "times" | "marks"),
    };
    set_types(alloc, &mut order.types, word)?;
    Ok(order)
}

/// The site of these files by the order.
fn load_by(alloc: Global, files: Files, order: &SiteOrder) -> Result<Site, NoMemory>
    requires { IsLoadable order.now }
{
    let mut store = MemStore::make(alloc, files, Calls::make(alloc));
    match load(alloc, &mut store, order) {
        Ok(site) => Ok(site),
        Err(_) => Err(NoMemory),
    }
}

/// The site of these files, made as the word says.
fn load_named(alloc: Global, files: Files, word: &str) -> Result<Site, NoMemory> {
    let order = order_named(alloc, word)?;
    load_by(alloc, files, &order)
}

/// The site that the word names: with files that have tags, times or both (`tags`, `times`, `marks`), with types by the short table, by the
/// long one, with pairs or with a character set (`short`, `long`, `added`, `charset`), with two hosts (`hosts`), or of an index and ten
/// digits, with the status page or without (`hidden`).
pub fn site_named(alloc: Global, word: &str) -> Result<Arc<Site>, NoMemory> {
    let files = files_of(alloc, list_named(word))?;
    let site = load_named(alloc, files, word)?;
    Ok(Arc::new(alloc, site)?)
}

/// A site of one file, `large.bin`, with these bytes.
pub fn large_site(alloc: Global, bytes: &[u8]) -> Result<Arc<Site>, NoMemory> {
    let mut files = Files::make(alloc);
    files.set("htdocs/large.bin", bytes)?;
    let site = load_named(alloc, files, "large")?;
    Ok(Arc::new(alloc, site)?)
}
