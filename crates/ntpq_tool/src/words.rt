ghost use Rattle.std.specs.Prelude.{◌≡◌, ◌≤◌, ◌+◌, ◌++◌, ◌∷◌, ◌↔◌, [], Ok, Some, true, map, string_bytes, codes, length, IsNone, IsTrue, IfSome, IfOk, flat_map};
ghost use Rattle.std.specs.List.{AllByRecursion, list_all};
ghost use Rattle.mode6_frame.specs.declared.message.TheConstants.{MAX_BODY};
ghost use Rattle.ntpq_tool.specs.declared.words.Command.{Command};
ghost use Rattle.ntpq_tool.specs.declared.words.Wanted.{Wanted};
ghost use Rattle.ntpq_tool.specs.Command.{IsCommand, IsNoCommand, AreFor, IsName, is_name_octet, joined};

use crate::options::read_query;
use edge_traits::Text;
use mode6_frame::MAX_BODY;
use mru_items::Query;
use net_addr::{Addr, read_text};
use std::alloc::{AllocError, Global};
use text_words::read_decimal_within;

/// The port of NTP (RFC 5905, section 7.1).
pub const NTP_PORT: u16 = 123;

/// The greatest number of an association (RFC 9327, section 2).
pub const MAX_ASSOC: u32 = 65_535;

/// The most octets of the name of a variable (our own rule).
pub const MAX_NAME: usize = 32;

/// What is wanted of which server.
#[derive(Drop)]
pub struct Command {
    pub server: Addr,
    pub what: Wanted,
}

/// What is wanted of a server.
#[derive(Drop)]
pub enum Wanted {
    /// Variables of an association, or of the system where that is 0: those of these names, which
    /// commas join, or all where there is none.
    Variables { assoc: u16, names: Text },
    /// The numbers of the associations, and their status words.
    Associations,
    /// A line for each association.
    Peers,
    /// A line for each client of the server.
    Clients { query: Query },
}

/// The command of these words, which follow the program's name.
pub fn read_command(alloc: Global, words: &[String]) -> Result<Option<Command>, AllocError>
    ensures found { IfOk result (λ found. IfSome found (IsCommand (map string_bytes words.now))) }
    ensures only { (command : Command) → IsCommand (map string_bytes words.now) command
        → IfOk result (λ found. found ≡ Some command) }
    ensures none { IfOk result (λ found. IsNone found ↔ IsNoCommand (map string_bytes words.now)) }
{
    let Some((host, behind)) = words.split_first() else {
        return Ok(None);
    };
    read_at(alloc, host.as_str().as_bytes(), behind)
}

/// The command of a host's text and the words behind it.
fn read_at(alloc: Global, host: &[u8], behind: &[String]) -> Result<Option<Command>, AllocError>
    ensures found { IfOk result (λ found. IfSome found
        (IsCommand (host.now ∷ map string_bytes behind.now))) }
    ensures only { (command : Command) → IsCommand (host.now ∷ map string_bytes behind.now) command
        → IfOk result (λ found. found ≡ Some command) }
    ensures none { IfOk result (λ found. IsNone found
        ↔ IsNoCommand (host.now ∷ map string_bytes behind.now)) }
{
    let Some(server) = read_text(host, NTP_PORT) else {
        return Ok(None);
    };
    match read_wanted(alloc, behind)? {
        Some(what) => Ok(Some(Command { server, what })),
        None => Ok(None),
    }
}

/// What the words behind the host want.
fn read_wanted(alloc: Global, words: &[String]) -> Result<Option<Wanted>, AllocError>
    ensures found { IfOk result (λ found. IfSome found (AreFor (map string_bytes words.now))) }
    ensures only { (wanted : Wanted) → AreFor (map string_bytes words.now) wanted
        → IfOk result (λ found. found ≡ Some wanted) }
{
    let Some((first, behind)) = words.split_first() else {
        return Ok(None);
    };
    let name = first.as_str().as_bytes();
    if name == b"rv".as_slice() {
        return read_variables(alloc, behind);
    }
    if name == b"mrulist".as_slice() {
        return Ok(read_clients(behind));
    }
    if behind.is_empty() {
        return Ok(read_alone(name));
    }
    Ok(None)
}

/// What a word wants that stands alone.
fn read_alone(name: &[u8]) -> Option<Wanted>
    requires variables { ¬ (name.now ≡ codes "rv") }
    requires clients { ¬ (name.now ≡ codes "mrulist") }
    ensures found { IfSome result (AreFor (name.now ∷ [])) }
    ensures only { (wanted : Wanted) → AreFor (name.now ∷ []) wanted → result ≡ Some wanted }
{
    if name == b"as".as_slice() {
        Some(Wanted::Associations)
    } else if name == b"peers".as_slice() {
        Some(Wanted::Peers)
    } else {
        None
    }
}

/// The clients that the words behind `mrulist` want.
fn read_clients(words: &[String]) -> Option<Wanted>
    ensures found { IfSome result (AreFor (codes "mrulist" ∷ map string_bytes words.now)) }
    ensures only { (wanted : Wanted) → AreFor (codes "mrulist" ∷ map string_bytes words.now) wanted
        → result ≡ Some wanted }
{
    Some(Wanted::Clients {
        query: read_query(words)?,
    })
}

/// The variables that the words behind `rv` want.
fn read_variables(alloc: Global, words: &[String]) -> Result<Option<Wanted>, AllocError>
    ensures found { IfOk result (λ found. IfSome found
        (AreFor (codes "rv" ∷ map string_bytes words.now))) }
    ensures only { (wanted : Wanted) → AreFor (codes "rv" ∷ map string_bytes words.now) wanted
        → IfOk result (λ found. found ≡ Some wanted) }
{
    let Some((number, behind)) = words.split_first() else {
        return Ok(Some(Wanted::Variables {
            assoc: 0,
            names: Text::of(Vec::new(alloc)),
        }));
    };
    let Some(assoc) = read_decimal_within(number.as_str().as_bytes(), 0, MAX_ASSOC) else {
        return Ok(None);
    };
    match join_names(alloc, behind)? {
        Some(names) => Ok(Some(Wanted::Variables {
            assoc: assoc as u16,
            names,
        })),
        None => Ok(None),
    }
}

/// The words joined by commas: none where one of them is no name, or where they are too long.
fn join_names(alloc: Global, words: &[String]) -> Result<Option<Text>, AllocError>
    ensures found { IfOk result (λ found. IfSome found (λ text.
        AllByRecursion IsName (map string_bytes words.now)
        × (text ≡ joined (map string_bytes words.now)) × (length text ≤ MAX_BODY))) }
    ensures only { AllByRecursion IsName (map string_bytes words.now)
        → length (joined (map string_bytes words.now)) ≤ MAX_BODY
        → IfOk result (λ found. found ≡ Some (joined (map string_bytes words.now))) }
{
    let mut text = Vec::new(alloc);
    let Some((first, behind)) = words.split_first() else {
        return Ok(Some(Text::of(text)));
    };
    let name = first.as_str().as_bytes();
    if !is_name(name) {
        return Ok(None);
    }
    text.extend_from_slice(name)?;
    if append_names(&mut text, behind)? {
        Ok(Some(Text::of(text)))
    } else {
        Ok(None)
    }
}

/// Appends these names, a comma before each, and answers whether all words are names and fit.
fn append_names(text: &mut Vec<u8>, words: &[String]) -> Result<bool, AllocError>
    requires { length text.old.items ≤ MAX_BODY }
    ensures text { result ≡ Ok true → text.new.items
        ≡ text.old.items ++ flat_map (λ name. codes "," ++ name) (map string_bytes words.now) }
    ensures names { IfOk result (λ fit. IsTrue fit
        ↔ (AllByRecursion IsName (map string_bytes words.now)
        × (length text.old.items
        + length (flat_map (λ name. codes "," ++ name) (map string_bytes words.now))
        ≤ MAX_BODY))) }
{
    let Some((first, behind)) = words.split_first() else {
        return Ok(true);
    };
    let name = first.as_str().as_bytes();
    if !is_name(name) || text.len() + 1 + name.len() > MAX_BODY {
        return Ok(false);
    }
    text.push(b',')?;
    text.extend_from_slice(name)?;
    append_names(text, behind)
}

/// Whether a word can be the name of a variable.
fn is_name(word: &[u8]) -> bool
    ensures name { IsTrue result ↔ IsName word.now }
    ensures short { IsTrue result → length word.now ≤ MAX_NAME }
{
    !word.is_empty() && word.len() <= MAX_NAME && are_name_octets(word)
}

/// Whether each octet of a word can stand in the name of a variable.
fn are_name_octets(word: &[u8]) -> bool
    ensures { result ≡ list_all is_name_octet word.now }
{
    word.iter().all(|octet| is_name_octet(*octet))
}

/// Whether an octet can stand in the name of a variable.
fn is_name_octet(octet: u8) -> bool
    ensures { result ≡ is_name_octet octet }
{
    octet.is_ascii_alphanumeric() || octet == b'_' || octet == b'.'
}
