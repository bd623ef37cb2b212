//! The values of arguments that are addresses of sites, or where a site listens.

ghost use Rattle.std.specs.Prelude.{◌≡◌, IfOk, MatchBool, filter, map, not, option_map};
ghost use Rattle.std.specs.List.{AllZip, list_all, list_any};
ghost use Rattle.std.specs.Str.{bytes_eq};
ghost use Rattle.command_line.specs.Asking.{HasKeys, NamesEachPeerOnce, has_repeat, words_of};
ghost use Rattle.command_line.specs.Values.{Finds, GivesAnyPage, GivesAnyPeer, GivesHosts, GivesPaths, GivesPeers};
ghost use Rattle.command_line.specs.Values.{NamesPage};
ghost use Rattle.command_tree.specs.Rows.{rows_in};
ghost use Rattle.site_address.specs.Address.{has_slash};
ghost use Rattle.site_address.specs.Host.{NamesHostPort};
ghost use Rattle.site_address.specs.Peer.{NamesPeer, is_there};

use super::asked::PageAddress;
use command_tree::Values;
use site_address::{HostPort, PeerAddress, has_slash, host_port_of, is_there, peer_of};
use std::alloc::{AllocError, Global};

/// The address of an option, where it isn't left out; none where its word names none.
pub fn any_peer_in<'a>(values: &Values<'a>, option: &str) -> Option<Option<PeerAddress<'a>>>
    ensures { Finds (GivesAnyPeer (rows_in values.now) option.now) result }
{
    let Some(word) = values.text(option) else {
        return Some(None);
    };
    let peer = peer_of(word)?;
    Some(Some(peer))
}

/// The page address of an option, if it is given; `None` if its value is no such address.
pub fn any_page_in<'a>(values: &Values<'a>, option: &str) -> Option<Option<PageAddress<'a>>>
    ensures { Finds (GivesAnyPage (rows_in values.now) option.now) result }
{
    let Some(word) = values.text(option) else {
        return Some(None);
    };
    let page = page_of(word)?;
    Some(Some(page))
}

/// The page address that a value names: the path of a Unix socket if it has a slash, else a port in decimal, from 0 to
/// 65,535.
fn page_of(word: &str) -> Option<PageAddress<'_>>
    ensures { Finds (NamesPage word.now) result }
{
    if has_slash(word) {
        return Some(PageAddress::Path(word));
    }
    match word.parse::<u16>() {
        Ok(port) => Some(PageAddress::Port(port)),
        Err(_) => None,
    }
}

/// The addresses of a repeatable argument; `None` if one of its values is no address.
pub fn peers_in<'a>(
    alloc: Global,
    values: &Values<'a>,
    argument: &str,
) -> Result<Option<Vec<PeerAddress<'a>>>, AllocError>
    ensures { IfOk result (λ read. Finds (GivesPeers (rows_in values.now) argument.now)
        (option_map (λ peers. peers.items) read)) }
{
    match values.texts(argument) {
        None => Ok(Some(Vec::new(alloc))),
        Some(texts) => peers_of(alloc, texts),
    }
}

/// The addresses that words name; none where one of them names none.
fn peers_of<'a>(
    alloc: Global,
    texts: &[&'a str],
) -> Result<Option<Vec<PeerAddress<'a>>>, AllocError>
    ensures { IfOk result (λ read. Finds (AllZip NamesPeer (map (λ text. text.now) texts.now))
        (option_map (λ peers. peers.items) read)) }
{
    let mut peers = Vec::new(alloc);
    for text in texts {
        let Some(peer) = peer_of(text) else {
            return Ok(None);
        };
        peers.push(peer)?;
    }
    Ok(Some(peers))
}

/// The paths among the words of an option that may be there more than once: those with a slash.
pub fn paths_in<'a>(
    alloc: Global,
    values: &Values<'a>,
    option: &str,
) -> Result<Vec<&'a str>, AllocError>
    ensures { IfOk result (λ paths. GivesPaths (rows_in values.now) option.now paths.items) }
{
    match values.texts(option) {
        None => Ok(Vec::new(alloc)),
        Some(texts) => paths_of(alloc, texts),
    }
}

/// Those of words that have a slash.
fn paths_of<'a>(alloc: Global, texts: &[&'a str]) -> Result<Vec<&'a str>, AllocError>
    ensures { IfOk result (λ paths. map (λ path. path.now) paths.items
        ≡ filter has_slash (map (λ text. text.now) texts.now)) }
{
    let mut paths = Vec::new(alloc);
    for text in texts {
        if has_slash(text) {
            paths.push(*text)?;
        }
    }
    Ok(paths)
}

/// The hosts and ports among the words of an option that may be there more than once: what those without a slash name;
/// none where one of these names none.
pub fn hosts_in<'a>(
    alloc: Global,
    values: &Values<'a>,
    option: &str,
) -> Result<Option<Vec<HostPort<'a>>>, AllocError>
    ensures { IfOk result (λ read. Finds (GivesHosts (rows_in values.now) option.now)
        (option_map (λ hosts. hosts.items) read)) }
{
    match values.texts(option) {
        None => Ok(Some(Vec::new(alloc))),
        Some(texts) => hosts_of(alloc, texts),
    }
}

/// The hosts and ports that those of words name that have no slash; none where one of these names none.
fn hosts_of<'a>(alloc: Global, texts: &[&'a str]) -> Result<Option<Vec<HostPort<'a>>>, AllocError>
    ensures { IfOk result (λ read. Finds
        (AllZip NamesHostPort (filter (λ word. not (has_slash word)) (map (λ text. text.now) texts.now)))
        (option_map (λ hosts. hosts.items) read)) }
{
    let mut hosts = Vec::new(alloc);
    for text in texts {
        if has_slash(text) {
            continue;
        }
        let Some(at) = host_port_of(text) else {
            return Ok(None);
        };
        hosts.push(at)?;
    }
    Ok(Some(hosts))
}

/// Whether an address on another machine is named, and no file of keys.
pub fn lacks_keys(values: &Values<'_>) -> bool
    ensures { MatchBool result (¬ HasKeys (rows_in values.now)) (HasKeys (rows_in values.now)) }
{
    if values.text("keys").is_some() {
        return false;
    }
    any_there(values, "PEER") || any_there(values, "to") || !all_here(values, "listen")
}

/// Whether a word of an argument can only name a peer on another machine.
fn any_there(values: &Values<'_>, argument: &str) -> bool
    ensures { result ≡ list_any is_there (words_of (rows_in values.now) argument.now) }
{
    match values.texts(argument) {
        Some(words) => has_there(words),
        None => false,
    }
}

/// Whether one of words can only name a peer on another machine.
fn has_there(words: &[&str]) -> bool
    ensures { result ≡ list_any (λ word. is_there word.now) words.now }
{
    words.iter().any(|word| is_there(word))
}

/// Whether each word of an argument has a slash.
fn all_here(values: &Values<'_>, argument: &str) -> bool
    ensures { result ≡ list_all has_slash (words_of (rows_in values.now) argument.now) }
{
    match values.texts(argument) {
        Some(words) => are_paths(words),
        None => true,
    }
}

/// Whether each of words has a slash.
fn are_paths(words: &[&str]) -> bool
    ensures { result ≡ list_all (λ word. has_slash word.now) words.now }
{
    words.iter().all(|word| has_slash(word))
}

/// Whether one of the words of PEER is there twice.
pub fn names_a_peer_twice(values: &Values<'_>) -> bool
    ensures { MatchBool result (¬ NamesEachPeerOnce (rows_in values.now)) (NamesEachPeerOnce (rows_in values.now)) }
{
    match values.texts("PEER") {
        Some(words) => has_repeat(words),
        None => false,
    }
}

/// Whether a word is there twice. It costs O(n²) for n words.
fn has_repeat(words: &[&str]) -> bool
    ensures { result ≡ has_repeat (map (λ word. word.now) words.now) }
{
    for number in 0..words.len() {
        if is_among(&words[number + 1..], words[number]) {
            return true;
        }
    }
    false
}

/// Whether a word is among these.
fn is_among(words: &[&str], word: &str) -> bool
    ensures { result ≡ list_any (λ other. bytes_eq word.now other.now) words.now }
{
    words.iter().any(|other| word == *other)
}

/// What the address of a peer has to be.
const PEER: &str =
    "a port from 1 to 65535, the path of a Unix socket, which has a slash, or NAME@HOST:PORT";

/// What an address to listen at has to be.
const LISTEN: &str = "the path of a Unix socket, which has a slash, or HOST:PORT";

/// What the address of a page has to be.
const PAGE: &str = "a port from 0 to 65535, or the path of a Unix socket, which has a slash";

/// What is wanted beside an address on another machine.
const KEYS: &str = "an address on another machine needs --keys";

/// What is wanted of peers.
const ONCE: &str = "a peer is named once";

/// How the help names the arguments that have addresses.
const PEER_ARGUMENT: &str = "[PEER]...";

const LISTEN_ARGUMENT: &str = "--listen <ADDRESS>";

const HTTP_ARGUMENT: &str = "--http <ADDRESS>";

const TO_ARGUMENT: &str = "--to <ADDRESS>";

/// A word that should be an address and isn't, that needs a file of keys, or that is there twice.
#[derive(Drop)]
pub struct WrongWord<'a> {
    /// The argument that has it, as the help names that.
    pub argument: &'static str,
    pub word: &'a str,
    /// What it has to be, or what it needs.
    pub wanted: &'static str,
}

/// The first word that should be an address and isn't; where all are, the first that needs a file of keys which isn't
/// named; where none does, the first peer that is named twice.
pub fn wrong_address<'a>(values: &Values<'a>) -> Option<WrongWord<'a>> {
    match misnamed(values) {
        Some(wrong) => Some(wrong),
        None if lacks_keys(values) => keyless(values),
        None => repeated(values),
    }
}

/// The first word that should be an address and isn't.
fn misnamed<'a>(values: &Values<'a>) -> Option<WrongWord<'a>> {
    if let Some(word) = first_without_peer(values.texts("PEER")) {
        return Some(wrong(PEER_ARGUMENT, word, PEER));
    }
    if let Some(word) = first_without_place(values.texts("listen")) {
        return Some(wrong(LISTEN_ARGUMENT, word, LISTEN));
    }
    if let Some(word) = first_without_peer(values.texts("to")) {
        return Some(wrong(TO_ARGUMENT, word, PEER));
    }
    let word = first_without_page(values.texts("http"))?;
    Some(wrong(HTTP_ARGUMENT, word, PAGE))
}

/// The first word that names an address on another machine.
fn keyless<'a>(values: &Values<'a>) -> Option<WrongWord<'a>> {
    if let Some(word) = first_there(values.texts("PEER")) {
        return Some(wrong(PEER_ARGUMENT, word, KEYS));
    }
    if let Some(word) = first_host(values.texts("listen")) {
        return Some(wrong(LISTEN_ARGUMENT, word, KEYS));
    }
    let word = first_there(values.texts("to"))?;
    Some(wrong(TO_ARGUMENT, word, KEYS))
}

/// The first peer that is named twice.
fn repeated<'a>(values: &Values<'a>) -> Option<WrongWord<'a>> {
    let word = first_repeat(values.texts("PEER"))?;
    Some(wrong(PEER_ARGUMENT, word, ONCE))
}

/// A word of an argument that should be something else.
fn wrong<'a>(argument: &'static str, word: &'a str, wanted: &'static str) -> WrongWord<'a> {
    WrongWord {
        argument,
        word,
        wanted,
    }
}

/// The first word of a peer on another machine.
fn first_there<'a>(words: Option<&[&'a str]>) -> Option<&'a str> {
    for word in words? {
        if is_there(word) {
            return Some(*word);
        }
    }
    None
}

/// The first word that is there again later.
fn first_repeat<'a>(words: Option<&[&'a str]>) -> Option<&'a str> {
    let words = words?;
    for (number, word) in words.iter().enumerate() {
        if is_among(&words[number + 1..], word) {
            return Some(*word);
        }
    }
    None
}

/// The first word without a slash.
fn first_host<'a>(words: Option<&[&'a str]>) -> Option<&'a str> {
    for word in words? {
        if !has_slash(word) {
            return Some(*word);
        }
    }
    None
}

/// The first word that names no address.
fn first_without_peer<'a>(words: Option<&[&'a str]>) -> Option<&'a str> {
    for word in words? {
        if peer_of(word).is_none() {
            return Some(*word);
        }
    }
    None
}

/// The first word that has a site show itself nowhere.
fn first_without_page<'a>(words: Option<&[&'a str]>) -> Option<&'a str> {
    for word in words? {
        if page_of(word).is_none() {
            return Some(*word);
        }
    }
    None
}

/// The first word that is no path, and names no host with a port.
fn first_without_place<'a>(words: Option<&[&'a str]>) -> Option<&'a str> {
    for word in words? {
        if !has_slash(word) && host_port_of(word).is_none() {
            return Some(*word);
        }
    }
    None
}
