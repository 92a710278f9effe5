//! What a line says.
ghost use Rattle.std.specs.Prelude.{◌≡◌, IfOk, []};
ghost use Rattle.crew_script.specs.Words.{words_of};
ghost use Rattle.crew_script.specs.Lines.{line_of, request_line, crew_line, return_line, margin_line, take_line};
ghost use Rattle.crew_script.specs.Lines.{only_name, only_margin, margin_of};
ghost use Rattle.fault_words.specs.Names.{has_name};

use crate::dockets::Ask;
use crate::names::NameList;
use crate::word::{Word, Words};
use decimal_numerals::{is_numeral, number};
use deck_limits::{GREATEST_MARGIN, MOST_TAKEN};
use fault_words::Name;
use std::alloc::{AllocError, Global};

// The digits of the greatest margin.
const MARGIN_DIGITS: usize = 4;

/// What a line says: nothing, a new crew, a request of the crew before it, or what is of no form.
#[derive(Drop)]
pub(crate) enum Line {
    Nothing,
    Crew(Name),
    Request(Ask),
    Bad,
}

/// What a line says. No more of it is read than decides.
pub(crate) fn read_line(alloc: Global, bytes: &[u8]) -> Result<Line, AllocError>
    ensures { IfOk result (λ line. line ≡ line_of (words_of bytes.now)) }
{
    let mut words = Words::new(bytes);
    let first = match words.next() {
        Some(first) => first,
        None => return Ok(Line::Nothing),
    };
    if first.is_comment() {
        Ok(Line::Nothing)
    } else if first.says(b"crew") {
        crew(alloc, &mut words)
    } else {
        request(alloc, &first, &mut words)
    }
}

// What a line says by its first word, where that says no crew.
fn request(alloc: Global, first: &Word, words: &mut Words) -> Result<Line, AllocError>
    ensures { IfOk result (λ line. line ≡ request_line first.now words.old) }
{
    if first.says(b"take") {
        take(alloc, words)
    } else if first.says(b"return") {
        give_back(alloc, words)
    } else if first.says(b"margin") {
        Ok(margin(words))
    } else {
        Ok(Line::Bad)
    }
}

// A line of a crew, behind its first word.
fn crew(alloc: Global, words: &mut Words) -> Result<Line, AllocError>
    ensures { IfOk result (λ line. line ≡ crew_line (only_name words.old)) }
{
    match only_name(alloc, words)? {
        Some(name) => Ok(Line::Crew(name)),
        None => Ok(Line::Bad),
    }
}

// A return, behind its first word.
fn give_back(alloc: Global, words: &mut Words) -> Result<Line, AllocError>
    ensures { IfOk result (λ line. line ≡ return_line (only_name words.old)) }
{
    match only_name(alloc, words)? {
        Some(name) => Ok(Line::Request(Ask::Return(name))),
        None => Ok(Line::Bad),
    }
}

// The one name that is left.
fn only_name(alloc: Global, words: &mut Words) -> Result<Option<Name>, AllocError>
    ensures { IfOk result (λ name. name ≡ only_name words.old) }
{
    let word = match words.next() {
        Some(word) => word,
        None => return Ok(None),
    };
    match words.next() {
        Some(_) => Ok(None),
        None => word.name(alloc),
    }
}

// A margin, behind its first word.
fn margin(words: &mut Words) -> Line
    ensures { result ≡ margin_line (only_margin words.old) }
{
    match only_margin(words) {
        Some(number) => Line::Request(Ask::Margin(number)),
        None => Line::Bad,
    }
}

// The one margin that is left.
fn only_margin(words: &mut Words) -> Option<u32>
    ensures { result ≡ only_margin words.old }
{
    let word = words.next()?;
    match words.next() {
        None if word.is_bare() => margin_of(word.text()),
        _ => None,
    }
}

// The margin that a text writes.
fn margin_of(text: &[u8]) -> Option<u32>
    ensures { result ≡ margin_of text.now }
{
    if !is_numeral(MARGIN_DIGITS, text) {
        return None;
    }
    let number = number(text);
    if number <= GREATEST_MARGIN {
        Some(number)
    } else {
        None
    }
}

// A take, behind its first word.
fn take(alloc: Global, words: &mut Words) -> Result<Line, AllocError>
    ensures { IfOk result (λ line. line ≡ take_line [] words.old) }
{
    let mut names: Vec<Name> = Vec::new(alloc);
    while let Some(word) = words.next() {
        let name = match word.name(alloc)? {
            Some(name) => name,
            None => return Ok(Line::Bad),
        };
        if names.len() == MOST_TAKEN || is_among(&names, &name) {
            return Ok(Line::Bad);
        }
        names.push(name)?;
    }
    if names.is_empty() {
        return Ok(Line::Bad);
    }
    Ok(Line::Request(Ask::Take(NameList::of(names))))
}

fn is_among(names: &[Name], name: &Name) -> bool
    ensures { result ≡ has_name names.now name.now }
{
    for other in names {
        if name == other {
            return true;
        }
    }
    false
}
