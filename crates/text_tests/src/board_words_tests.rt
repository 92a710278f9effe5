//! What words are read as.
use crate::rows::check_told;
use board_words::{Command, Show, Word, read};
use std::alloc::{AllocError, Global};
use std::process::Abort;
use std::test::Fail;

// The word of a command, and its numbers.
fn told(alloc: Global, command: Option<Command>) -> Result<String, AllocError> {
    match command {
        None => format!(in alloc; "none"),
        Some(Command::Cuts { most, workers }) => format!(in alloc; "cuts {most} {workers}"),
        Some(
            Command::Board {
                margin,
                most,
                workers,
            },
        ) => format!(in alloc; "board {margin} {most} {workers}"),
        Some(Command::Check) => format!(in alloc; "check"),
        Some(Command::Print) => format!(in alloc; "print"),
        Some(Command::Diagram { workers }) => format!(in alloc; "diagram {workers}"),
        Some(Command::Make { number, show }) => told_make(alloc, number, show),
        Some(Command::Help) => format!(in alloc; "help"),
    }
}

fn told_make(alloc: Global, number: u32, show: Show) -> Result<String, AllocError> {
    match show {
        Show::Deck => format!(in alloc; "make {number} deck"),
        Show::Summary => format!(in alloc; "make {number} summary"),
    }
}

// What words say that are parted by blanks.
fn said(alloc: Global, text: &str) -> Result<String, AllocError> {
    let mut words = Vec::new(alloc);
    for word in text.split_whitespace() {
        words.push(Word::of(alloc, word.as_bytes())?)?;
    }
    told(alloc, read(words.as_slice()))
}

// Each row has words and what is told of them.
fn check_rows(rt: &impl Abort, alloc: Global, rows: &str) -> Result<(), Fail> {
    for row in rows.split('|') {
        let (text, wanted) = row.split_once('>').ok_or("a row out of form")?;
        check_told(rt, text, said(alloc, text)?.as_str(), wanted);
    }
    Ok(())
}

// Options in any order, and commands without options.
const COMMANDS: &str = "\
cuts>cuts 6 4|\
cuts --most 0>cuts 0 4|\
cuts --workers 1 --most 8>cuts 8 1|\
cuts --most 0 --workers 16>cuts 0 16|\
board>board 0 6 4|\
board --margin 4095>board 4095 6 4|\
board --workers 2 --margin 1 --most 0>board 1 0 2|\
diagram>diagram 4|\
diagram --workers 16>diagram 16|\
make --number 0>make 0 summary|\
make --show deck --number 999999>make 999999 deck|\
make --number 7 --show summary>make 7 summary|\
check>check|\
print>print|\
help>help";

#[test]
fn options_are_read_in_any_order(rt: HostRuntime) -> Result<(), Fail> {
    check_rows(&rt, rt.alloc(), COMMANDS)
}

// Words that are no command, and numbers out of form or bounds.
const NO_COMMANDS: &str = "\
>none|\
Cuts>none|\
cut --most 0>none|\
help x>none|\
check --most 0>none|\
print x>none|\
--help>none|\
cuts --most>none|\
cuts --most=6>none|\
cuts --most 6 --most 6>none|\
cuts --margin 0>none|\
cuts 0 --most>none|\
board --margin>none|\
board --margin 1 --most 0 --margin 1>none|\
board --number 1>none|\
diagram --most 0>none|\
make>none|\
make --show deck>none|\
make --number 1 --show both>none|\
make --number 1 --show>none|\
cuts --most 9>none|\
cuts --most 08>none|\
cuts --most 00>none|\
cuts --most +0>none|\
cuts --most 0000000>none|\
cuts --workers 0>none|\
cuts --workers 17>none|\
cuts --workers 4x>none|\
board --margin 4096>none|\
board --margin 07>none|\
diagram --workers 17>none|\
make --number 1000000>none|\
make --number 00>none|\
make --number -1>none";

#[test]
fn other_words_are_no_command(rt: HostRuntime) -> Result<(), Fail> {
    check_rows(&rt, rt.alloc(), NO_COMMANDS)
}

// What one word says alone.
fn said_alone(alloc: Global, word: Word) -> Result<String, AllocError> {
    let mut words = Vec::new(alloc);
    words.push(word).map_err(AllocError::from)?;
    told(alloc, read(words.as_slice()))
}

fn push_all(word: &mut Word, bytes: &[u8]) -> Result<(), AllocError> {
    for byte in bytes {
        word.push(*byte)?;
    }
    Ok(())
}

// What a word says that is made byte by byte, which it then has to have.
fn said_by_bytes(alloc: Global, bytes: &[u8]) -> Result<String, Fail> {
    let mut word = Word::new(alloc);
    push_all(&mut word, bytes)?;
    if word.as_slice() != bytes {
        return Err("a word of other bytes".into());
    }
    Ok(said_alone(alloc, word)?)
}

#[test]
fn words_are_made_byte_by_byte(rt: HostRuntime) -> Result<(), Fail> {
    assert_eq!(rt; said_by_bytes(rt.alloc(), b"help")?.as_str(), "help");
    Ok(())
}

// What a word of some bytes says.
fn said_at_once(alloc: Global, bytes: &[u8]) -> Result<String, AllocError> {
    said_alone(alloc, Word::of(alloc, bytes)?)
}

#[test]
fn an_empty_word_and_one_that_is_no_text_say_nothing(rt: HostRuntime) -> Result<(), Fail> {
    assert_eq!(rt; said_at_once(rt.alloc(), b"")?.as_str(), "none");
    assert_eq!(rt; said_at_once(rt.alloc(), b"cuts\xff")?.as_str(), "none");
    Ok(())
}
