//! Where decks are divided.
use crate::rows::check_told;
use crew_script::{CrewsAt, LONGEST_DECK, Split, split_deck};
use std::alloc::{AllocError, Global};
use std::test::Fail;

// How long the tree part is, where the crew part begins, and the number of its first line. Where all is tree part,
// `whole` stands alone.
fn told_split(alloc: Global, split: Split, length: usize) -> Result<String, AllocError> {
    let tree = split.tree;
    match split.crews {
        Some(CrewsAt { start, line }) => format!(in alloc; "{tree} {start} {line}"),
        None if tree == length => String::from_str(alloc, "whole"),
        None => format!(in alloc; "{tree} alone"),
    }
}

fn told(alloc: Global, text: &str) -> Result<String, Fail> {
    if text.len() > LONGEST_DECK {
        return Err("the deck is too long".into());
    }
    let split = split_deck(text.as_bytes());
    Ok(told_split(alloc, split, text.len())?)
}

// Decks, each with what is told of it.
const DECKS: &str = "\
>whole|\
\n>whole|\
A;>whole|\
toplevel A; A;\n>whole|\
@crew\n>whole|\
@crewsx\n>whole|\
x@crews\n>whole|\
\x20@crews\n>whole|\
@crews \n>whole|\
\t@crews\n>whole|\
@crews\r\r\n>whole|\
\r@crews\n>whole|\
@Crews\n>whole|\
@crews\ncrew c>0 7 2|\
@crews\r\ncrew c>0 8 2|\
@crews>0 6 2|\
@crews\r>0 7 2|\
@crews\n>0 7 2|\
A;\n@crews\ncrew c\n>3 10 3|\
A;\n\n@crews>4 10 4|\
A;\n@crews\ncrew c\n@crews\ncrew d\n>3 10 3|\
A; /* \n@crews\n*/>7 14 3|\
A; // x\n@crews\n>8 15 3|\
\"\n@crews\n\" A;>2 9 3|\
@crews \n@crews\r\r\n@crews\r\ncrew c>17 25 4";

#[test]
fn the_first_line_of_crews_divides_a_deck(rt: HostRuntime) -> Result<(), Fail> {
    for row in DECKS.split('|') {
        let (text, wanted) = row.split_once('>').ok_or("a row out of form")?;
        check_told(&rt, text, told(rt.alloc(), text)?.as_str(), wanted);
    }
    Ok(())
}
