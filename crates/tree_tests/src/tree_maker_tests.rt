//! Made decks as text, and read again.
use crate::rows::part;
use crew_script::{CrewsAt, Dockets, LONGEST_DECK, split_deck};
use deck_limits::HIGHEST_MADE;
use fault_model::Tree;
use std::alloc::Global;
use std::test::Fail;
use tree_maker::made;
use worked_trees::{dockets_of, tree_of};

// The deck of a number, which has to be a text.
fn text_of(alloc: Global, number: u32) -> Result<String, Fail> {
    if number > HIGHEST_MADE {
        return Err("the number is too high".into());
    }
    let deck = made(alloc, number)?;
    match String::from_utf8(deck.into_vec()) {
        Ok(text) => Ok(text),
        Err(_) => Err("the deck is no text".into()),
    }
}

// The units and gates of a tree, its crews and their requests, and the name of its top event.
fn told(alloc: Global, tree: &Tree, crews: &Dockets) -> Result<String, Fail> {
    let units = tree.units();
    let gates = tree.gates();
    let count = crews.crews();
    let requests = crews.total();
    let Ok(top) = str::from_utf8(tree.name(tree.top()).as_slice()) else {
        return Err("the top event has no text as its name".into());
    };
    Ok(format!(in alloc; "{units} {gates} {count} {requests} {top}")?)
}

// The same with crews from a text.
fn told_with(alloc: Global, tree: &Tree, crews: &[u8]) -> Result<String, Fail> {
    let crews = dockets_of(alloc, crews)?;
    told(alloc, tree, &crews)
}

// The same of a deck.
fn told_of(alloc: Global, text: &[u8]) -> Result<String, Fail> {
    if text.len() > LONGEST_DECK {
        return Err("the deck is too long".into());
    }
    let split = split_deck(text);
    let Some(CrewsAt { start, .. }) = split.crews else {
        return Err("the deck has no crew part".into());
    };
    if split.tree > text.len() || start > text.len() {
        return Err("the deck is divided behind its end".into());
    }
    let tree = tree_of(alloc, &text[..split.tree])?;
    told_with(alloc, &tree, &text[start..])
}

// The same of the made deck of a number.
fn told_made(alloc: Global, number: u32) -> Result<String, Fail> {
    let text = text_of(alloc, number)?;
    told_of(alloc, text.as_bytes())
}

// The number of a deck, the place of a line, and the line. Each part of a deck begins behind the one before it; 99 is a
// deck of the fewest groups.
const LINES: &str = "\
0>0>toplevel t;
0>2>g0 and u0a u0b u0c;
0>3>g1 pand u1a u1b u1c;
0>4>g2 2of3 u2a u2b u2c;
0>5>g3 seq u3a u3b u3c;
0>6>g4 csp u4a u4b u4c;
0>7>g5 wsp u5a u5b u5c;
0>8>g6 hsp u6a u6b u6c;
0>9>g7 and u7a u7b u7c;
0>201>g199 seq u199a u199b u199c;
0>202>f0 fdep x0 u0b;
0>203>f5 fdep x1 u5b;
0>241>f195 fdep x9 u195b;
0>242>u0a;
0>244>u0c;
0>841>u199c;
0>842>x0;
0>851>x9;
0>852>@crews
0>853>crew maker
0>854>take u0a
0>1453>take u199c
0>1454>return u0a
0>1553>return u198a
0>1554>
99>2>g0 pand u0a u0b u0c;
99>102>g100 seq u100a u100b u100c;
99>103>f0 fdep x0 u0b;
99>123>f100 fdep x0 u100b;
99>124>u0a;
999999>2>g0 and u0a u0b u0c;
999999>792>return u100a
999999>793>";

fn has_line(alloc: Global, row: &str) -> Result<bool, Fail> {
    let at = part(row, 1).parse::<usize>()?;
    let text = text_of(alloc, part(row, 0).parse::<u32>()?)?;
    Ok(match text.as_str().split('\n').nth(at) {
        Some(line) => line == part(row, 2),
        None => false,
    })
}

#[test]
fn a_made_deck_has_the_lines_of_its_rule(rt: HostRuntime) -> Result<(), Fail> {
    for row in LINES.lines() {
        assert!(rt; has_line(rt.alloc(), row)?, "{row}");
    }
    Ok(())
}

// The number of a deck, and what is told of it.
const TOLD: &str = "\
0>610 241 1 700 t
7>589 233 1 676 t
99>313 123 1 354 t
999999>313 123 1 354 t";

#[test]
fn a_made_deck_is_read(rt: HostRuntime) -> Result<(), Fail> {
    for row in TOLD.lines() {
        let told = told_made(rt.alloc(), part(row, 0).parse::<u32>()?)?;
        assert_eq!(rt; told.as_str(), part(row, 1));
    }
    Ok(())
}

// Whether a made deck has so many units, gates and requests.
fn has_sizes(
    alloc: Global,
    number: u32,
    units: u32,
    gates: u32,
    requests: u32,
) -> Result<bool, Fail> {
    let told = told_made(alloc, number)?;
    let due = format!(in alloc; "{units} {gates} 1 {requests} t")?;
    Ok(told.as_str() == due.as_str())
}

#[test]
fn a_hundred_made_decks_are_read(rt: HostRuntime) -> Result<(), Fail> {
    for number in 0..100u32 {
        let groups = 200 - number;
        let units = 3 * groups + 10;
        let gates = 1 + groups + (groups + 4) / 5;
        let requests = 3 * groups + (groups + 1) / 2;
        assert!(rt;
            has_sizes(rt.alloc(), number, units, gates, requests)?,
            "{number}"
        );
    }
    Ok(())
}
