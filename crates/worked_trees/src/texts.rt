//! Texts of decks that several tests read: of many gates alike, and with gates of all kinds that look random.
use std::alloc::{AllocError, Global};

/// An `or` of so many gates, each an `and` of two units of its own that come next to each other.
pub fn or_of_pairs(alloc: Global, gates: usize) -> Result<String, AllocError> {
    let mut deck = format!(in alloc; "toplevel T;\nT or")?;
    for n in 0..gates {
        deck.push_str(format!(in alloc; " g{n}")?.as_str())?;
    }
    deck.push_str(";\n")?;
    for n in 0..gates {
        deck.push_str(format!(in alloc; "g{n} and a{n} b{n};\na{n};\nb{n};\n")?.as_str())?;
    }
    Ok(deck)
}

// The next number, from the one before.
fn next(seed: u64) -> u64 {
    seed.wrapping_mul(6_364_136_223_846_793_005)
        .wrapping_add(1_442_695_040_888_963_407)
}

// A number below a bound that is drawn: the high bits of a seed look most random.
fn drawn(seed: u64, below: u64) -> usize {
    if below == 0 {
        return 0;
    }
    ((seed >> 33) % below) as usize
}

const KINDS: [&str; 8] = ["and", "or", "2of3", "pand", "por", "seq", "1of3", "3of3"];

const SPARE_KINDS: [&str; 3] = ["csp", "wsp", "hsp"];

const INPUTS: [&str; 14] = [
    " u0", " u1", " u2", " u3", " u4", " u5", " u6", " u7", " g0", " g1", " g2", " g3", " g4",
    " g5",
];

// How many units a random tree has, which come first among the inputs.
const UNITS: u64 = 8;

// How many gates a random tree has that are drawn.
const GATES: u64 = 6;

// One of these words, or none where there are too few.
fn word<'w>(words: &[&'w str], place: usize) -> &'w str {
    words.get(place).copied().unwrap_or("")
}

// A gate over three of the units and of the gates before it.
fn push_gate(text: &mut String, gate: u64, seed: u64) -> Result<u64, AllocError> {
    let mut last = next(seed);
    text.push_str(word(&INPUTS, (UNITS + gate % GATES) as usize).trim_start())?;
    text.push_str(" ")?;
    text.push_str(word(&KINDS, drawn(last, 8)))?;
    for _ in 0..3 {
        last = next(last);
        text.push_str(word(&INPUTS, drawn(last, UNITS + gate % GATES)))?;
    }
    text.push_str(";\n")?;
    Ok(last)
}

/// A tree with gates of all kinds that looks random: six gates over eight units, a spare gate above the fourth, an `or`
/// above the last and the spare gate, which is named `t`, and a trigger of two units. Any node may be the top event.
pub fn random_text(alloc: Global, top: &str, seed: u64) -> Result<String, AllocError> {
    let spare = word(&SPARE_KINDS, (seed % 3) as usize);
    let mut text = format!(in alloc;
        "toplevel {top}; t or g5 s; s {spare} g3 spare; f fdep u7 u0 u1;\n"
    )?;
    let mut last = seed;
    for gate in 0..GATES {
        last = push_gate(&mut text, gate, last)?;
    }
    text.push_str("u0; u1; u2; u3; u4; u5; u6; u7; spare;\n")?;
    Ok(text)
}
