//! Families that are drawn by numbers that look random, and some in a table, compared with lists of sets.
use crate::families::{End, Many, Two, all_of, both};
use crate::many_families_tests::plain::{in_many, least_of, word_in};
use crate::many_families_tests::words::{family_of, word_of};
use crate::rows::part;
use family_memory::FamilyMemory;
use zdd_words::NodeRef;

const ROUNDS: u64 = 1_000;

// The sets of each one unit.
const SINGLES: [u32; 5] = [1, 2, 4, 8, 16];

// The next number, from the one before.
fn next(seed: u64) -> u64 {
    seed.wrapping_mul(6_364_136_223_846_793_005)
        .wrapping_add(1_442_695_040_888_963_407)
}

// The low half of a number.
fn low_word(number: u64) -> u32 {
    (number & 0xffff_ffff) as u32
}

fn drawn_unit(number: u64) -> u32 {
    SINGLES[(number % 5) as usize]
}

// A single unit, one or both of two units, few sets of any units, no sets, or the empty set.
fn drawn_word(seed: u64) -> u32 {
    let first = drawn_unit(seed >> 33);
    let second = drawn_unit(seed >> 43);
    match seed >> 53 & 7 {
        0 => 1 << (first & 31) | 1 << (second & 31),
        1 => 1 << ((first | second) & 31),
        2 => low_word(seed >> 21) & low_word(seed >> 29) & low_word(seed >> 13),
        3 => low_word(seed >> 40) & 1,
        _ => 1 << (first & 31),
    }
}

// Five drawn words, or each of the five units once in some order.
fn drawn_words(seed: u64, round: u64) -> [u32; 5] {
    let mut words = [0; 5];
    let mut drawn = seed;
    for place in 0..5usize {
        drawn = next(drawn);
        words[place] = if round % 4 == 0 {
            1 << (drawn_unit((place as u64 * (1 + round % 3)).wrapping_add(round)) & 31)
        } else {
            drawn_word(drawn)
        };
    }
    words
}

// The word of what an operation makes of two words.
fn made(memory: &mut FamilyMemory, call: Two, a: u32, b: u32) -> Result<u32, End> {
    let first = family_of(memory, a)?;
    let second = family_of(memory, b)?;
    let made = both(memory, call, first, second)?;
    Ok(word_of(memory, made))
}

// Whether each operation on two words makes what lists say.
fn two_agree(memory: &mut FamilyMemory, a: u32, b: u32) -> Result<bool, End> {
    let all = least_of(in_many(&[a, b], 2));
    Ok(
        made(memory, Two::Union, a, 0)? == least_of(in_many(&[a], 1))
            && made(memory, Two::Union, a, b)? == least_of(in_many(&[a, b], 1))
            && made(memory, Two::Product, a, b)? == all
            && made(memory, Two::ProductBySplitting, a, b)? == all
            && made(memory, Two::Without, a, b)? == least_of(in_many(&[a], 1)) & !in_many(&[b], 1),
    )
}

// Whether an operation makes of five words the sets of so many votes.
fn gives(
    memory: &mut FamilyMemory,
    call: Many,
    words: &[u32; 5],
    votes: usize,
) -> Result<bool, End> {
    let mut list = [NodeRef::EMPTY; 5];
    for place in 0..5usize {
        list[place] = family_of(memory, words[place])?;
    }
    let mut table = [NodeRef::EMPTY; 5];
    let made = all_of(memory, call, &list, &mut table)?;
    Ok(word_of(memory, made) == least_of(in_many(words, votes)))
}

// Whether each call makes of five words, and of the first two, what lists say. A union is one vote, a product are all.
fn agree(memory: &mut FamilyMemory, words: &[u32; 5], votes: usize) -> Result<bool, End> {
    Ok(
        two_agree(memory, words[0], words[1])?
            && gives(memory, Many::Union, words, 1)?
            && gives(memory, Many::UnionInOrder, words, 1)?
            && gives(memory, Many::Product, words, 5)?
            && gives(memory, Many::ProductInOrder, words, 5)?
            && gives(memory, Many::Votes(votes), words, votes)?,
    )
}

/// Whether all calls agree in each of a thousand rounds.
pub(crate) fn agree_in_rounds(memory: &mut FamilyMemory) -> Result<bool, End> {
    let mut seed = 1;
    for round in 0..ROUNDS {
        seed = next(seed);
        // Few sets, and without the empty one.
        let thin = low_word(seed >> 7) & low_word(seed >> 19) & low_word(seed >> 31);
        let other = low_word(seed >> 11) & !low_word(seed >> 23);
        if !two_agree(memory, thin & 0xffff_fffe, other & 0xffff_fffe)?
            || !agree(memory, &drawn_words(seed, round), (seed >> 61) as usize)?
        {
            return Ok(false);
        }
        if memory.count() > 32_768 {
            memory.clear();
        }
    }
    Ok(true)
}

fn words_in(row: &str) -> [u32; 5] {
    let mut words = [0; 5];
    for place in 0..5usize {
        words[place] = word_in(part(row, place + 3));
    }
    words
}

/// Whether all calls agree on the families of a row, with each number of votes.
pub(crate) fn agree_on_row(memory: &mut FamilyMemory, row: &str) -> Result<bool, End> {
    let words = words_in(row);
    for votes in 0..7usize {
        if !agree(memory, &words, votes)? {
            return Ok(false);
        }
    }
    Ok(true)
}
