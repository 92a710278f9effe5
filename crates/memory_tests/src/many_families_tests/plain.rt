//! Families of units 1 to 5 as words: a bit for each set, whose units are those with a bit in its number.

// Of some sets those without a unit, each with that unit: the set's number is greater by the unit's bit.
fn one_unit_more(sets: u32) -> u32 {
    (sets & 0x5555_5555) << 1
        | (sets & 0x3333_3333) << 2
        | (sets & 0x0f0f_0f0f) << 4
        | (sets & 0x00ff_00ff) << 8
        | (sets & 0x0000_ffff) << 16
}

// The sets of units that include one of the family: there are five units that can come to a set.
fn supersets_of(word: u32) -> u32 {
    let mut all = word;
    for _ in 0..5u32 {
        all |= one_unit_more(all);
    }
    all
}

/// Of sets of units, with all that include one of them, those from which no one unit can be taken.
pub(crate) fn least_of(sets: u32) -> u32 {
    sets & !one_unit_more(sets)
}

// How many families have a set that this set includes.
fn votes_for(words: &[u32], set: u32) -> usize {
    let mut votes = 0usize;
    for word in words {
        if supersets_of(*word) >> (set & 31) & 1 == 1 {
            votes = votes.saturating_add(1);
        }
    }
    votes
}

/// The sets of units that include one of so many of these families.
pub(crate) fn in_many(words: &[u32], votes: usize) -> u32 {
    let mut many = 0;
    for set in 0..32u32 {
        if votes_for(words, set) >= votes {
            many |= 1 << set;
        }
    }
    many
}

/// The word of a text: a digit for each unit of a set, and a point behind it.
pub(crate) fn word_in(text: &str) -> u32 {
    let mut word = 0;
    let mut set = 0;
    for byte in text.as_bytes() {
        if *byte == b'.' {
            word |= 1 << (set & 31);
            set = 0;
        } else {
            set |= 1 << (byte.wrapping_sub(b'1') & 31);
        }
    }
    word
}
