//! The tree part of a made deck.
ghost use Rattle.std.specs.Prelude.{◌≡◌, ◌+◌, ◌*◌, ◌<◌, ◌≤◌, ◌++◌, OnOk};
ghost use Rattle.std.specs.List.{flat_map, range_with_len};
ghost use Rattle.deck_reading.specs.Written.{Bare, input_text, statement_text, written};
ghost use Rattle.text_pieces.specs.GateWords.{gate_word};
ghost use Rattle.tree_maker.specs.Names.{gate_name, trigger_name, units_in};
ghost use Rattle.tree_maker.specs.MadeDeck.{fdep_gate, group_count, group_gate, kind_in, made_statements, unit_line};

use crate::text::add;
use deck_limits::HIGHEST_MADE;
use edge_io::NoMemory;
use itoa::Buffer;

const TRIGGERS: u32 = 10;

// Adds the statements of the tree, of so many groups.
pub(crate) fn add_tree(text: &mut Vec<u8>, number: u32, count: u32) -> Result<(), NoMemory>
    requires number { number ≤ HIGHEST_MADE }
    requires count { count ≡ group_count number }
    ensures { OnOk result (text.new.items ≡ text.old.items ++ written (made_statements number)) }
{
    add(text, &[b"toplevel t;\nt or"])?;
    add_inputs(text, count)?;
    add(text, &[b";\n"])?;
    add_groups(text, number, count)?;
    add_fdeps(text, (count + 4) / 5)?;
    add_units(text, count)?;
    add_triggers(text)
}

// Adds the inputs of the top event's gate: the gates of all groups.
fn add_inputs(text: &mut Vec<u8>, count: u32) -> Result<(), NoMemory>
    ensures { OnOk result (text.new.items ≡ text.old.items
        ++ flat_map (λ group. input_text (Bare (gate_name group))) (range_with_len 0 count)) }
{
    for group in 0..count {
        let mut digits = Buffer::new();
        add(text, &[b" g", digits.format(group).as_bytes()])?;
    }
    Ok(())
}

// Adds the gates of all groups.
fn add_groups(text: &mut Vec<u8>, number: u32, count: u32) -> Result<(), NoMemory>
    requires number { number ≤ HIGHEST_MADE }
    requires count { count ≤ 200 }
    ensures { OnOk result (text.new.items ≡ text.old.items
        ++ flat_map (λ group. statement_text (group_gate number group)) (range_with_len 0 count)) }
{
    for group in 0..count {
        add_group(text, number, group)?;
    }
    Ok(())
}

fn add_group(text: &mut Vec<u8>, number: u32, group: u32) -> Result<(), NoMemory>
    requires number { number ≤ HIGHEST_MADE }
    requires group { group < 200 }
    ensures { OnOk result (text.new.items ≡ text.old.items ++ statement_text (group_gate number group)) }
{
    let mut buffer = Buffer::new();
    let digits = buffer.format(group).as_bytes();
    let word = kind_word(number, group);
    add(
        text,
        &[
            b"g", digits, b" ", word, b" u", digits, b"a u", digits, b"b u", digits, b"c;\n",
        ],
    )
}

// The word of a group's gate.
fn kind_word(number: u32, group: u32) -> &'static [u8]
    requires number { number ≤ HIGHEST_MADE }
    requires group { group < 200 }
    ensures { result.now ≡ gate_word (kind_in number group) }
{
    match (group + number) % 7 {
        0 => b"and",
        1 => b"pand",
        2 => b"2of3",
        3 => b"seq",
        4 => b"csp",
        5 => b"wsp",
        _ => b"hsp",
    }
}

// Adds so many gates of triggers.
fn add_fdeps(text: &mut Vec<u8>, count: u32) -> Result<(), NoMemory>
    requires { count ≤ 40 }
    ensures { OnOk result (text.new.items ≡ text.old.items
        ++ flat_map (λ q. statement_text (fdep_gate q)) (range_with_len 0 count)) }
{
    for q in 0..count {
        add_fdep(text, q)?;
    }
    Ok(())
}

fn add_fdep(text: &mut Vec<u8>, q: u32) -> Result<(), NoMemory>
    requires { q < 40 }
    ensures { OnOk result (text.new.items ≡ text.old.items ++ statement_text (fdep_gate q)) }
{
    let mut group_buffer = Buffer::new();
    let mut trigger_buffer = Buffer::new();
    let group = group_buffer.format(5 * q).as_bytes();
    let trigger = trigger_buffer.format(q % TRIGGERS).as_bytes();
    add(
        text,
        &[b"f", group, b" fdep x", trigger, b" u", group, b"b;\n"],
    )
}

// Adds the units of all groups.
fn add_units(text: &mut Vec<u8>, count: u32) -> Result<(), NoMemory>
    ensures { OnOk result (text.new.items ≡ text.old.items
        ++ flat_map (λ group. flat_map (λ name. statement_text (unit_line name)) (units_in group))
        (range_with_len 0 count)) }
{
    for group in 0..count {
        add_units_in(text, group)?;
    }
    Ok(())
}

fn add_units_in(text: &mut Vec<u8>, group: u32) -> Result<(), NoMemory>
    ensures { OnOk result (text.new.items ≡ text.old.items
        ++ flat_map (λ name. statement_text (unit_line name)) (units_in group)) }
{
    let mut buffer = Buffer::new();
    let digits = buffer.format(group).as_bytes();
    add(
        text,
        &[b"u", digits, b"a;\nu", digits, b"b;\nu", digits, b"c;\n"],
    )
}

// Adds the triggers.
fn add_triggers(text: &mut Vec<u8>) -> Result<(), NoMemory>
    ensures { OnOk result (text.new.items ≡ text.old.items
        ++ flat_map (λ trigger. statement_text (unit_line (trigger_name trigger))) (range_with_len 0 10)) }
{
    for trigger in 0..TRIGGERS {
        let mut digits = Buffer::new();
        add(text, &[b"x", digits.format(trigger).as_bytes(), b";\n"])?;
    }
    Ok(())
}
