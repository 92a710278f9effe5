//! The crew part of a made deck.
ghost use Rattle.std.specs.Prelude.{◌≡◌, ◌+◌, ◌/◌, ◌*◌, ◌<◌, ◌≤◌, ◌++◌, codes, OnOk};
ghost use Rattle.std.specs.List.{flat_map, range_with_len};
ghost use Rattle.tree_maker.specs.Names.{unit_name, units_in};
ghost use Rattle.tree_maker.specs.MadeDeck.{crew_lines, group_count, return_line, take_line};

use crate::text::add;
use edge_io::NoMemory;
use itoa::Buffer;

// Adds the dividing line and the crew with its requests, for so many groups.
pub(crate) fn add_crew(text: &mut Vec<u8>, number: u32, count: u32) -> Result<(), NoMemory>
    requires { count ≡ group_count number }
    ensures { OnOk result (text.new.items ≡ text.old.items ++ (codes "@crews\n" ++ crew_lines number)) }
{
    add(text, &[b"@crews\ncrew maker\n"])?;
    add_takes(text, count)?;
    add_returns(text, (count + 1) / 2)
}

// Adds the lines that take the units of all groups.
fn add_takes(text: &mut Vec<u8>, count: u32) -> Result<(), NoMemory>
    ensures { OnOk result (text.new.items ≡ text.old.items
        ++ flat_map (λ group. flat_map take_line (units_in group)) (range_with_len 0 count)) }
{
    for group in 0..count {
        add_takes_in(text, group)?;
    }
    Ok(())
}

fn add_takes_in(text: &mut Vec<u8>, group: u32) -> Result<(), NoMemory>
    ensures { OnOk result (text.new.items ≡ text.old.items ++ flat_map take_line (units_in group)) }
{
    let mut buffer = Buffer::new();
    let digits = buffer.format(group).as_bytes();
    add(
        text,
        &[
            b"take u",
            digits,
            b"a\ntake u",
            digits,
            b"b\ntake u",
            digits,
            b"c\n",
        ],
    )
}

// Adds so many lines that return the first unit of a group.
fn add_returns(text: &mut Vec<u8>, count: u32) -> Result<(), NoMemory>
    requires { count ≤ 100 }
    ensures { OnOk result (text.new.items ≡ text.old.items ++ flat_map return_line (range_with_len 0 count)) }
{
    for k in 0..count {
        let mut digits = Buffer::new();
        add(
            text,
            &[b"return u", digits.format(2 * k).as_bytes(), b"a\n"],
        )?;
    }
    Ok(())
}
