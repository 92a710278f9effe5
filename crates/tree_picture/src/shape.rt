//! The shapes of nodes, and the style of the lines of inputs.
ghost use Rattle.std.specs.Prelude.{◌≡◌, codes};
ghost use Rattle.unit_sets.specs.UnitList.{among};
ghost use Rattle.tree_picture.specs.PictureText.{gate_shape, input_style, unit_shape};

use fault_model::GateKind;
use unit_sets::UnitNo;

// A circle, which is filled where the unit is among the marked ones.
pub(crate) fn unit_shape(marked: &[UnitNo], unit: u32) -> &'static [u8]
    ensures { result.now ≡ unit_shape marked.now unit }
{
    if is_among(marked, unit) {
        b"circle, style=filled"
    } else {
        b"circle"
    }
}

fn is_among(units: &[UnitNo], unit: u32) -> bool
    ensures { result ≡ among units.now unit }
{
    units
        .iter()
        .any(|member| u32::from(member.number()) == unit)
}

pub(crate) fn gate_shape(kind: GateKind) -> &'static [u8]
    ensures { result.now ≡ gate_shape kind }
{
    match kind {
        GateKind::And => b"trapezium",
        GateKind::Or => b"triangle",
        GateKind::Votes(_, _) => b"hexagon",
        GateKind::Pand => b"trapezium, peripheries=2",
        GateKind::Por => b"triangle, peripheries=2",
        GateKind::Seq => b"box",
        GateKind::Fdep => b"box, style=dashed",
        GateKind::Csp | GateKind::Wsp | GateKind::Hsp => b"component",
    }
}

// The lines of the inputs of an `fdep` are dashed.
pub(crate) fn input_style(kind: GateKind) -> &'static [u8]
    ensures { result.now ≡ input_style kind }
{
    match kind {
        GateKind::Fdep => b" [style=dashed]",
        _ => b"",
    }
}
