//! The text of waves.
ghost use Rattle.std.specs.Prelude.{◌≡◌, ℕ, true, false, List, All, OnOk, is_err};
ghost use Rattle.std.specs.List.{flat_map};
ghost use Rattle.edge_io.specs.Out.{has_failed, Puts};
ghost use Rattle.fault_words.specs.Name.{is_name};
ghost use Rattle.fault_definitions.specs.Tree.{IsUnitOf, name_of};
ghost use Rattle.margin_policy.specs.Asked.{has_repeat};
ghost use Rattle.wave_planner.specs.Waves.{AreFirstFit};
ghost use Rattle.wave_planner.specs.WavesText.{HaveNames, SaysPlanner, unit_line, unit_lines, wave_lines, waves_text};

use crate::Waves;
use crate::laws::written_waves_say_one_crew;
use edge_io::{Out, Sink, WriteFault};
use fault_model::{Name, NodeNo, Tree};
use text_pieces::put_named;
use unit_sets::UnitNo;

/// Puts the crew part that serves waves of units of the tree: the crew `planner`, which takes the units of a wave one
/// by one and then returns them, wave after wave. Where all of it is put and the waves are a plan for units of the
/// tree, its lines say this crew and have no fault.
pub fn put_waves<K: Sink>(out: &mut Out<K>, tree: &Tree, waves: &Waves) -> Result<(), WriteFault>
    requires { All (All (IsUnitOf tree.now)) waves.now }
    ensures puts { Puts K.taken K.faults out.old out.new (waves_text tree.now waves.now) }
    ensures answer { is_err result ≡ has_failed out.new }
    ensures read { OnOk result ((cuts : List (List ℕ)) (margin : ℕ) (wanted : List ℕ)
        → AreFirstFit cuts margin wanted waves.now → has_repeat wanted ≡ false → All (IsUnitOf tree.now) wanted
        → SaysPlanner tree.now waves.now) }
{
    written_waves_say_one_crew();
    // The number of units tells the proof what every tree keeps.
    tree.units();
    out.put(b"crew planner\n")?;
    put_each(out, tree, waves)
}

fn put_each<K: Sink>(out: &mut Out<K>, tree: &Tree, waves: &Waves) -> Result<(), WriteFault>
    requires units { All (All (IsUnitOf tree.now)) waves.now }
    requires fine { has_failed out.old ≡ false }
    ensures puts { Puts K.taken K.faults out.old out.new (flat_map (wave_lines tree.now) waves.now) }
    ensures answer { is_err result ≡ has_failed out.new }
    ensures named { OnOk result (All (HaveNames tree.now) waves.now) }
{
    for i in 0..waves.len() {
        put_wave(out, tree, waves.wave(i))?;
    }
    Ok(())
}

fn put_wave<K: Sink>(out: &mut Out<K>, tree: &Tree, wave: &[UnitNo]) -> Result<(), WriteFault>
    requires units { All (IsUnitOf tree.now) wave.now }
    requires fine { has_failed out.old ≡ false }
    ensures puts { Puts K.taken K.faults out.old out.new (wave_lines tree.now wave.now) }
    ensures answer { is_err result ≡ has_failed out.new }
    ensures named { OnOk result (HaveNames tree.now wave.now) }
{
    put_lines(out, b"take", tree, wave)?;
    put_lines(out, b"return", tree, wave)
}

// Puts a line with a word and the name of each unit of a wave.
fn put_lines<K: Sink>(
    out: &mut Out<K>,
    word: &[u8],
    tree: &Tree,
    wave: &[UnitNo],
) -> Result<(), WriteFault>
    requires units { All (IsUnitOf tree.now) wave.now }
    requires fine { has_failed out.old ≡ false }
    ensures puts { Puts K.taken K.faults out.old out.new (unit_lines word.now tree.now wave.now) }
    ensures answer { is_err result ≡ has_failed out.new }
    ensures named { OnOk result (HaveNames tree.now wave.now) }
{
    for unit in wave {
        put_line(out, word, tree, *unit)?;
    }
    Ok(())
}

fn put_line<K: Sink>(
    out: &mut Out<K>,
    word: &[u8],
    tree: &Tree,
    unit: UnitNo,
) -> Result<(), WriteFault>
    requires { IsUnitOf tree.now unit }
    ensures puts { Puts K.taken K.faults out.old out.new (unit_line word.now tree.now unit) }
    ensures answer { is_err result ≡ has_failed out.new }
    ensures named { is_name (name_of tree.now unit) ≡ true }
{
    // A write that failed fails again at the end of the line.
    let _ = out.put(word);
    let _ = put_named(out, unit_name(tree, unit));
    out.put(b"\n")
}

fn unit_name(tree: &Tree, unit: UnitNo) -> &Name
    requires { IsUnitOf tree.now unit }
    ensures name { result.now ≡ name_of tree.now unit }
    ensures form { is_name result.now ≡ true }
{
    let name = tree.name(NodeNo(u32::from(unit.number())));
    // The bytes of a name tell the proof that they have the form of one.
    name.as_slice();
    name
}
