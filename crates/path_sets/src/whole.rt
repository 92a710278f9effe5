//! Which path set a set of outages leaves whole.
ghost use Rattle.std.specs.Prelude.{◌≡◌, ◌↔◌, true, IsNone, position};
ghost use Rattle.fault_definitions.specs.Cut.{is_cut};
ghost use Rattle.path_sets.specs.Paths.{IsPathList, is_whole, meets};

use fault_model::Tree;
use unit_sets::{CutList, UnitNo, UnitSet};

/// The place, from 0, of the first path set that has no member out, in the path list of a tree. There is none exactly
/// where the units that are out are a cut.
pub fn whole_path(tree: &Tree, paths: &CutList, out: &UnitSet) -> Option<usize>
    requires { IsPathList tree.now paths.now }
    ensures first { result ≡ position (is_whole out.now) paths.now }
    ensures none { IsNone result ↔ (is_cut tree.now out.now ≡ true) }
{
    // Tells the proof what a tree keeps.
    tree.units();
    for i in 0..paths.len() {
        if !has_member_out(paths.members(i), out) {
            return Some(i);
        }
    }
    None
}

// Whether some member of a path is out.
fn has_member_out(path: &[UnitNo], out: &UnitSet) -> bool
    ensures { result ≡ meets out.now path.now }
{
    path.iter().any(|unit| out.contains(*unit))
}
