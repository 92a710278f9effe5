//! The sets of a list in the order of cut lists.
ghost use Rattle.std.specs.Prelude.{map, refl, IfOk};
ghost use Rattle.std.specs.Cmp.{eq_by_cmp_equiv, on_total, partial_equiv_from_equiv, partial_order_from_total};
ghost use Rattle.std.specs.Ordering.{as_partial_cmp, eq_by_cmp, on};
ghost use Rattle.unit_sets.specs.CutOrder.{cut_cmp, cut_cmp_total};

use crate::{NoMemory, Sets, UnitNo};
use std::alloc::Global;
use std::cmp::Ordering;
use unit_sets::compare_cuts;

// A set of a list, which goes before larger ones, and before those of its size that are lexicographically greater.
#[derive(Clone, Copy)]
pub struct Cut<'a> {
    pub units: &'a [UnitNo],
}

impl<'a> PartialEq for Cut<'a> {
    ghost use Rattle.cutset_lists.specs.Cuts.{units_of};

    ghost eq = { eq_by_cmp (on units_of cut_cmp) };

    ghost laws = { partial_equiv_from_equiv (eq_by_cmp_equiv (on_total units_of cut_cmp_total)) };

    fn eq(&self, other: &Self) -> bool {
        self.cmp(other).is_eq()
    }
}

impl<'a> Eq for Cut<'a> {
    ghost use Rattle.cutset_lists.specs.Cuts.{units_of};

    ghost laws = { eq_by_cmp_equiv (on_total units_of cut_cmp_total) };
}

impl<'a> PartialOrd for Cut<'a> {
    ghost use Rattle.cutset_lists.specs.Cuts.{units_of};

    ghost partial_cmp = { as_partial_cmp (on units_of cut_cmp) };

    ghost laws = { partial_order_from_total (on_total units_of cut_cmp_total) };

    fn partial_cmp(&self, other: &Self) -> Option<Ordering> {
        Some(self.cmp(other))
    }
}

impl<'a> Ord for Cut<'a> {
    ghost use Rattle.cutset_lists.specs.Cuts.{units_of};

    ghost cmp = { on units_of cut_cmp };

    ghost total = { on_total units_of cut_cmp_total };

    ghost matches_partial_cmp = { λ x y. refl };

    ghost matches_eq = { λ x y. refl };

    fn cmp(&self, other: &Self) -> Ordering {
        compare_cuts(self.units, other.units)
    }
}
