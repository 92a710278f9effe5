//! Steps of a recipe that are no operation of the store alone.
ghost use Rattle.std.specs.Prelude.{◌≡◌, MatchResult};
ghost use Rattle.tree_families.specs.Recipe.{alone};
ghost use Rattle.zdd_families.specs.Map.{Knows, family};
ghost use Rattle.zdd_shared_table.specs.Seats.{map_of};
ghost use Rattle.zdd_product.specs.Seats.{Gave, WasFull};
ghost use Rattle.zdd_nodes.specs.Steps.{IsLeastProduct, IsDueToLeastProduct};

use unit_sets::UnitNo;
use zdd_product::Ops;
use zdd_shared_table::Full;
use zdd_words::NodeRef;

/// The family of the set of a unit alone.
pub fn single(ops: &mut Ops, unit: UnitNo) -> Result<NodeRef, Full>
    ensures { MatchResult result (Gave (λ h. h ≡ alone unit) (λ h. h ≡ alone unit) ops.old ops.new)
        (λ _. WasFull (λ h. h ≡ alone unit) ops.old ops.new) }
{
    ops.is_sound();
    ops.node(unit, NodeRef::EMPTY, NodeRef::UNIT)
}

// The minimal sets of a product.
pub(crate) fn multiply_least(ops: &mut Ops, a: NodeRef, b: NodeRef) -> Result<NodeRef, Full>
    requires knows_a { Knows (map_of ops.old) a }
    requires knows_b { Knows (map_of ops.old) b }
    ensures { let f = family (map_of ops.old) a in let g = family (map_of ops.old) b in
        MatchResult result (Gave (IsLeastProduct f g) (IsDueToLeastProduct f g) ops.old ops.new)
        (λ _. WasFull (IsDueToLeastProduct f g) ops.old ops.new) }
{
    let product = ops.product(a, b)?;
    ops.minimal(product)
}
