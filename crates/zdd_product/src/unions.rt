//! The union of two families.
ghost use Rattle.std.specs.Prelude.{◌≡◌, ◌≢◌, ◌⊎◌, IfErr, IfOk, MatchOption, MatchResult};
ghost use Rattle.zdd_families.specs.Due.{IsDueToUnion};
ghost use Rattle.zdd_families.specs.Union.{IsUnion};
ghost use Rattle.zdd_families.specs.Map.{Knows, family};
ghost use Rattle.zdd_shared_table.specs.Seats.{map_of};
ghost use Rattle.zdd_product.specs.Due.{IsMadeByUnion};
ghost use Rattle.zdd_product.specs.Seats.{Gave, KnowsBoth, WasFull};

use crate::halves::Halves;
use crate::ops::Ops;
use kept_answers::Operation;
use zdd_shared_table::Full;
use zdd_words::NodeRef;

// The union, where one of both families has no sets, of which 0 is the number, or both are one.
fn union_end(a: NodeRef, b: NodeRef) -> Option<NodeRef>
    ensures { MatchOption result ((a ≢ 0) × (b ≢ 0) × (a ≢ b))
        (λ r. ((a ≡ 0) × (r ≡ b)) ⊎ ((b ≡ 0) × (r ≡ a)) ⊎ ((a ≡ b) × (r ≡ a))) }
{
    let first = a.number();
    let second = b.number();
    if first == 0 {
        return Some(b);
    }
    if second == 0 || first == second {
        return Some(a);
    }
    None
}

impl<'s> Ops<'s> {
    /// The sets of either family.
    pub fn union(&mut self, a: NodeRef, b: NodeRef) -> Result<NodeRef, Full>
        requires knows_a { Knows (map_of self.old) a }
        requires knows_b { Knows (map_of self.old) b }
        ensures gives { let f = family (map_of self.old) a in let g = family (map_of self.old) b in
            IfOk result (Gave (IsUnion f g) (IsDueToUnion f g) self.old self.new) }

        // Only a search that passed every slot of the store ends the operation, and it is counted.
        ensures full { let f = family (map_of self.old) a in let g = family (map_of self.old) b in
            IfErr result (λ _. WasFull (IsDueToUnion f g) self.old self.new) }
    {
        self.is_sound();
        self.unite(a, b)
    }

    // The union, of which an end makes nothing.
    #[cycle(unite)]
    pub(crate) fn unite(&mut self, a: NodeRef, b: NodeRef) -> Result<NodeRef, Full>
        requires { KnowsBoth self.old a b }
        ensures { let f = family (map_of self.old) a in let g = family (map_of self.old) b in
            MatchResult result (Gave (IsUnion f g) (IsMadeByUnion f g) self.old self.new)
            (λ _. WasFull (IsMadeByUnion f g) self.old self.new) }
    {
        if let Some(end) = union_end(a, b) {
            return Ok(end);
        }
        if let Some(answer) = self.recall(Operation::Union, a, b) {
            return Ok(answer);
        }
        let made = self.unite_halves(a, b)?;
        self.remember(Operation::Union, a, b, made);
        Ok(made)
    }

    // The union of two families that is no end, by their halves.
    #[cycle(unite)]
    fn unite_halves(&mut self, a: NodeRef, b: NodeRef) -> Result<NodeRef, Full>
        requires both { KnowsBoth self.old a b }
        requires goes_on { (a ≢ 0) × (b ≢ 0) × (a ≢ b) }
        ensures { let f = family (map_of self.old) a in let g = family (map_of self.old) b in
            MatchResult result (Gave (IsUnion f g) (IsMadeByUnion f g) self.old self.new)
            (λ _. WasFull (IsMadeByUnion f g) self.old self.new) }
    {
        let Halves {
            level,
            first,
            second,
        } = self.halves(a, b);
        let lo = self.unite(first.lo, second.lo)?;
        let hi = self.unite(first.hi, second.hi)?;
        self.make(level, lo, hi)
    }
}
