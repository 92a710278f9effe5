//! The product of two families.
ghost use Rattle.std.specs.Prelude.{◌≡◌, ◌≤◌, ◌⊎◌, IfErr, IfOk, MatchOption, MatchResult};
ghost use Rattle.zdd_families.specs.Due.{IsDueToProduct};
ghost use Rattle.zdd_families.specs.Product.{IsProduct};
ghost use Rattle.zdd_families.specs.Map.{Knows, family};
ghost use Rattle.zdd_shared_table.specs.Seats.{map_of};
ghost use Rattle.zdd_product.specs.Due.{IsMadeByProduct, IsMadeWith, IsProductWith};
ghost use Rattle.zdd_product.specs.Halves.{KnowsHalves};
ghost use Rattle.zdd_product.specs.Seats.{Gave, KnowsBoth, WasFull};

use crate::halves::{Half, Halves};
use crate::ops::Ops;
use kept_answers::Operation;
use zdd_shared_table::Full;
use zdd_words::NodeRef;

// The product, where one of both families has no sets, of which 0 is the number, or the empty set alone, of which 1 is.
fn product_end(a: NodeRef, b: NodeRef) -> Option<NodeRef>
    ensures { MatchOption result ((2 ≤ a) × (2 ≤ b))
        (λ r. ((a ≡ 0) × (r ≡ a)) ⊎ ((b ≡ 1) × (r ≡ a)) ⊎ ((b ≡ 0) × (r ≡ b)) ⊎ ((a ≡ 1) × (r ≡ b))) }
{
    let first = a.number();
    let second = b.number();
    if first == 0 || second == 1 {
        return Some(a);
    }
    if second == 0 || first == 1 {
        return Some(b);
    }
    None
}

impl<'s> Ops<'s> {
    /// Each union of a set of the one family and a set of the other.
    pub fn product(&mut self, a: NodeRef, b: NodeRef) -> Result<NodeRef, Full>
        requires knows_a { Knows (map_of self.old) a }
        requires knows_b { Knows (map_of self.old) b }
        ensures gives { let f = family (map_of self.old) a in let g = family (map_of self.old) b in
            IfOk result (Gave (IsProduct f g) (IsDueToProduct f g) self.old self.new) }

        // Only a search that passed every slot of the store ends the operation, and it is counted.
        ensures full { let f = family (map_of self.old) a in let g = family (map_of self.old) b in
            IfErr result (λ _. WasFull (IsDueToProduct f g) self.old self.new) }
    {
        self.is_sound();
        self.multiply(a, b)
    }

    // The product, of which an end makes nothing.
    #[cycle(multiply)]
    pub(crate) fn multiply(&mut self, a: NodeRef, b: NodeRef) -> Result<NodeRef, Full>
        requires { KnowsBoth self.old a b }
        ensures { let f = family (map_of self.old) a in let g = family (map_of self.old) b in
            MatchResult result (Gave (IsProduct f g) (IsMadeByProduct f g) self.old self.new)
            (λ _. WasFull (IsMadeByProduct f g) self.old self.new) }
    {
        if let Some(end) = product_end(a, b) {
            return Ok(end);
        }
        if let Some(answer) = self.recall(Operation::Product, a, b) {
            return Ok(answer);
        }
        let made = self.multiply_halves(a, b)?;
        self.remember(Operation::Product, a, b, made);
        Ok(made)
    }

    // The product of two families that is no end, by their halves.
    #[cycle(multiply)]
    fn multiply_halves(&mut self, a: NodeRef, b: NodeRef) -> Result<NodeRef, Full>
        requires both { KnowsBoth self.old a b }
        requires inner { (2 ≤ a) × (2 ≤ b) }
        ensures { let f = family (map_of self.old) a in let g = family (map_of self.old) b in
            MatchResult result (Gave (IsProduct f g) (IsMadeByProduct f g) self.old self.new)
            (λ _. WasFull (IsMadeByProduct f g) self.old self.new) }
    {
        let Halves {
            level,
            first,
            second,
        } = self.halves(a, b);
        let lo = self.multiply(first.lo, second.lo)?;
        let hi = self.multiply_with(first, second)?;
        self.make(level, lo, hi)
    }

    // Of the product of two families by their halves: the sets with the unit, it taken out.
    #[cycle(multiply)]
    fn multiply_with(&mut self, first: Half, second: Half) -> Result<NodeRef, Full>
        requires { KnowsHalves self.old first second }
        ensures { let f0 = family (map_of self.old) first.lo in let f1 = family (map_of self.old) first.hi in
            let g0 = family (map_of self.old) second.lo in let g1 = family (map_of self.old) second.hi in
            MatchResult result (Gave (IsProductWith f0 f1 g0 g1) (IsMadeWith f0 f1 g0 g1) self.old self.new)
            (λ _. WasFull (IsMadeWith f0 f1 g0 g1) self.old self.new) }
    {
        let both = self.multiply(first.hi, second.hi)?;
        let one = self.multiply(first.hi, second.lo)?;
        let some = self.unite(both, one)?;
        let other = self.multiply(first.lo, second.hi)?;
        self.unite(some, other)
    }
}
