//! The minimal sets of a family.
ghost use Rattle.std.specs.Prelude.{◌≡◌, ◌≤◌, List, ℕ, IfErr, IfOk, MatchResult};
ghost use Rattle.zdd_families.specs.Due.{IsDueToMinimal};
ghost use Rattle.zdd_families.specs.Minimal.{IsMinimal};
ghost use Rattle.zdd_families.specs.Without.{IsWithout};
ghost use Rattle.zdd_families.specs.Map.{Knows, family};
ghost use Rattle.zdd_shared_table.specs.Seats.{map_of};
ghost use Rattle.zdd_product.specs.Due.{IsMadeByMinimal, IsMadeByWithout};
ghost use Rattle.zdd_product.specs.Seats.{Gave, KnowsBoth, WasFull};

use crate::halves::Split;
use crate::ops::Ops;
use kept_answers::Operation;
use zdd_shared_table::Full;
use zdd_words::NodeRef;

impl<'s> Ops<'s> {
    /// The sets of a family that include no other set of it.
    pub fn minimal(&mut self, a: NodeRef) -> Result<NodeRef, Full>
        requires { Knows (map_of self.old) a }
        ensures gives { let f = family (map_of self.old) a in
            IfOk result (Gave (IsMinimal f) (IsDueToMinimal f) self.old self.new) }

        // Only a search that passed every slot of the store ends the operation, and it is counted.
        ensures full { let f = family (map_of self.old) a in
            IfErr result (λ _. WasFull (IsDueToMinimal f) self.old self.new) }
    {
        self.least(a)
    }

    // The minimal sets, of which an end makes nothing.
    #[cycle(least)]
    fn least(&mut self, a: NodeRef) -> Result<NodeRef, Full>
        requires { Knows (map_of self.old) a }
        ensures { let f = family (map_of self.old) a in
            MatchResult result (Gave (IsMinimal f) (IsMadeByMinimal f) self.old self.new)
            (λ _. WasFull (IsMadeByMinimal f) self.old self.new) }
    {
        self.is_sound();
        if a.number() < 2 {
            return Ok(a);
        }
        if let Some(answer) = self.recall(Operation::Minimal, a, NodeRef::EMPTY) {
            return Ok(answer);
        }
        let made = self.least_halves(a)?;
        self.remember(Operation::Minimal, a, NodeRef::EMPTY, made);
        Ok(made)
    }

    // The minimal sets of a node.
    #[cycle(least)]
    fn least_halves(&mut self, a: NodeRef) -> Result<NodeRef, Full>
        requires knows { Knows (map_of self.old) a }
        requires inner { 2 ≤ a }
        ensures { let f = family (map_of self.old) a in
            MatchResult result (Gave (IsMinimal f) (IsMadeByMinimal f) self.old self.new)
            (λ _. WasFull (IsMadeByMinimal f) self.old self.new) }
    {
        let Split { level, half } = self.split_node(a);
        let lo = self.least(half.lo)?;
        let high = self.least(half.hi)?;
        let hi = self.strip_least(high, lo)?;
        self.make(level, lo, hi)
    }

    // What is left of some sets without those that include one of the minimal sets of a family.
    fn strip_least(&mut self, high: NodeRef, low: NodeRef) -> Result<NodeRef, Full>
        requires both { KnowsBoth self.old high low }
        requires least { (f : List (List ℕ)) × IsMinimal f (family (map_of self.old) low) }
        ensures { let f = family (map_of self.old) high in let g = family (map_of self.old) low in
            MatchResult result (Gave (IsWithout f g) (IsMadeByWithout f g) self.old self.new)
            (λ _. WasFull (IsMadeByWithout f g) self.old self.new) }
    {
        // Minimal sets with the empty set are the empty set alone, so there is no need to look for it in a long chain.
        if high == NodeRef::UNIT && low != NodeRef::UNIT {
            return Ok(high);
        }
        self.strip(high, low)
    }
}
