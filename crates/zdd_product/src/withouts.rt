//! What is left of a family without the sets that include a set of another.
ghost use Rattle.std.specs.Prelude.{◌≡◌, ◌≤◌, ◌⊎◌, [], ◌∷◌, IfErr, IfOk, MatchOption, MatchResult};
ghost use Rattle.zdd_families.specs.Due.{IsDueToWithout};
ghost use Rattle.zdd_families.specs.Inclusion.{includes_one};
ghost use Rattle.zdd_families.specs.Without.{IsWithout};
ghost use Rattle.zdd_families.specs.Map.{Knows, family};
ghost use Rattle.zdd_shared_table.specs.Seats.{map_of};
ghost use Rattle.zdd_product.specs.Due.{IsMadeByWithout};
ghost use Rattle.zdd_product.specs.Seats.{Gave, KnowsBoth, KnowsOne, WasFull};

use crate::halves::Halves;
use crate::ops::Ops;
use kept_answers::Operation;
use zdd_shared_table::Full;
use zdd_words::NodeRef;

// What is left, where one of both families has no sets or the other has the empty set alone, which every set includes.
fn without_end(a: NodeRef, b: NodeRef) -> Option<NodeRef>
    ensures { MatchOption result ((1 ≤ a) × (2 ≤ b))
        (λ r. ((a ≡ 0) × (r ≡ a)) ⊎ ((b ≡ 0) × (r ≡ a)) ⊎ ((b ≡ 1) × (r ≡ 0))) }
{
    let second = b.number();
    if a.number() == 0 || second == 0 {
        return Some(a);
    }
    if second == 1 {
        return Some(NodeRef::EMPTY);
    }
    None
}

impl<'s> Ops<'s> {
    /// The sets of the one family that include no set of the other.
    pub fn without(&mut self, a: NodeRef, b: NodeRef) -> Result<NodeRef, Full>
        requires knows_a { Knows (map_of self.old) a }
        requires knows_b { Knows (map_of self.old) b }
        ensures gives { let f = family (map_of self.old) a in let g = family (map_of self.old) b in
            IfOk result (Gave (IsWithout f g) (IsDueToWithout f g) self.old self.new) }

        // Only a search that passed every slot of the store ends the operation, and it is counted.
        ensures full { let f = family (map_of self.old) a in let g = family (map_of self.old) b in
            IfErr result (λ _. WasFull (IsDueToWithout f g) self.old self.new) }
    {
        self.is_sound();
        self.strip(a, b)
    }

    // What is left, of which an end makes nothing.
    #[cycle(strip)]
    pub(crate) fn strip(&mut self, a: NodeRef, b: NodeRef) -> Result<NodeRef, Full>
        requires { KnowsBoth self.old a b }
        ensures { let f = family (map_of self.old) a in let g = family (map_of self.old) b in
            MatchResult result (Gave (IsWithout f g) (IsMadeByWithout f g) self.old self.new)
            (λ _. WasFull (IsMadeByWithout f g) self.old self.new) }
    {
        if let Some(end) = without_end(a, b) {
            return Ok(end);
        }
        if a.number() == 1 {
            return Ok(self.strip_unit(a, b));
        }
        if let Some(answer) = self.recall(Operation::Without, a, b) {
            return Ok(answer);
        }
        let made = self.strip_halves(a, b)?;
        self.remember(Operation::Without, a, b, made);
        Ok(made)
    }

    // What is left of two families that is no end, by their halves.
    #[cycle(strip)]
    fn strip_halves(&mut self, a: NodeRef, b: NodeRef) -> Result<NodeRef, Full>
        requires both { KnowsBoth self.old a b }
        requires inner { (2 ≤ a) × (2 ≤ b) }
        ensures { let f = family (map_of self.old) a in let g = family (map_of self.old) b in
            MatchResult result (Gave (IsWithout f g) (IsMadeByWithout f g) self.old self.new)
            (λ _. WasFull (IsMadeByWithout f g) self.old self.new) }
    {
        let Halves {
            level,
            first,
            second,
        } = self.halves(a, b);
        let lo = self.strip(first.lo, second.lo)?;
        let some = self.strip(first.hi, second.hi)?;
        let hi = self.strip(some, second.lo)?;
        self.make(level, lo, hi)
    }

    // Whether a family has the empty set.
    fn has_empty_set(&mut self, r: NodeRef) -> bool
        requires { Knows (map_of self.old) r }
        ensures empty { result ≡ includes_one (family (map_of self.old) r) [] }
        ensures seat { self.new ≡ self.old }
    {
        self.is_sound();
        let mut lowest = r;
        while lowest.number() >= 2 {
            lowest = self.split_node(lowest).half.lo;
        }
        lowest == NodeRef::UNIT
    }

    // What is left of the empty set alone.
    fn strip_unit(&mut self, a: NodeRef, b: NodeRef) -> NodeRef
        requires unit { a ≡ 1 }
        requires knows { Knows (map_of self.old) b }
        ensures known { KnowsOne (map_of self.old) result
            (IsWithout (family (map_of self.old) a) (family (map_of self.old) b)) }
        ensures seat { self.new ≡ self.old }
    {
        if self.has_empty_set(b) {
            NodeRef::EMPTY
        } else {
            a
        }
    }
}
