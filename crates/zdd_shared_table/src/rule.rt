//! The rule of the table, and what each kind of step tells the seat that makes it.
use crate::view::View;
use atomic_table::{Join, Play, Split, TableRule};
use std::marker::{Brand, PhantomData};

pub struct NodeRule;

impl TableRule<(), View, u32> for NodeRule {
    ghost use Rattle.std.specs.Prelude.{◌^◌};
    ghost use Rattle.zdd_shared_table.specs.Rule.{IsStore};
    ghost use Rattle.zdd_shared_table.specs.Views.{first_view};

    ghost holds = { IsStore };

    ghost first = { λ bits. first_view (2 ^ bits) };
}

/// The word that a search asks for, and how many slots it has passed.
pub trait Asked {
    ghost use Rattle.std.specs.Prelude.{ℕ};

    ghost word: { ℕ };

    ghost passed: { ℕ };
}

impl Asked for Brand {
    ghost word = { 0 };

    ghost passed = { 0 };
}

/// A load of a slot in a search.
pub struct Loads<A> {
    asked: PhantomData<A>,
}

impl<A: Asked> Play<(), View> for Loads<A> {
    ghost use Rattle.std.specs.Prelude.{◌≡◌};
    ghost use Rattle.zdd_shared_table.specs.Views.{loaded};
    ghost use Rattle.zdd_shared_table.specs.Seats.{IsSoundView};

    ghost then = { λ step before found after. (after.0 ≡ loaded A.word A.passed step.word found before.0)
        × (after.1 ≡ before.1)
        × IsSoundView after.0 };
}

/// An exchange of an empty slot in a search.
pub struct Exchanges<A> {
    asked: PhantomData<A>,
}

impl<A: Asked> Play<(), View> for Exchanges<A> {
    ghost use Rattle.std.specs.Prelude.{◌≡◌};
    ghost use Rattle.zdd_shared_table.specs.Views.{exchanged};
    ghost use Rattle.zdd_shared_table.specs.Seats.{IsSoundView};

    ghost then = { λ step before found after. (after.0 ≡ exchanged A.word A.passed step.word found before.0)
        × (after.1 ≡ before.1) × IsSoundView after.0 };
}

/// A load of the slot of a known reference.
pub struct Reads;

impl Play<(), View> for Reads {
    ghost use Rattle.std.specs.Prelude.{◌≡◌, ◌+◌, ◌≢◌};
    ghost use Rattle.zdd_shared_table.specs.Known.{find};

    ghost then = { λ step before found after. (after.0 ≡ before.0) × (after.1 ≡ before.1)
        × (find before.0.known (step.word + 2) ≢ 0 → found ≡ find before.0.known (step.word + 2)) };
}

/// A load that tells what the rule says of the seat.
pub struct Looks;

impl Play<(), View> for Looks {
    ghost use Rattle.std.specs.Prelude.{◌≡◌};
    ghost use Rattle.zdd_shared_table.specs.Seats.{IsSoundView};

    ghost then = { λ step before found after. (after.0 ≡ before.0) × (after.1 ≡ before.1) × IsSoundView after.0 };
}

/// The share that a seat gives.
pub trait Given {
    ghost use Rattle.std.specs.Prelude.{ℕ};

    ghost share: { ℕ };
}

impl Given for Brand {
    ghost share = { 1 };
}

/// How a seat's view is cut in two.
pub struct Cuts<G> {
    given: PhantomData<G>,
}

impl<G: Given> Split<View> for Cuts<G> {
    ghost use Rattle.zdd_shared_table.specs.Views.{kept_back, split_off};

    ghost left = { kept_back G.share };

    ghost right = { split_off G.share };
}

/// How two views are made one.
pub struct Merges;

impl Join<View> for Merges {
    ghost use Rattle.zdd_shared_table.specs.Views.{joined, spent};

    ghost both = { joined };

    ghost spent = { spent };
}
