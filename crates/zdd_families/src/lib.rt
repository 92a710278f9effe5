//! Families of sets of units, which family a reference of a shared diagram stands for, and what operations make of
//! families.
//!
//! This crate stands on `unit_sets` and `zdd_words` and has no code that runs: it has the definitions that the stores,
//! the operations and the listing share, and their laws. A family is the list of its sets in lexicographic order, so
//! equal families are equal values. A map of references is a function from a reference's number to its node word, which
//! is 0 where the map lacks the reference.
//!
//! [`laws`] are of families and of references. [`operation_laws`] has for the union, the product and the others, which
//! are said without a diagram, the laws by which a diagram computes them: what each is at an end of the recursion, and
//! how it comes from the parts of its operands at one unit. By [`part_laws`] every part of a result, as splitting at
//! least units gives it, is due to the operation or a part of an operand, so that a result may be got in any way that
//! makes its parts alone. [`minimal_laws`] is about families in which no set includes another: such a family is
//! determined by the sets of units that include a set of it, so an operation that keeps families minimal is said by
//! these.
#![tactic(auto)]

pub mod laws;
pub mod minimal_laws;
pub mod operation_laws;
pub mod part_laws;
