//! The dual kind of a gate: by it the gate stays in service.
ghost use Rattle.std.specs.Prelude.{◌≡◌};
ghost use Rattle.path_sets.specs.Dual.{CanTurn, dual_kind};

use fault_model::GateKind;

/// The kind by which a gate stays in service where its inputs do. What reads as `and` serves as an `or`, and the other
/// way; K of N fail unless N-K+1 of N serve.
pub(crate) fn dual_kind(kind: GateKind) -> GateKind
    requires { CanTurn kind }
    ensures { result ≡ dual_kind kind }
{
    match kind {
        GateKind::Or => GateKind::And,
        GateKind::Votes(least, of) => GateKind::Votes(of - least + 1, of),
        GateKind::Por => GateKind::Por,
        GateKind::Fdep => GateKind::Fdep,
        GateKind::And
        | GateKind::Pand
        | GateKind::Seq
        | GateKind::Csp
        | GateKind::Wsp
        | GateKind::Hsp => GateKind::Or,
    }
}
