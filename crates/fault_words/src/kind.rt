//! The kinds of gates.

/// What a gate does with its inputs, by the Galileo manual's gate words.
#[derive(Clone, Copy, Debug, PartialEq, Eq)]
pub enum GateKind {
    /// All inputs fail.
    And,
    /// Some input fails.
    Or,
    /// At least the first number of the input positions fail, of which there are as many as the second says.
    Votes(u32, u32),
    /// All inputs fail, from left to right.
    Pand,
    /// The first input fails, and none of the others before it.
    Por,
    /// All inputs fail, and they can fail from left to right alone.
    Seq,
    /// The first input is a trigger, by which the others fail.
    Fdep,
    /// The primary, then its cold spares, which can't fail by themselves before they are needed.
    Csp,
    /// The primary, then its warm spares.
    Wsp,
    /// The primary, then its hot spares.
    Hsp,
}
