//! Laws about substitution, for callers that cite them. The function has no code.

ghost use Rattle.connections.specs.Laws.{SubstitutionKeepsTruth};

/// On every trace whose connections hold, a formula and its substituted form have the same truth at
/// every position.
pub fn substitution_keeps_truth()
    ensures { SubstitutionKeepsTruth }
{}
