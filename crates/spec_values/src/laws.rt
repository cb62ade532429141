//! A law about terms, for callers that cite it: `short_terms_are_moderate`. The function has no code.

ghost use Rattle.spec_values.specs.Laws.{ShortIsModerate, ShortIsModerateOn};

/// Short terms have moderate values where the ports hold numerals, by themselves and in formulas on traces. (A law
/// without code: who calls this may rely on it.)
pub fn short_terms_are_moderate()
    ensures terms { ShortIsModerate }
    ensures formulas { ShortIsModerateOn }
{}
