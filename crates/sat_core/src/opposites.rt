//! Opposite assumptions: `units_log` is the log that resolves their unit clauses. It only reads.

ghost use Rattle.std.specs.Prelude.{◌≡◌, ◌<◌, ◌+◌, ℕ, List, [], ◌∷◌, length, IfOk, MatchOption, Contains};
ghost use Rattle.std.specs.Prelude.{slice_index_or};
ghost use Rattle.cnf.specs.declared.lit.Lit.{Lit};
ghost use Rattle.cnf.specs.Clauses.{opposite};
ghost use Rattle.clause_log.specs.Derivations.{Derives};
ghost use Rattle.sat_core.specs.Numbering.{clauses_with_units};
ghost use Rattle.sat_core.specs.Outcomes.{HasOpposites, AreOpposite, IsOfUnits, StandsAt};

use crate::chain::{Derivation, Resolution};
use crate::clause_ref::ClauseRef;
use crate::log::chain;
use clause_log::ChainLog;
use cnf::{Clause, Lit};
use port_types::NoMemory;
use std::alloc::Global;

/// The log that resolves the unit clauses of two opposite assumptions.
pub fn units_log(
    alloc: Global,
    added: &[Clause],
    assumed: &[Lit],
    place: usize,
    other: usize,
) -> Result<ChainLog, NoMemory>
    requires { AreOpposite assumed.now place other }
    ensures derives { IfOk result (Derives (clauses_with_units added.now assumed.now)) }
    ensures units { IfOk result (IsOfUnits (length added.now) assumed.now) }
{
    let mut rest = Vec::new(alloc);
    rest.push(Resolution {
        var: assumed[place].var,
        reason: ClauseRef::Assumed(other),
    })?;
    let derivation = Derivation {
        first: ClauseRef::Assumed(place),
        rest,
    };
    let end = chain(alloc, &[], &derivation, added.len(), &[])?;
    let mut log = ChainLog::new(alloc);
    log.push(end)?;
    Ok(log)
}
