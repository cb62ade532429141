//! One walk over an expression, which gives what it stands for, counts the ports that it reads, and notes
//! where its types do not fit: `typed_expression`. It touches nothing outside.

ghost use Rattle.std.specs.Prelude.{◌≡◌, Bool, true, pos, IfOk, OnOk, option_map};
ghost use Rattle.oss_syntax.specs.Expressions.{tree};
ghost use Rattle.spec_names.specs.Noting.{noted};
ghost use Rattle.spec_types.specs.Typing as typing;
ghost use Rattle.spec_types.specs.TypeFaults as faults;
ghost use Rattle.spec_types.specs.Uses as uses;
ghost use Rattle.spec_types.specs.Walks as walks;

use crate::counts::Counts;
use crate::enumerations::Sightings;
use crate::fits::{admits_operand, admits_operands, admits_port};
use crate::operators::{before, between};
use crate::ports::{PortRead, of_wanted, read_name};
use crate::scope::Scope;
use crate::typed::Typed;
use oss_base::{FaultKind, FaultSite, FirstSite};
use oss_syntax::{BinaryWord, Expr, PortWord, PrefixWord, Word};
use port_types::{Interval, NoMemory};
use std::alloc::Global;
use typed_ltl::{Formula, Term};

/// Notes a type mismatch, unless the types fit.
pub(crate) fn note_unless(fits: bool, offset: u32, first: &mut FirstSite)
    ensures { first.new ≡ noted (faults.mismatch_unless fits offset) first.old }
{
    if !fits {
        first.note(FaultSite {
            kind: FaultKind::F16,
            offset,
        });
    }
}

/// Whether a type mismatch at this offset changes nothing, since a fault that it does not go before is known.
pub(crate) fn is_settled(offset: u32, first: &FirstSite) -> bool
    ensures { result ≡ true → ((fits : Bool) → first.now ≡ noted (faults.mismatch_unless fits offset) first.now) }
{
    match first.get() {
        None => false,
        Some(site) => {
            let mismatch = FaultSite {
                kind: FaultKind::F16,
                offset,
            };
            !mismatch.goes_before(site)
        }
    }
}

fn numeral<'a>(value: u32) -> Typed<'a>
    ensures { walks.typed result ≡ typing.Term (typing.numeral_term value) (record { lo = pos value; hi = pos value }) }
{
    let value = i64::from(value);
    Typed::Number(
        Term::Const(value),
        Interval {
            lo: value,
            hi: value,
        },
    )
}

fn truth<'a>(value: bool) -> Typed<'a>
    ensures { walks.typed result ≡ typing.Formula (typing.truth_word value) }
{
    if value {
        Typed::Truth(Formula::True)
    } else {
        Typed::Truth(Formula::False)
    }
}

/// A name that is this port, or an enumerator.
fn named<'a>(
    name: &'a Word,
    port: Option<PortRead<'a>>,
    counts: &mut Counts,
) -> Result<Typed<'a>, NoMemory>
    ensures typed { IfOk result (λ t. walks.typed t ≡ typing.read_name name.now.text
        (option_map walks.port port.entry)) }
    ensures counts { OnOk result (counts.new ≡ uses.count_each counts.old (uses.name_reads
        (option_map walks.port port.entry))) }
{
    counts.add_name(port)?;
    read_name(name, port)
}

fn note_port(word: PortWord, name: &Word, port: Option<PortRead>, first: &mut FirstSite)
    ensures { first.new ≡ noted (faults.port_mismatch word name.now (option_map walks.port port.entry)) first.old }
{
    match port {
        None => {}
        Some(port) => note_unless(admits_port(word, port.kind), name.span.start, first),
    }
}

/// `next`, `change`, `rise` or `fall` of this port.
fn wanted<'a>(
    alloc: Global,
    word: PortWord,
    name: &Word,
    port: Option<PortRead<'a>>,
    counts: &mut Counts,
    first: &mut FirstSite,
) -> Result<Typed<'a>, NoMemory>
    ensures typed { IfOk result (λ t. walks.typed t ≡ typing.of_wanted word (option_map walks.port port.entry)) }
    ensures counts { OnOk result (counts.new ≡ uses.count_each counts.old (uses.wanted_reads word
        (option_map walks.port port.entry))) }
    ensures first { OnOk result (first.new ≡ noted (faults.port_mismatch word name.now
        (option_map walks.port port.entry)) first.old) }
{
    counts.add_wanted(word, port)?;
    note_port(word, name, port, first);
    of_wanted(alloc, word, port)
}

/// An operator before its operand.
fn prefixed<'a>(
    alloc: Global,
    word: PrefixWord,
    operand: Typed<'a>,
    offset: u32,
    first: &mut FirstSite,
) -> Result<Typed<'a>, NoMemory>
    ensures typed { IfOk result (λ t. walks.typed t ≡ typing.typed_prefix word (walks.typed operand.entry)) }
    ensures first { first.new ≡ noted (faults.mismatch_unless (faults.admits_operand word
        (walks.typed operand.entry)) offset) first.old }
{
    note_unless(admits_operand(word, &operand), offset, first);
    before(alloc, word, operand)
}

/// Notes a type mismatch, unless the operands fit or an earlier fault is known.
fn note_operands(
    alloc: Global,
    sightings: &mut Sightings,
    word: BinaryWord,
    left: &Typed,
    right: &Typed,
    offset: u32,
    first: &mut FirstSite,
) -> Result<(), NoMemory>
    ensures { OnOk result (first.new ≡ noted (faults.mismatch_unless (faults.admits_operands word
        (walks.typed left.now) (walks.typed right.now)) offset) first.old) }
{
    if !is_settled(offset, first) {
        let fit = admits_operands(alloc, sightings, word, left, right)?;
        note_unless(fit, offset, first);
    }
    Ok(())
}

/// An operator between its operands.
fn combined<'a>(
    alloc: Global,
    sightings: &mut Sightings,
    word: BinaryWord,
    left: Typed<'a>,
    right: Typed<'a>,
    offset: u32,
    first: &mut FirstSite,
) -> Result<Typed<'a>, NoMemory>
    ensures typed { IfOk result (λ t. walks.typed t ≡ typing.typed_binary word (walks.typed left.entry)
        (walks.typed right.entry)) }
    ensures first { OnOk result (first.new
        ≡ noted (faults.mismatch_unless (faults.admits_operands word (walks.typed left.entry)
        (walks.typed right.entry)) offset) first.old) }
{
    note_operands(alloc, sightings, word, &left, &right, offset, first)?;
    between(alloc, word, left, right)
}

/// What an expression stands for. Its ports are counted, and the first type fault is noted. The recursion
/// is as deep as the expression is high.
#[tactic(auto, using(crate::proofs::Walking::walk_lemmas))]
pub fn typed_expression<'a, 'o>(
    alloc: Global,
    sightings: &mut Sightings,
    scope: &Scope<'a, 'o>,
    expr: &'a Expr,
    counts: &mut Counts,
    first: &mut FirstSite,
) -> Result<Typed<'a>, NoMemory>
    ensures typed { IfOk result (λ t. walks.typed t ≡ typing.typed_of (walks.scope_reading scope.now) (tree expr.now)) }
    ensures counts { OnOk result (counts.new ≡ uses.count_each counts.old (uses.reads (walks.scope_reading scope.now)
        (tree expr.now))) }
    ensures first { OnOk result (first.new ≡ noted (faults.expression_faults (walks.scope_reading scope.now)
        (tree expr.now)) first.old) }
{
    match expr {
        Expr::Name(name) => {
            let port = scope.bare(name)?;
            let typed = named(name, port, counts)?;
            Ok(typed)
        }
        Expr::Dotted(sub, name) => {
            let port = scope.dotted(sub, name)?;
            let typed = named(name, port, counts)?;
            Ok(typed)
        }
        Expr::Numeral(value, _) => Ok(numeral(*value)),
        Expr::Truth(value, _) => Ok(truth(*value)),
        Expr::Brackets(inside, _) => {
            let typed = typed_expression(alloc, sightings, scope, inside.get(), counts, first)?;
            Ok(typed)
        }
        Expr::OfPort(word, name, _) => {
            let port = scope.bare(name)?;
            let typed = wanted(alloc, *word, name, port, counts, first)?;
            Ok(typed)
        }
        Expr::Prefix(word, operand, span) => {
            let operand = typed_expression(alloc, sightings, scope, operand.get(), counts, first)?;
            let typed = prefixed(alloc, *word, operand, span.start, first)?;
            Ok(typed)
        }
        Expr::Binary(word, left, right, span) => {
            let left = typed_expression(alloc, sightings, scope, left.get(), counts, first)?;
            let right = typed_expression(alloc, sightings, scope, right.get(), counts, first)?;
            let typed = combined(alloc, sightings, *word, left, right, span.start, first)?;
            Ok(typed)
        }
    }
}
