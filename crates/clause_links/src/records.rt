//! The record of a clause, with its links, and the heads of the lists of a variable.

ghost use Rattle.std.specs.Prelude.{◌≡◌, ◌<◌, length, slice_index_or, ◌≤◌, slice_set, None, Some, MatchOption, IfOk};
ghost use Rattle.clause_links.specs.Records.{IsWatchedBy, link_of, link_at, with_link, with_watch, head_at};
ghost use Rattle.clause_links.specs.Records.{head_of, with_head, with_list_head, no_heads, unlinked_records};
ghost use Rattle.clause_links.specs.Records.{unlinked_heads, moved_records, records_after, heads_after, record_at};
ghost use Rattle.clause_links.specs.Records.{nth_lit, watch_before, with_two_heads};

use cnf::{Clause, Lit};
use port_types::NoMemory;
use std::alloc::Global;

/// A watched literal of a clause, and the next clause in the list of that literal.
#[derive(Clone, Copy, Debug)]
pub struct Watch {
    pub lit: Lit,
    pub next: Option<usize>,
}

/// A clause and its two watches.
#[derive(Debug, Drop)]
pub struct Record {
    pub clause: Clause,
    pub first: Watch,
    pub second: Watch,
}

/// The first clause in the list of the positive literal of a variable, and in that of the negative.
#[derive(Clone, Copy, Debug)]
pub struct Heads {
    pub positive: Option<usize>,
    pub negative: Option<usize>,
}

/// The clause behind this one in the list of a literal that it watches.
pub fn next_of(own: &Record, lit: Lit) -> Option<usize>
    requires { IsWatchedBy own.now lit }
    ensures { result ≡ link_of own.now lit }
{
    if own.first.lit.same(lit) {
        own.first.next
    } else {
        own.second.next
    }
}

/// Leads the link along the list of a literal that the record watches to another clause.
pub fn relink(own: &mut Record, lit: Lit, next: Option<usize>)
    ensures { own.new ≡ with_link own.old lit next }
{
    if own.first.lit.same(lit) {
        own.first = Watch {
            lit: own.first.lit,
            next,
        };
    } else {
        own.second = Watch {
            lit: own.second.lit,
            next,
        };
    }
}

/// Watches another literal in the place of one, with its link.
pub fn rewatch(own: &mut Record, from: Lit, to: Lit, next: Option<usize>)
    ensures { own.new ≡ with_watch own.old from to next }
{
    let watch = Watch { lit: to, next };
    if own.first.lit.same(from) {
        own.first = watch;
    } else {
        own.second = watch;
    }
}

/// The head of the list of a literal.
pub fn head_of(heads: &[Heads], lit: Lit) -> Option<usize>
    ensures { result ≡ head_at heads.now lit }
{
    match heads.get(lit.var) {
        None => None,
        Some(heads) => {
            if lit.positive {
                heads.positive
            } else {
                heads.negative
            }
        }
    }
}

/// Gives the list of a literal another head.
pub fn set_head(heads: &mut [Heads], lit: Lit, head: Option<usize>)
    requires { lit.var < length heads.old }
    ensures { heads.new ≡ with_list_head heads.old lit head }
{
    let heads = &mut heads[lit.var];
    if lit.positive {
        heads.positive = head;
    } else {
        heads.negative = head;
    }
}

/// Leads the link to a member of the list of a literal past it. The link stands in the record of the
/// clause before the member, or is the head.
pub fn unlink(
    records: &mut [Record],
    heads: &mut [Heads],
    before: Option<usize>,
    lit: Lit,
    after: Option<usize>,
)
    requires within { MatchOption before (lit.var < length heads.old) (λ clause. clause < length records.old) }
    ensures records { records.new ≡ unlinked_records records.old before lit after }
    ensures heads { heads.new ≡ unlinked_heads heads.old before lit after }
{
    match before {
        None => set_head(heads, lit, after),
        Some(clause) => relink(&mut records[clause], lit, after),
    }
}

/// Watches another literal in the place of one, at the head of the other's list.
pub fn move_first(records: &mut [Record], heads: &mut [Heads], clause: usize, from: Lit, to: Lit)
    requires clause { clause < length records.old }
    requires var { to.var < length heads.old }
    ensures records { records.new ≡ moved_records records.old heads.old clause from to }
    ensures heads { heads.new ≡ with_list_head heads.old to (Some clause) }
{
    let head = head_of(heads, to);
    rewatch(&mut records[clause], from, to, head);
    set_head(heads, to, Some(clause));
}

/// Moves a watch from one literal to another, with `before` the clause before this one in the list
/// of the first.
pub fn move_between(
    records: &mut [Record],
    heads: &mut [Heads],
    before: Option<usize>,
    clause: usize,
    from: Lit,
    to: Lit,
)
    requires clause { clause < length records.old }
    requires watched { IsWatchedBy (record_at records.old clause) from }
    requires within { MatchOption before (from.var < length heads.old) (λ b. b < length records.old) }
    requires var { to.var < length heads.old }
    ensures records { records.new ≡ records_after records.old heads.old before clause from to }
    ensures heads { heads.new ≡ heads_after records.old heads.old before clause from to }
{
    let after = next_of(&records[clause], from);
    unlink(records, heads, before, from, after);
    move_first(records, heads, clause, from, to);
}

/// The record of a clause that watches its first two literals, each before the head of its list.
pub fn new_record(alloc: Global, heads: &[Heads], lits: &[Lit]) -> Result<Record, NoMemory>
    requires { 2 ≤ length lits.now }
    ensures clause { IfOk result (λ r. r.clause ≡ lits.now) }
    ensures first { IfOk result (λ r. r.first ≡ watch_before heads.now (nth_lit lits.now 0)) }
    ensures second { IfOk result (λ r. r.second ≡ watch_before heads.now (nth_lit lits.now 1)) }
{
    let (a, b) = (lits[0], lits[1]);
    Ok(Record {
        clause: Clause::from_slice(alloc, lits)?,
        first: Watch {
            lit: a,
            next: head_of(heads, a),
        },
        second: Watch {
            lit: b,
            next: head_of(heads, b),
        },
    })
}

/// Puts a clause at the heads of the lists of its first two literals.
pub fn set_heads(heads: &mut [Heads], lits: &[Lit], clause: usize)
    requires two { 2 ≤ length lits.now }
    requires a { (nth_lit lits.now 0).var < length heads.old }
    requires b { (nth_lit lits.now 1).var < length heads.old }
    ensures { heads.new ≡ with_two_heads heads.old lits.now clause }
{
    set_head(heads, lits[0], Some(clause));
    set_head(heads, lits[1], Some(clause));
}
