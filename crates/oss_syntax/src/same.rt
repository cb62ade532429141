//! Whether two specifications are the same without their spans. Main function: `SpecTree::same`. Allocates nothing.

ghost use Rattle.std.specs.Prelude.{◌≡◌, ◌↔◌, IsTrue, map};
ghost use Rattle.oss_syntax.specs.Expressions.{tree};
ghost use Rattle.oss_syntax.specs.Spanless.{bare_bound, bare_type, bare_target, bare_tree, bare_item, AreSameSpecs};
ghost use Rattle.oss_syntax.specs.Spanless.{AreSameRefinementItems, AreSameRefinements, AreSameMarks};
ghost use Rattle.oss_syntax.specs.Trees.{item_tree};

use crate::component::{SpecTree, TreeComponent};
use crate::expression::Expr;
use crate::interface::{InterfaceItem, InterfaceItems};
use crate::refinement::{RefinementItem, RefinementItems, TargetTree};
use crate::types::{BoundTree, TypeTree};
use crate::words::{PartWord, Word};
use oss_base::Span;

/// A part of a specification that can be compared without the places of its own parts.
pub trait Placeless {
    ghost Bare: { Type 0 };

    ghost bare: { Self → Bare };

    fn same(&self, other: &Self) -> bool
        ensures { IsTrue result ↔ (bare self.now ≡ bare other.now) };
}

/// Whether two lists have the same parts in the same order, without their places.
pub fn same_all<T: Placeless>(left: &[T], right: &[T]) -> bool
    ensures { IsTrue result ↔ (map T.bare left.now ≡ map T.bare right.now) }
{
    let mut lefts = left;
    let mut rights = right;
    'pairs: loop {
        match lefts.split_first() {
            None => return rights.is_empty(),
            Some((one, more_lefts)) => match rights.split_first() {
                None => return false,
                Some((other, more_rights)) => {
                    if !one.same(other) {
                        return false;
                    }
                    lefts = more_lefts;
                    rights = more_rights;
                }
            },
        }
    }
}

impl Placeless for Word {
    ghost use Rattle.oss_syntax.specs.declared.words.Word.{Word};
    ghost use Rattle.oss_syntax.specs.Spanless.{bare_word};

    ghost Bare = { Word };

    ghost bare = { bare_word };

    fn same(&self, other: &Word) -> bool {
        self.text.same(&other.text)
    }
}

impl Placeless for PartWord {
    ghost use Rattle.oss_syntax.specs.declared.words.PartWord.{PartWord};
    ghost use Rattle.oss_syntax.specs.Spanless.{bare_part};

    ghost Bare = { PartWord };

    ghost bare = { bare_part };

    fn same(&self, other: &PartWord) -> bool {
        self.sub.same(&other.sub) && self.contract.same(&other.contract)
    }
}

/// Whether two bounds are the same without their spans.
fn same_bound(left: &BoundTree, right: &BoundTree) -> bool
    ensures { IsTrue result ↔ (bare_bound left.now ≡ bare_bound right.now) }
{
    left.negative == right.negative && left.value == right.value
}

/// Whether two types are the same without their spans.
fn same_type(left: &TypeTree, right: &TypeTree) -> bool
    ensures { IsTrue result ↔ (bare_type left.now ≡ bare_type right.now) }
{
    match left {
        TypeTree::Boolean => matches!(right, TypeTree::Boolean),
        TypeTree::Event => matches!(right, TypeTree::Event),
        TypeTree::Range { lo, hi } => match right {
            TypeTree::Range {
                lo: other_lo,
                hi: other_hi,
            } => same_bound(lo, other_lo) && same_bound(hi, other_hi),
            _ => false,
        },
        TypeTree::Enum(names) => match right {
            TypeTree::Enum(others) => same_all(names.as_slice(), others.as_slice()),
            _ => false,
        },
    }
}

/// Whether two targets are the same without their spans.
fn same_target(left: &TargetTree, right: &TargetTree) -> bool
    ensures { IsTrue result ↔ (bare_target left.now ≡ bare_target right.now) }
{
    match left {
        TargetTree::Own(name) => match right {
            TargetTree::Own(other) => name.same(other),
            TargetTree::OfSub(_, _) => false,
        },
        TargetTree::OfSub(sub, port) => match right {
            TargetTree::OfSub(other_sub, other_port) => sub.same(other_sub)
                && port.same(other_port),
            TargetTree::Own(_) => false,
        },
    }
}

impl Placeless for InterfaceItem {
    ghost use Rattle.oss_syntax.specs.declared.interface.InterfaceItem.{InterfaceItem};
    ghost use Rattle.oss_syntax.specs.Spanless.{bare_item};
    ghost use Rattle.oss_syntax.specs.Trees.{Item, item_tree};

    ghost Bare = { Item };

    ghost bare = { λ (item : InterfaceItem). bare_item (item_tree item) };

    fn same(&self, other: &InterfaceItem) -> bool {
        match self {
            InterfaceItem::Port { input, name, kind } => match other {
                InterfaceItem::Port {
                    input: other_input,
                    name: other_name,
                    kind: other_kind,
                } => *input == *other_input && name.same(other_name) && same_type(kind, other_kind),
                InterfaceItem::Contract { .. } => false,
            },
            InterfaceItem::Contract {
                name,
                assume,
                guarantee,
            } => match other {
                InterfaceItem::Contract {
                    name: other_name,
                    assume: other_assume,
                    guarantee: other_guarantee,
                } => {
                    name.same(other_name)
                        && same_expr(assume, other_assume)
                        && same_expr(guarantee, other_guarantee)
                }
                InterfaceItem::Port { .. } => false,
            },
        }
    }
}

impl Placeless for RefinementItem {
    ghost use Rattle.oss_syntax.specs.declared.refinement.RefinementItem.{RefinementItem};
    ghost use Rattle.oss_syntax.specs.Spanless.{bare_refinement_item};
    ghost use Rattle.oss_syntax.specs.Trees.{RefinementItemTree, refinement_item_tree};

    ghost Bare = { RefinementItemTree };

    ghost bare = { λ (item : RefinementItem). bare_refinement_item (refinement_item_tree item) };

    fn same(&self, other: &RefinementItem) -> bool {
        match self {
            RefinementItem::Sub { name, component } => match other {
                RefinementItem::Sub {
                    name: other_name,
                    component: other_component,
                } => name.same(other_name) && component.same(other_component),
                _ => false,
            },
            RefinementItem::Connection { target, source } => match other {
                RefinementItem::Connection {
                    target: other_target,
                    source: other_source,
                } => same_target(target, other_target) && same_expr(source, other_source),
                _ => false,
            },
            RefinementItem::Contract { name, parts } => match other {
                RefinementItem::Contract {
                    name: other_name,
                    parts: other_parts,
                } => name.same(other_name) && same_all(parts.as_slice(), other_parts.as_slice()),
                _ => false,
            },
        }
    }
}

/// Whether two interfaces are the same without their spans.
fn same_items(left: &InterfaceItems, right: &InterfaceItems) -> bool
    ensures { IsTrue result ↔ (map bare_item (map item_tree left.now) ≡ map bare_item (map item_tree right.now)) }
{
    same_all(left.as_slice(), right.as_slice())
}

/// Whether the items of two refinements are the same without their spans.
fn same_parts(left: &RefinementItems, right: &RefinementItems) -> bool
    ensures { IsTrue result ↔ AreSameRefinementItems left.now right.now }
{
    same_all(left.as_slice(), right.as_slice())
}

/// Whether two refinements, each of which may be missing, are the same without their spans.
fn same_refinement(left: &Option<RefinementItems>, right: &Option<RefinementItems>) -> bool
    ensures { IsTrue result ↔ AreSameRefinements left.now right.now }
{
    match left {
        Some(items) => match right {
            Some(others) => same_parts(items, others),
            None => false,
        },
        None => right.is_none(),
    }
}

/// Whether both or neither is there.
fn same_presence(left: &Option<Span>, right: &Option<Span>) -> bool
    ensures { IsTrue result ↔ AreSameMarks left.now right.now }
{
    match left {
        Some(_) => right.is_some(),
        None => right.is_none(),
    }
}

impl Placeless for TreeComponent {
    ghost use Rattle.oss_syntax.specs.declared.component.TreeComponent.{TreeComponent};
    ghost use Rattle.oss_syntax.specs.Spanless.{bare_component};
    ghost use Rattle.oss_syntax.specs.Trees.{Component, component_tree};

    ghost Bare = { Component };

    ghost bare = { λ (c : TreeComponent). bare_component (component_tree c) };

    fn same(&self, other: &TreeComponent) -> bool {
        self.name.same(&other.name)
            && same_presence(&self.system, &other.system)
            && same_items(&self.interface, &other.interface)
            && same_refinement(&self.refinement, &other.refinement)
    }
}

impl SpecTree {
    /// Whether two specifications are the same without their spans.
    pub fn same(&self, other: &SpecTree) -> bool
        ensures { IsTrue result ↔ AreSameSpecs self.now other.now }
    {
        same_all(self.as_slice(), other.as_slice())
    }
}

/// Whether two expressions are the same without their spans.
pub fn same_expr(left: &Expr, right: &Expr) -> bool
    ensures { IsTrue result ↔ (bare_tree (tree left.now) ≡ bare_tree (tree right.now)) }
{
    match left {
        Expr::Name(word) => match right {
            Expr::Name(other) => word.same(other),
            _ => false,
        },
        Expr::Dotted(sub, port) => match right {
            Expr::Dotted(other_sub, other_port) => sub.same(other_sub) && port.same(other_port),
            _ => false,
        },
        Expr::Numeral(value, _) => match right {
            Expr::Numeral(other, _) => *value == *other,
            _ => false,
        },
        Expr::Truth(truth, _) => match right {
            Expr::Truth(other, _) => *truth == *other,
            _ => false,
        },
        Expr::Brackets(inside, _) => match right {
            Expr::Brackets(other, _) => same_expr(inside.get(), other.get()),
            _ => false,
        },
        Expr::OfPort(word, port, _) => match right {
            Expr::OfPort(other_word, other_port, _) => *word == *other_word
                && port.same(other_port),
            _ => false,
        },
        Expr::Prefix(word, operand, _) => match right {
            Expr::Prefix(other_word, other, _) => {
                *word == *other_word && same_expr(operand.get(), other.get())
            }
            _ => false,
        },
        Expr::Binary(word, first, second, _) => match right {
            Expr::Binary(other_word, other_first, other_second, _) => {
                *word == *other_word
                    && same_expr(first.get(), other_first.get())
                    && same_expr(second.get(), other_second.get())
            }
            _ => false,
        },
    }
}
