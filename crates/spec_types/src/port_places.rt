//! Ports that are told by the place of their component among all and their own place in it: `place_of_target`,
//! `place_of_source`. It touches nothing outside.

ghost use Rattle.std.specs.Prelude.{◌≡◌, IfSome, Some, true, map, option_map, slice_get};
ghost use Rattle.oss_syntax.specs.Expressions.{tree};
ghost use Rattle.spec_types.specs.Walks as walks;
ghost use Rattle.spec_types.specs.Fitting as fitting;

use crate::scope::{PortScope, RefinementScope, find_port, same_direction};
use oss_syntax::{Expr, PortWord, TargetTree, Word};
use sqlite_items::at;

/// A port, told by the place of its component among all and its place in it, with the number of its type.
#[derive(Clone, Copy)]
pub(crate) struct PortPlace {
    pub component: usize,
    pub port: u32,
    pub type_number: u32,
}

/// The port of this name in a component, where it has this direction.
fn port_place(scopes: &[PortScope], component: usize, name: &str, input: bool) -> Option<PortPlace>
    ensures { IfSome result (λ place. fitting.IsPortAt (map walks.interface scopes.now) place input
        (fitting.find_if_there (slice_get (map walks.interface scopes.now) component) name.now)) }
{
    match at(scopes, component) {
        None => None,
        Some(ports) => match find_port(*ports, name) {
            None => None,
            Some(found) => {
                if same_direction(found.port.input, input) {
                    Some(PortPlace {
                        component,
                        port: found.place,
                        type_number: found.type_number,
                    })
                } else {
                    None
                }
            }
        },
    }
}

/// The own port of this name, where it has this direction.
fn own_place(scope: &RefinementScope, name: &Word, input: bool) -> Option<PortPlace>
    requires { slice_get (map walks.interface scope.now.scopes.now) scope.now.place
        ≡ Some (walks.interface scope.now.own) }
    ensures { IfSome result (λ place. fitting.IsPortAt (map walks.interface scope.now.scopes.now) place input
        (walks.find_port (walks.interface scope.now.own) name.now.text)) }
{
    port_place(scope.scopes, scope.place, name.text.as_str(), input)
}

/// The port of this name in a component that may be missing, where it has this direction.
fn place_in_component(
    scopes: &[PortScope],
    component: Option<u32>,
    name: &str,
    input: bool,
) -> Option<PortPlace>
    ensures { IfSome result (λ place. fitting.IsPortAt (map walks.interface scopes.now) place input
        (fitting.find_if_there (walks.component_ports (map walks.interface scopes.now) component) name.now)) }
{
    match component {
        None => None,
        Some(component) => port_place(scopes, component as usize, name, input),
    }
}

/// The port of this name in a subcomponent, where it has this direction.
fn place_in_sub(scope: &RefinementScope, sub: u32, port: &Word, input: bool) -> Option<PortPlace>
    ensures { IfSome result (λ place. fitting.IsPortAt (map walks.interface scope.now.scopes.now) place input
        (option_map fitting.placed_port
        (walks.placed_in_sub (walks.refinement scope.now) port.now.text sub))) }
{
    match at(scope.components, sub as usize) {
        None => None,
        Some(component) => {
            place_in_component(scope.scopes, *component, port.text.as_str(), input)
        }
    }
}

/// The port of a subcomponent, where it has this direction.
fn sub_port_place(
    scope: &RefinementScope,
    sub: &Word,
    port: &Word,
    input: bool,
) -> Option<PortPlace>
    ensures { IfSome result (λ place. fitting.IsPortAt (map walks.interface scope.now.scopes.now) place input
        (option_map fitting.placed_port
        (walks.find_sub_port (walks.refinement scope.now) sub.now.text port.now.text))) }
{
    match scope.subs.find(sub.text.as_str()) {
        None => None,
        Some(place) => place_in_sub(scope, place, port, input),
    }
}

/// The port that a target is.
pub(crate) fn place_of_target(scope: &RefinementScope, target: &TargetTree) -> Option<PortPlace>
    requires { slice_get (map walks.interface scope.now.scopes.now) scope.now.place
        ≡ Some (walks.interface scope.now.own) }
    ensures { IfSome result (λ place. fitting.IsPortAt (map walks.interface scope.now.scopes.now) place
        (fitting.wants_input target.now) (fitting.found_target (walks.refinement scope.now) target.now)) }
{
    match target {
        TargetTree::Own(port) => own_place(scope, port, false),
        TargetTree::OfSub(sub, port) => sub_port_place(scope, sub, port, true),
    }
}

/// The own input that stands under this word, where the word changes no value.
fn place_under(scope: &RefinementScope, word: PortWord, name: &Word) -> Option<PortPlace>
    requires { slice_get (map walks.interface scope.now.scopes.now) scope.now.place
        ≡ Some (walks.interface scope.now.own) }
    ensures { IfSome result (λ place. fitting.IsPortAt (map walks.interface scope.now.scopes.now) place true
        (fitting.found_under word (walks.find_port (walks.interface scope.now.own) name.now.text))) }
{
    match word {
        PortWord::Next => own_place(scope, name, true),
        PortWord::Change => None,
        PortWord::Rise => None,
        PortWord::Fall => None,
    }
}

/// The port that an expression reads, where it is that port and nothing else. The recursion is as deep as the
/// expression is high.
pub(crate) fn place_of_source(scope: &RefinementScope, source: &Expr) -> Option<PortPlace>
    requires { slice_get (map walks.interface scope.now.scopes.now) scope.now.place
        ≡ Some (walks.interface scope.now.own) }
    ensures { IfSome result (λ place. fitting.IsPortAt (map walks.interface scope.now.scopes.now) place
        (fitting.reads_input (tree source.now)) (fitting.found_source (walks.refinement scope.now)
        (tree source.now))) }
{
    match source {
        Expr::Name(name) => own_place(scope, name, true),
        Expr::Dotted(sub, port) => sub_port_place(scope, sub, port, false),
        Expr::Numeral(_, _) => None,
        Expr::Truth(_, _) => None,
        Expr::Brackets(inside, _) => place_of_source(scope, inside.get()),
        Expr::OfPort(word, name, _) => place_under(scope, *word, name),
        Expr::Prefix(_, _, _) => None,
        Expr::Binary(_, _, _, _) => None,
    }
}
