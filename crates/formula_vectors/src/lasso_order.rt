//! The order of lassos and the widening of states over three ports: closed examples of the definitions, worked by hand.
//! May touch nothing.

ghost use Rattle.std.specs.Prelude.{◌≡◌, false, [], ◌∷◌};
ghost use Rattle.std.specs.List.{flat_map};
ghost use Rattle.std.specs.Ordering.{is_le, nat_cmp};
ghost use Rattle.std.specs.Cmp.Lexicographic.{slice_cmp};
ghost use Rattle.typed_ltl.specs.declared.lasso.Lasso.{Lasso};
ghost use Rattle.first_lasso.specs.FirstLassos.{state_ranks, IsNotAfter, IsFirstLasso};
ghost use Rattle.first_lasso.specs.UsedPorts.{used_place, widened_state};
ghost use Rattle.formula_vectors.specs.Examples.{three_ports, false_two_b, true_least_a, middle_one, false_least_a};
ghost use Rattle.formula_vectors.specs.Examples.{false_one_a, true_then_false, false_then_true, IsAny};

/// Ranks are places in the order of values, and what stands first in a lasso counts most.
fn order_of_states()
    ensures ranks { state_ranks three_ports false_two_b ≡ 0 ∷ 3 ∷ 1 ∷ [] }
    ensures first_port { IsNotAfter (state_ranks three_ports false_two_b) (state_ranks three_ports true_least_a) }
    ensures first_state { is_le (slice_cmp nat_cmp (flat_map (state_ranks three_ports) true_then_false)
        (flat_map (state_ranks three_ports) false_then_true)) ≡ false }
{}

/// A state of the middle port, widened: the others have their first values.
fn middle_port_alone()
    ensures place { used_place (1 ∷ []) 1 ≡ 0 }
    ensures widened { widened_state three_ports (1 ∷ []) middle_one ≡ false_one_a }
{}

/// Where nothing is asked, the first lasso has one state, of first values.
fn first_of_all()
    ensures { (lasso : Lasso) → lasso.states ≡ false_least_a ∷ [] → IsFirstLasso three_ports IsAny 1 lasso }
{}

#[test]
fn examples_hold() {
    order_of_states();
    middle_port_alone();
    first_of_all();
}
