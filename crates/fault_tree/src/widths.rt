//! How many unions a node forms, counted up to one more than the limit. Main function: `width_of`. Touches nothing.

ghost use Rattle.std.specs.Prelude.{◌≡◌, ◌+◌, ◌<◌, ◌≤◌, All, min, map, length};
ghost use Rattle.std.specs.List.{sum_by};
ghost use Rattle.fault_tree.specs.Trees.{most_unions, product, width};
ghost use Rattle.fault_tree.specs.Forming.{table_sets};

use crate::nodes::{Cut, LeafSets};

/// The most unions that a node may form.
pub(crate) const MOST_UNIONS: usize = 65536;

/// Counts stop at one more.
const TOO_MANY: usize = MOST_UNIONS + 1;

/// How many unions a cut forms, or one more than the limit.
pub(crate) fn cut_width(table: &[LeafSets], cut: &[u32]) -> usize
    requires { All (λ member. member < length table.now) cut.now }
    ensures { result ≡ min (product (map (λ member. length (table_sets table.now member)) cut.now)) (most_unions + 1) }
{
    let mut width = 1;
    let mut i = cut.len();
    while i > 0 {
        i -= 1;
        let sets = table[cut[i] as usize].len().min(TOO_MANY);
        width = (sets * width).min(TOO_MANY);
    }
    width
}

/// How many unions some cuts form, or one more than the limit.
pub(crate) fn width_of(table: &[LeafSets], cuts: &[Cut]) -> usize
    requires { All (All (λ member. member < length table.now)) cuts.now }
    ensures { result ≡ min (width (table_sets table.now) cuts.now) (most_unions + 1) }
{
    let mut width = 0;
    let mut i = cuts.len();
    while i > 0 {
        i -= 1;
        width = (cut_width(table, cuts[i].as_slice()) + width).min(TOO_MANY);
    }
    width
}
