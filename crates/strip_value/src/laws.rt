ghost use Rattle.std.specs.Prelude.{◌≡◌, List};
ghost use Rattle.std.specs.declared.cmp.Ordering.TheVariants.{Equal};
ghost use Rattle.std.specs.Cmp.{IsTotalOrder};
ghost use Rattle.strip_value.specs.declared.values.Value.{Value as OneValue};
ghost use Rattle.std.specs.List.Sorted.{IsSorted, IsPermutation};
ghost use Rattle.strip_value.specs.Order.{value_cmp, row_cmp};
ghost use Rattle.strip_value.specs.Query.{in_order};

/// A law; the function does nothing.
#[tactic(auto, using(crate::proofs::Orders::value_cmp_equal))]
pub fn equal_values_are_one()
    ensures { (a b : OneValue) → value_cmp a b ≡ Equal → a ≡ b }
{}

/// A law; the function does nothing.
#[tactic(auto, using(crate::proofs::Orders::row_cmp_equal))]
pub fn equal_rows_are_one()
    ensures { (a b : List OneValue) → row_cmp a b ≡ Equal → a ≡ b }
{}

/// A law; the function does nothing.
#[tactic(auto, using(crate::specs::Order::row_cmp_total))]
pub fn row_order_is_total()
    ensures { IsTotalOrder row_cmp }
{}

/// Laws; the function does nothing.
#[tactic(auto, using(crate::proofs::InOrder::in_order_sorted, crate::proofs::InOrder::in_order_permutes, crate::proofs::InOrder::in_order_only))]
pub fn rows_have_one_order()
    ensures sorted { (rows : List (List OneValue)) → IsSorted row_cmp (in_order rows) }
    ensures same { (rows : List (List OneValue)) → IsPermutation rows (in_order rows) }
    ensures only { (rows other : List (List OneValue)) → IsPermutation rows other → IsSorted row_cmp other → other ≡ in_order rows }
{}
