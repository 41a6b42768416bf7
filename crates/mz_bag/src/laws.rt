//! What holds of all bags: each law is the contract of a function that does nothing.
ghost use Rattle.std.specs.Prelude.{◌≡◌, ◌+ℤ◌, neg_ℤ, List};
ghost use Rattle.mz_value.specs.declared.datum.Datum.{Datum};
ghost use Rattle.mz_bag.specs.declared.bag.TheConstants.{MOST_COUNT};
ghost use Rattle.mz_bag.specs.Bag.{Counts, count_in, most_count, Fits, IsBag};
ghost use Rattle.mz_bag.specs.Mass.{IsLight};
ghost use Rattle.mz_bag.specs.Weighted.{Weighted, count, bag_of, sum_of, negation_of};

/// The bag of a weighted list counts each row as the list does, and has no zero.
pub fn bag_of_weights()
    ensures counts { (ws : Weighted) (row : List Datum)
        → count_in (bag_of ws) row ≡ count row ws }
    ensures no_zero { (ws : Weighted) → IsBag (bag_of ws) }
{}

/// Bags that count each row alike are one bag.
pub fn same_counts()
    ensures { (a b : Counts) → IsBag a → IsBag b
        → ((row : List Datum) → count_in a row ≡ count_in b row) → a ≡ b }
{}

/// The sum of two bags counts each row as both together, and a negation counts it to the negative.
pub fn sums_and_negations()
    ensures sum { (a b : Counts) (row : List Datum)
        → count_in (sum_of a b) row ≡ count_in a row +ℤ count_in b row }
    ensures negation { (bag : Counts) (row : List Datum)
        → count_in (negation_of bag) row ≡ neg_ℤ (count_in bag row) }
{}

/// [`MOST_COUNT`](crate::MOST_COUNT) is the greatest count of the definitions.
pub fn greatest_count()
    ensures { MOST_COUNT ≡ most_count }
{}

/// Each count of a light list fits: it is at most the greatest in size.
pub fn light_counts_fit()
    ensures { (ws : Weighted) (row : List Datum) → IsLight ws → Fits (count row ws) }
{}
