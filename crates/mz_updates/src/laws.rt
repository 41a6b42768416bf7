//! What holds of all lists of updates: each law is the contract of a function that does nothing.
ghost use Rattle.std.specs.Prelude.{◌≡◌, ◌+◌, ◌≤◌, ◌+ℤ◌, ◌++◌, ℕ, List};
ghost use Rattle.mz_value.specs.declared.datum.Datum.{Datum};
ghost use Rattle.mz_bag.specs.Mass.{IsLight};
ghost use Rattle.mz_bag.specs.Weighted.{count};
ghost use Rattle.mz_updates.specs.declared.update.Update.{Update};
ghost use Rattle.mz_updates.specs.Contents.{contents, changes, compacted, weights, FitsFrom, HasSums, IsFrom, IsLightFrom};

/// Lists one behind the other contain what the first does, and then what the second does.
pub fn both_lists()
    ensures { (t : ℕ) (us vs : List Update)
        → contents t (us ++ vs) ≡ contents t us ++ contents t vs }
{}

/// A row is there at a time as often as at the one before it, and what changes then.
pub fn one_time_on()
    ensures { (t : ℕ) (row : List Datum) (us : List Update)
        → count row (contents (t + 1) us)
        ≡ count row (contents t us) +ℤ count row (changes (t + 1) us) }
{}

/// A compaction keeps the contents from the since on: the same rows with the same weights, in the same order.
pub fn compaction()
    ensures { (since t : ℕ) (us : List Update) → since ≤ t
        → contents t (compacted since us) ≡ contents t us }
{}

/// Contents that are light from a time on are within the bound on counts from there on.
pub fn light_contents_fit()
    ensures { (since : ℕ) (us : List Update) → IsLightFrom since us → FitsFrom since us }
{}

/// Of a list that is light in all, the contents are light at every time, and it can be consolidated.
pub fn light_lists()
    ensures contents { (since : ℕ) (us : List Update) → IsLight (weights us) → IsLightFrom since us }
    ensures sums { (us : List Update) → IsLight (weights us) → HasSums us }
{}

/// Updates from a time on, whose contents are within the bound from there on, can be consolidated.
pub fn contents_that_fit_have_sums()
    ensures { (since : ℕ) (us : List Update) → IsFrom since us → FitsFrom since us → HasSums us }
{}
