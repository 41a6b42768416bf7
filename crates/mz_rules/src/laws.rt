//! The laws of sinces and of policies, each as what a function with an empty body ensures.
ghost use Rattle.std.specs.Prelude.{◌≡◌, ◌+◌, ◌-◌, ◌<◌, ◌≤◌, ◌++◌, ◌∷◌, ℕ, List, [], All, drop, length, map};
ghost use Rattle.std.specs.List.{AllByRecursion as Each};
ghost use Rattle.mz_time.specs.declared.frontier.Frontier.{Frontier};
ghost use Rattle.mz_time.specs.declared.frontier.Frontier.TheVariants.{At};
ghost use Rattle.mz_time.specs.Frontier.{Le};
ghost use Rattle.mz_statement.specs.declared.statement.Keep.{Keep};
ghost use Rattle.mz_statement.specs.declared.statement.Keep.TheVariants.{From, Lag, Stay};
ghost use Rattle.mz_statement.specs.Statement.{IsKeep};
ghost use Rattle.mz_rules.specs.declared.capability.Collection.{Collection};
ghost use Rattle.mz_rules.specs.declared.capability.Settled.{Settled};
ghost use Rattle.mz_rules.specs.Capabilities.{Capability};
ghost use Rattle.mz_rules.specs.Exact.{AreLeast, all_on};
ghost use Rattle.mz_rules.specs.Frontiers.{IsWithin};
ghost use Rattle.mz_rules.specs.Moves.{come_to, kept_by, let_go};
ghost use Rattle.mz_rules.specs.Numbering.{Grows, IsThere, Moved, Numbered, ReadOlder};
ghost use Rattle.mz_rules.specs.Policy.{raised};
ghost use Rattle.mz_rules.specs.Since.{least_on, settle, since_of, since_or};

/// Each collection is settled once, in order, and found under its number; a number that isn't there yet finds none. The newer ones are
/// settled by themselves, and of the capabilities on a collection only the least counts. Takes no memory.
pub fn collections_are_found()
    ensures collections { (kept : List Capability) (cs : List Collection)
        → map (λ s. s.collection) (settle kept cs) ≡ cs }
    ensures own { (missing : Frontier) (kept : List Capability) (first : ℕ) (cs : List Collection)
        → Numbered first cs
        → Each (λ s. since_or missing s.collection.number (settle kept cs) ≡ s.since)
        (settle kept cs) }
    ensures later { (missing : Frontier) (kept : List Capability) (first : ℕ) (cs : List Collection)
        → Numbered first cs → (number : ℕ) → first + length cs ≤ number
        → since_or missing number (settle kept cs) ≡ missing }
    ensures newer { (kept : List Capability) (k : ℕ) (cs : List Collection)
        → drop k (settle kept cs) ≡ settle kept (drop k cs) }
    ensures leasts { (kept others : List Capability) (cs : List Collection)
        → Each (λ c. least_on c.number kept ≡ least_on c.number others) cs
        → settle kept cs ≡ settle others cs }
{}

/// A since is at or before all that keeps its collection readable: the implied capability, each capability of a hold or a peek, and the
/// since of each collection that reads it. Takes no memory.
pub fn sinces_hold_back()
    ensures implied { (kept : List Capability) (cs : List Collection)
        → Each (λ s. Le s.since s.collection.implied) (settle kept cs) }
    ensures held { (kept : List Capability) (cs : List Collection)
        → Each (λ one. Le (since_of one.collection (settle kept cs)) (At one.time)) kept }
    ensures read { (kept : List Capability) (first : ℕ) (cs : List Collection)
        → Numbered first cs → ReadOlder cs
        → Each (λ s. Each (λ input. Le (since_of input (settle kept cs)) s.since)
        s.collection.inputs) (settle kept cs) }
{}

/// A since is the least of all that keeps its collection readable, so the greatest frontier at or before all of it; and no other
/// sinces of the collections are so. Takes no memory.
pub fn sinces_are_exact()
    ensures least { (kept : List Capability) (first : ℕ) (cs : List Collection)
        → Numbered first cs → ReadOlder cs → AreLeast kept (settle kept cs) }
    ensures greatest { (kept : List Capability) (first : ℕ) (cs : List Collection)
        → Numbered first cs → ReadOlder cs
        → Each (λ s. (f : Frontier) → All (Le f) (all_on kept (settle kept cs) s.collection)
        → Le f s.since) (settle kept cs) }
    ensures alone { (kept : List Capability) (first : ℕ) (ss : List Settled)
        → Numbered first (map (λ s. s.collection) ss) → ReadOlder (map (λ s. s.collection) ss)
        → AreLeast kept ss → ss ≡ settle kept (map (λ s. s.collection) ss) }
{}

/// No since is past a time that all capabilities are within. Takes no memory.
pub fn sinces_stay_within()
    ensures { (bound : ℕ) (kept : List Capability) (cs : List Collection)
        → Each (λ one. one.time ≤ bound) kept → Each (λ c. IsWithin bound c.implied) cs
        → Each (λ s. IsWithin bound s.since) (settle kept cs) }
{}

/// No since falls where each capability after is at or after the since before of its collection, whatever became of those before.
/// Collections may be kept less long for their own sake meanwhile, and new ones be made as of a time at which all that they read is
/// still readable. Then each since is at or after the as-of, still. Takes no memory.
pub fn no_since_falls()
    ensures capabilities { (first : ℕ) (before after : List Capability) (cs : List Collection)
        → Numbered first cs
        → Each (λ one. Le (since_of one.collection (settle before cs)) (At one.time)) after
        → (number : ℕ)
        → Le (since_of number (settle before cs)) (since_of number (settle after cs)) }
    ensures collections { (first time : ℕ) (before after : List Capability)
        (cs ds : List Collection) → Numbered first cs
        → Each (λ one. Le (since_or (At time) one.collection (settle before cs)) (At one.time))
        after
        → Grows (λ number. since_or (At time) number (settle before cs)) time cs ds
        → (number : ℕ)
        → Le (since_of number (settle before cs)) (since_of number (settle after ds)) }
    ensures as_ofs { (first time : ℕ) (before after : List Capability)
        (cs ds : List Collection) → Numbered first cs
        → Each (λ one. Le (since_or (At time) one.collection (settle before cs)) (At one.time))
        after
        → Grows (λ number. since_or (At time) number (settle before cs)) time cs ds
        → Each (λ s. Le (At s.collection.as_of) s.since) (settle before cs)
        → Each (λ s. Le (At s.collection.as_of) s.since) (settle after ds) }
{}

/// What comes on, gets another policy or is let go is the same collection, kept no longer for its own sake; and what does so to each
/// collection does no more to all. So none of these lets a since fall. Takes no memory.
pub fn changes_only_move()
    ensures comes { (upper : ℕ) (c : Collection) → Moved c (come_to upper c) }
    ensures keeps { (keep : Keep) (c : Collection) → Moved c (kept_by keep c) }
    ensures goes { (c : Collection) → Moved c (let_go c) }
    ensures all { (bound : ℕ → Frontier) (time : ℕ) (move : Collection → Collection)
        → ((c : Collection) → Moved c (move c)) → (cs : List Collection)
        → Grows bound time cs (map move cs) }
    ensures numbers { (move : Collection → Collection)
        → ((c : Collection) → (move c).number ≡ c.number)
        → (first : ℕ) (cs : List Collection) → Numbered first cs → Numbered first (map move cs) }
{}

/// More capabilities and more collections raise no since of a collection that was there. Takes no memory.
pub fn more_raises_no_since()
    ensures { (first : ℕ) (kept more : List Capability) (cs news : List Collection)
        → Numbered first cs → (number : ℕ) → IsThere first cs number
        → Le (since_of number (settle (kept ++ more) (cs ++ news)))
        (since_of number (settle kept cs)) }
{}

/// All sinces stay where one capability more is at or after the since of its collection, and where a new collection is made as of a
/// time at which all that it reads is readable. Takes no memory.
pub fn sinces_stay()
    ensures capability { (first : ℕ) (kept : List Capability) (one : Capability)
        (cs : List Collection) → Numbered first cs
        → Le (since_of one.collection (settle kept cs)) (At one.time)
        → (number : ℕ) → IsThere first cs number
        → since_of number (settle (kept ++ (one ∷ [])) cs) ≡ since_of number (settle kept cs) }
    ensures creation { (first : ℕ) (kept : List Capability) (c : Collection) (cs : List Collection)
        → Numbered first cs → Each (λ one. IsThere first cs one.collection) kept
        → c.number ≡ first + length cs → Le (At c.as_of) c.implied
        → Each (λ input. Le (since_of input (settle kept cs)) (At c.as_of)) c.inputs
        → (number : ℕ) → IsThere first cs number
        → since_of number (settle kept (cs ++ (c ∷ []))) ≡ since_of number (settle kept cs) }
{}

/// A policy never takes an implied capability back, and never past the newest readable time. At the same upper it has its say once, and
/// a later upper gives no earlier time. Takes no memory.
pub fn policies_only_raise()
    ensures never_back { (keep : Keep) (upper : ℕ) (f : Frontier) → Le f (raised keep upper f) }
    ensures within { (keep : Keep) (upper bound : ℕ) (f : Frontier) → IsKeep keep
        → upper ≤ bound + 1 → IsWithin bound f → IsWithin bound (raised keep upper f) }
    ensures once { (keep : Keep) (upper : ℕ) (f : Frontier)
        → raised keep upper (raised keep upper f) ≡ raised keep upper f }
    ensures keeps_order { (keep : Keep) (upper later : ℕ) (f g : Frontier)
        → upper ≤ later → Le f g → Le (raised keep upper f) (raised keep later g) }
{}

/// A lag comes to so many times behind the upper, a fixed time to itself once it is readable, where nothing later was kept before; and
/// what stays is what was kept. Takes no memory.
pub fn policies_come_to()
    ensures lag { (n upper old : ℕ) → old ≤ upper - n
        → raised (Lag n) upper (At old) ≡ At (upper - n) }
    ensures from { (t upper old : ℕ) → t < upper → old ≤ t
        → raised (From t) upper (At old) ≡ At t }
    ensures stay { (upper : ℕ) (f : Frontier) → raised Stay upper f ≡ f }
{}
