//! The laws of streams: what lines tell, reduced lists, and what a replica is told as it joins and as it is fed.
ghost use Rattle.std.specs.Prelude.{◌≡◌, ◌++◌, ◌&&◌, ◌||◌, ℕ, List, false, filter, map, not, true};
ghost use Rattle.std.specs.List.{AllByRecursion as Each};
ghost use Rattle.mz_time.specs.declared.frontier.Frontier.{Frontier};
ghost use Rattle.mz_time.specs.declared.frontier.Frontier.TheVariants.{At};
ghost use Rattle.mz_time.specs.Frontier.{Le, join};
ghost use Rattle.mz_plan.specs.declared.command.Command.{Command};
ghost use Rattle.mz_plan.specs.declared.command.PendingPeek.{PendingPeek};
ghost use Rattle.mz_rules.specs.declared.capability.Collection.{Collection};
ghost use Rattle.mz_rules.specs.declared.capability.Hold.{Hold};
ghost use Rattle.mz_rules.specs.declared.capability.Settled.{Settled};
ghost use Rattle.mz_rules.specs.Capabilities.{Capability, capabilities};
ghost use Rattle.mz_rules.specs.Frontiers.{is_at};
ghost use Rattle.mz_rules.specs.Joining.{IsReadable, allowances, creations, is_made_in, is_read_in, joining};
ghost use Rattle.mz_rules.specs.Numbering.{Numbered};
ghost use Rattle.mz_rules.specs.Since.{settle, since_of};
ghost use Rattle.mz_rules.specs.Reduced.{GoesOn, IsAsTold, reduced};
ghost use Rattle.mz_rules.specs.Streams.{IsSaidWithin, asked, created, is_created, is_done, is_dropped, is_named, is_retired, told};

/// Two lists in a row tell the greater of what each tells, and name what one of them names. What a list doesn't name it tells time 0 of,
/// and it tells `Done` exactly of what it drops. Takes no memory.
pub fn lists_tell()
    ensures in_a_row { (number : ℕ) (lines further : List Command)
        → told number (lines ++ further) ≡ join (told number lines) (told number further) }
    ensures named_in_a_row { (number : ℕ) (lines further : List Command)
        → is_named number (lines ++ further) ≡ (is_named number lines || is_named number further) }
    ensures unnamed { (number : ℕ) (lines : List Command)
        → is_named number lines ≡ false → told number lines ≡ At 0 }
    ensures dropped { (number : ℕ) (lines : List Command)
        → is_done (told number lines) ≡ is_dropped number lines }
{}

/// A reduced list makes what the list makes and doesn't drop, as of what the list tells of it, and asks for the peeks that the list asks
/// for and doesn't end, each in its order. It tells of what it makes what the list tells, and ends no peek. Takes no memory.
pub fn reduced_lists_tell_the_same()
    ensures makes { (lines : List Command)
        → created (reduced lines) ≡ filter (λ number. is_at (told number lines)) (created lines) }
    ensures still_makes { (number : ℕ) (lines : List Command)
        → is_created number (reduced lines)
        ≡ (is_created number lines && is_at (told number lines)) }
    ensures names { (lines : List Command) → Each (IsAsTold lines) (reduced lines) }
    ensures asks { (lines : List Command)
        → asked (reduced lines) ≡ filter (λ peek. not (is_retired peek lines)) (asked lines) }
    ensures tells { (number : ℕ) (lines : List Command)
        → is_created number (reduced lines) ≡ true
        → told number (reduced lines) ≡ told number lines }
    ensures ends_none { (peek : ℕ) (lines : List Command)
        → is_retired peek (reduced lines) ≡ false }
{}

/// Reducing twice is reducing once, and reducing on the way changes nothing in the end: a reduced list with further lines comes to what
/// the whole list with them comes to. Takes no memory.
pub fn reducing_is_final()
    ensures once { (lines : List Command) → reduced (reduced lines) ≡ reduced lines }
    ensures on_the_way { (lines further : List Command)
        → GoesOn lines further → reduced (reduced lines ++ further) ≡ reduced (lines ++ further) }
{}

/// What a joining replica is told first makes each collection that its cluster makes and that isn't done, as of its since, and asks for
/// each pending peek on one that its cluster makes, each in its order. It is a reduced list, and each of its peeks is on a collection
/// that it makes, as of the peek's time or an earlier one. Takes no memory.
pub fn joining_lists_tell_sinces()
    ensures makes { (cluster : ℕ) (ss : List Settled) (peeks : List PendingPeek)
        → created (joining cluster ss peeks)
        ≡ map (λ s. s.collection.number)
        (filter (λ s. is_made_in cluster s.collection && is_at s.since) ss) }
    ensures tells { (cluster first : ℕ) (ss : List Settled) (peeks : List PendingPeek)
        → Numbered first (map (λ s. s.collection) ss) → (number t : ℕ)
        → is_read_in cluster ss number ≡ true → since_of number ss ≡ At t
        → told number (joining cluster ss peeks) ≡ At t }
    ensures asks { (cluster : ℕ) (ss : List Settled) (peeks : List PendingPeek)
        → asked (joining cluster ss peeks)
        ≡ map (λ peek. peek.peek) (filter (λ peek. is_read_in cluster ss peek.collection) peeks) }
    ensures is_reduced { (cluster first : ℕ) (ss : List Settled) (peeks : List PendingPeek)
        → Numbered first (map (λ s. s.collection) ss)
        → reduced (joining cluster ss peeks) ≡ joining cluster ss peeks }
    ensures readable { (cluster first : ℕ) (holds : List Hold) (peeks : List PendingPeek)
        (cs : List Collection) (ss : List Settled) → Numbered first cs
        → ss ≡ settle (capabilities holds peeks) cs
        → Each (λ peek. is_read_in cluster ss peek.collection ≡ true
        → IsReadable (joining cluster ss peeks) peek) peeks }
{}

/// With the allowances of a feed a stream tells the since of each collection that it makes, where it told no more before. Takes no memory.
pub fn fed_streams_tell_sinces()
    ensures { (ss : List Settled) (lines : List Command) (number : ℕ)
        → is_created number lines ≡ true → Le (told number lines) (since_of number ss)
        → told number (lines ++ allowances ss lines) ≡ since_of number ss }
{}

/// Lines that each name no more of a collection than a bound tell no more of it, also once the bounds have risen. What a joining replica
/// is told first and what a feed allows name no more than the sinces, a creation no more than the as-of, and a reduced list no more
/// than the list. So nothing that is told is past a since that never falls. Takes no memory.
pub fn lines_pass_no_since()
    ensures tells { (since : ℕ → Frontier) (lines : List Command) → Each (IsSaidWithin since) lines
        → (number : ℕ) → Le (told number lines) (since number) }
    ensures later { (since later : ℕ → Frontier) → ((number : ℕ) → Le (since number) (later number))
        → (lines : List Command) → Each (IsSaidWithin since) lines
        → Each (IsSaidWithin later) lines }
    ensures joins { (cluster first : ℕ) (kept : List Capability) (cs : List Collection)
        (peeks : List PendingPeek) → Numbered first cs
        → Each (IsSaidWithin (λ number. since_of number (settle kept cs)))
        (joining cluster (settle kept cs) peeks) }
    ensures creates { (names : List (ℕ × ℕ)) (cluster : ℕ) (since : ℕ → Frontier)
        (cs : List Collection) → Each (λ c. Le (At c.as_of) (since c.number)) cs
        → Each (IsSaidWithin since) (creations names cluster cs) }
    ensures allows { (ss : List Settled) (lines : List Command)
        → Each (IsSaidWithin (λ number. since_of number ss)) (allowances ss lines) }
    ensures reduces { (since : ℕ → Frontier) (lines : List Command)
        → Each (IsSaidWithin since) lines → Each (IsSaidWithin since) (reduced lines) }
{}
