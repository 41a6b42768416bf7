//! The laws of peeks, each as what a function with an empty body ensures.
ghost use Rattle.std.specs.Prelude.{◌≡◌, ◌+◌, ◌==◌, ◌∷◌, ℕ, None, Some, false, find};
ghost use Rattle.mz_bag.specs.Weighted.{Weighted};
ghost use Rattle.mz_statement.specs.declared.statement.Statement.{Statement};
ghost use Rattle.mz_log.specs.Log.{Log};
ghost use Rattle.mz_log.specs.declared.entry.Entry.TheVariants.{Cancel, Finish, Read};
ghost use Rattle.mz_books.specs.Holds.{is_of_call, is_peek, peeks_made};
ghost use Rattle.mz_peeks.specs.Kept.{AreNumbered};
ghost use Rattle.mz_peeks.specs.PeekBook.{PeekBook, new_peek, peeks_of, with_peek};
ghost use Rattle.mz_peeks.specs.PeekBook.{without_call, without_peek};

/// What an entry makes of the peeks of a log is a step of the book: a read makes the next
/// one, a finish lets go of that of its number, a cancelling of that of its call. Takes no memory.
pub fn entries_are_steps()
    ensures read { (log : Log) (session call peek time : ℕ) (statement : Statement) (collection : ℕ)
        → peek ≡ peeks_made log + 1
        → peeks_of (Read session call peek time statement collection ∷ log)
        ≡ with_peek session call collection time (peeks_of log) }
    ensures finish { (log : Log) (peek : ℕ) (rows : Weighted)
        → peeks_of (Finish peek rows ∷ log) ≡ without_peek peek (peeks_of log) }
    ensures cancel { (log : Log) (session call : ℕ)
        → peeks_of (Cancel session call ∷ log) ≡ without_call session call (peeks_of log) }
{}

/// A peek leaves once: then none of its number is pending, and any other is as before. Where none
/// is pending, none leaves. Takes no memory.
pub fn a_peek_leaves_once()
    ensures gone { (peek : ℕ) (b : PeekBook)
        → find (is_peek peek) (without_peek peek b).pending ≡ None }
    ensures others { (peek other : ℕ) (b : PeekBook) → (other == peek) ≡ false
        → find (is_peek other) (without_peek peek b).pending ≡ find (is_peek other) b.pending }
    ensures none { (peek : ℕ) (b : PeekBook)
        → find (is_peek peek) b.pending ≡ None → without_peek peek b ≡ b }
    ensures no_call { (session call : ℕ) (b : PeekBook)
        → find (is_of_call session call) b.pending ≡ None → without_call session call b ≡ b }
{}

/// A number is given once: among numbered peeks none has the next number, and under it the new peek
/// is found. Takes no memory.
pub fn a_new_peek_has_its_own_number()
    ensures fresh { (b : PeekBook) → AreNumbered b.pending b.made
        → find (is_peek (b.made + 1)) b.pending ≡ None }
    ensures found { (session call collection time : ℕ) (b : PeekBook) → AreNumbered b.pending b.made
        → find (is_peek (b.made + 1)) (with_peek session call collection time b).pending
        ≡ Some (new_peek session call collection time b) }
{}
