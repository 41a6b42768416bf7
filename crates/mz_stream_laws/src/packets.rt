//! That true packets may be absorbed at each longer log, and have the rows that peeks wait for.
ghost use Rattle.std.specs.List.{AllByRecursion as Each};
ghost use Rattle.std.specs.Prelude.{◌≡◌, ℕ, List, ◌++◌, map};
ghost use Rattle.mz_books.specs.Holds.{pending};
ghost use Rattle.mz_books.specs.Legal.{Legal, MayAbsorb};
ghost use Rattle.mz_books.specs.Owed.{answers_of, peek_rows};
ghost use Rattle.mz_books.specs.Packets.{IsTruePacket};
ghost use Rattle.mz_log.specs.Log.{Log};
ghost use Rattle.mz_plan.specs.declared.command.Answer.{Answer};

/// A packet that is true for its front may be absorbed at each longer legal log. It has an answer for each peek that it is
/// absorbed for, in order, and the rows of each are those that its peek waits for there, if that is still pending. Takes no
/// memory.
pub fn true_packets_have_the_rows_that_peeks_wait_for()
    ensures absorbed { (front later : Log) (replica : List ℕ) (incarnation taken ready : ℕ)
        (frontiers : List (ℕ × ℕ)) (answers : List Answer) → Legal (later ++ front)
        → IsTruePacket front replica incarnation taken ready frontiers answers
        → MayAbsorb (later ++ front) replica incarnation taken ready frontiers }
    ensures peeks { (front later : Log) (replica : List ℕ) (incarnation taken ready : ℕ)
        (frontiers : List (ℕ × ℕ)) (answers : List Answer) → Legal (later ++ front)
        → IsTruePacket front replica incarnation taken ready frontiers answers
        → map (λ answer. answer.peek) answers
        ≡ answers_of (later ++ front) replica incarnation taken ready }
    ensures rows { (front later : Log) (replica : List ℕ) (incarnation taken ready : ℕ)
        (frontiers : List (ℕ × ℕ)) (answers : List Answer) → Legal (later ++ front)
        → IsTruePacket front replica incarnation taken ready frontiers answers
        → Each (λ answer. Each (λ waiting. waiting.peek ≡ answer.peek
        → answer.rows ≡ peek_rows (later ++ front) waiting) (pending (later ++ front))) answers }
{}
