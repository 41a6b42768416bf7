//! What statements of each kind ask for, change and are told.
ghost use Rattle.std.specs.Prelude.{◌≡◌, ℕ, true, false, Err, IfOk};
ghost use Rattle.mz_statement.specs.Kind.{kind_of};
ghost use Rattle.mz_statement.specs.declared.statement.Statement.{Statement};
ghost use Rattle.mz_plan.specs.declared.resolved.Resolved.{Resolved};
ghost use Rattle.mz_plan.specs.declared.scope.Scope.{Scope};
ghost use Rattle.mz_refusal.specs.declared.refusal.Refusal.{Refusal};
ghost use Rattle.mz_refusal.specs.declared.refusal.Refusal.TheVariants.{Syntax};
ghost use Rattle.mz_resolution.specs.Resolution.{resolution};
ghost use Rattle.mz_log.specs.CarriedOut.{Command, carried_out, outcome, refused, seq};
ghost use Rattle.mz_log.specs.Sequential.{Sequential};
ghost use Rattle.mz_log.specs.declared.reply.SeqReply.TheVariants.{Refused};
ghost use Rattle.mz_state_laws.specs.Kinds.{is_carried, is_query, is_read, is_rows};
ghost use Rattle.mz_state_laws.specs.Unchanged.{IsUnchanged};

/// A query asks for rows and a command for none; what is neither is refused at its first byte. What
/// asks for rows is told rows, and all else a reply. Takes no memory.
pub fn kinds_tell_what_is_asked()
    ensures asked { (scope : Scope) (statement : Statement)
        → IfOk (resolution scope statement)
        (λ asked. is_query asked ≡ is_read (kind_of statement)) }
    ensures others { (scope : Scope) (statement : Statement)
        → is_carried (kind_of statement) ≡ false → resolution scope statement ≡ Err (Syntax 0) }
    ensures rows { (state : Sequential) (asked : Resolved)
        → is_rows (carried_out state asked).response ≡ is_query asked }
    ensures replies { (state : Sequential) (cluster : ℕ) (statement : Statement)
        → is_read (kind_of statement) ≡ false
        → is_rows (seq state cluster statement).response ≡ false }
{}

/// A query changes nothing, and nor does what is neither a command nor a query. Takes no memory.
pub fn queries_change_nothing()
    ensures query { (state : Sequential) (cluster : ℕ) (statement : Statement)
        → is_read (kind_of statement) ≡ true
        → IsUnchanged state (seq state cluster statement) }
    ensures others { (state : Sequential) (cluster : ℕ) (statement : Statement)
        → is_carried (kind_of statement) ≡ false
        → seq state cluster statement ≡ outcome state (refused (Syntax 0)) }
{}

/// A statement that is refused changes nothing. Takes no memory.
#[tactic(auto, using(crate::proofs::NothingChanges::refusal_still))]
pub fn refusals_change_nothing()
    ensures { (state : Sequential) (cluster : ℕ) (statement : Statement) (refusal : Refusal)
        → (seq state cluster statement).response ≡ Command (Refused refusal)
        → IsUnchanged state (seq state cluster statement) }
{}
