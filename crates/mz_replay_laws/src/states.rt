//! The states of a log: what holds at each time.
ghost use Rattle.std.specs.Prelude.{◌≡◌, ℕ, ◌≤◌, ◌++◌};
ghost use Rattle.mz_plan.specs.declared.plan.Plan.{Plan};
ghost use Rattle.mz_books.specs.Legal.{Legal};
ghost use Rattle.mz_log.specs.Log.{Log};
ghost use Rattle.mz_books.specs.Rounds.{ddl, read_time};
ghost use Rattle.mz_books.specs.States.{bags_at, plan_at, state_at, table_at};
ghost use Rattle.mz_state_laws.specs.Well.{IsWell};
ghost use Rattle.mz_replay_laws.specs.Well.{IsNewest};

/// What may be read at a time is settled: no further entry of a legal log changes the state at that
/// time, the bags of all tables up to then, or what a plan gives. Takes no memory.
#[tactic(auto, using(crate::proofs::Steady::all_stay))]
pub fn tables_stay()
    ensures state { (log later : Log) (time : ℕ) → Legal (later ++ log) → time ≤ read_time log
        → state_at (later ++ log) time ≡ state_at log time }
    ensures bags { (log later : Log) (time : ℕ) → Legal (later ++ log) → time ≤ read_time log
        → bags_at (later ++ log) time ≡ bags_at log time }
    ensures table { (log later : Log) (table time : ℕ) → Legal (later ++ log) → time ≤ read_time log
        → table_at (later ++ log) table time ≡ table_at log table time }
    ensures plan { (log later : Log) (plan : Plan) (time : ℕ) → Legal (later ++ log)
        → time ≤ read_time log → plan_at (later ++ log) plan time ≡ plan_at log plan time }
{}

/// At each time the state of a legal log is well: its items fit each other, each table has rows of
/// its types, and no plan reads more tables than a query may. Takes no memory.
#[tactic(auto, using(crate::proofs::WellStates::states_well))]
pub fn states_are_well()
    ensures { (log : Log) → Legal log → (time : ℕ) → IsWell (state_at log time) }
{}

/// From the time of the last CREATE or DROP that succeeded on, the items and the plans of indexes
/// are those of the newest state: so a query means at each such time what it means as it is
/// submitted. Takes no memory.
#[tactic(auto, using(crate::proofs::ItemsStay::newest_from_ddl))]
pub fn items_stay_from_ddl()
    ensures { (log : Log) → Legal log → (time : ℕ) → ddl log ≤ time → IsNewest log time }
{}
