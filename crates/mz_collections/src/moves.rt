//! What becomes of one collection.
ghost use Rattle.std.specs.Prelude.{◌≡◌, ◌<◌, ◌-◌, length};
ghost use Rattle.mz_rules.specs.Moves.{come_to as come_to_of, kept_by as kept_by_of, let_go as let_go_of};
ghost use Rattle.mz_rules.specs.Policy.{raised as raised_of};
ghost use Rattle.mz_collections.specs.CollectionBook.{come_past as come_past_of};

use mz_holds::kept_time;
use mz_rules::Collection;
use mz_statement::Keep;
use mz_time::{Frontier, Time};

// The implied capability once the policy had its say.
fn raised(keep: Keep, upper: Time, implied: Frontier) -> Frontier
    ensures { result ≡ raised_of keep upper implied }
{
    match implied {
        Frontier::Done => Frontier::Done,
        Frontier::At(old) => Frontier::At(old.max(kept_time(keep, upper, old))),
    }
}

/// The collection has come so far.
pub fn come_past(this: &mut Collection, upper: Time)
    ensures { this.new ≡ come_past_of upper this.old }
{
    this.upper = this.upper.max(upper);
    this.implied = raised(this.keep, this.upper, this.implied);
}

/// It gets another policy, which has its say at once.
pub fn kept_by(this: &mut Collection, keep: Keep)
    ensures { this.new ≡ kept_by_of keep this.old }
{
    this.keep = keep;
    this.implied = raised(keep, this.upper, this.implied);
}

/// Nothing of it is kept for its own sake any more.
pub fn let_go(this: &mut Collection)
    ensures { this.new ≡ let_go_of this.old }
{
    this.implied = Frontier::Done;
}
