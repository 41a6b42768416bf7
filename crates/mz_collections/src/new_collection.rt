//! Collections that are made.
ghost use Rattle.std.specs.Prelude.{◌≡◌, ℕ};
ghost use Rattle.mz_collections.specs.CollectionBook.{implied_of, keep_of, made};

use mz_plan::Plan;
use mz_rules::{Collection, CollectionKind, Numbers, Settled};
use mz_statement::Keep;
use mz_time::{Frontier, Time};
use mz_value::Text;

/// What a collection is made of; it gets the next number.
#[derive(Drop)]
pub struct NewCollection {
    /// What it is called.
    pub name: Text,
    /// What it is made for.
    pub kind: CollectionKind,
    /// The number of its item, or 0 where it is made for a peek.
    pub item: u64,
    /// The cluster whose replicas keep it.
    pub cluster: u64,
    /// What it has, as a plan over items.
    pub plan: Plan,
    /// The collections that it reads.
    pub inputs: Numbers,
    /// The first time at which it has contents.
    pub as_of: Time,
    /// How much of its past is kept for its own sake. None where it is made for a peek.
    pub policy: Option<Keep>,
}

// The policy that is said, or the default.
fn keep(policy: Option<Keep>) -> Keep
    ensures { result ≡ keep_of policy }
{
    policy.unwrap_or(Keep::Lag(1))
}

// What is kept for its own sake at first.
fn implied(policy: Option<Keep>, as_of: Time) -> Frontier
    ensures { result ≡ implied_of policy as_of }
{
    match policy {
        Some(_) => Frontier::At(as_of),
        None => Frontier::Done,
    }
}

/// The collection with its number. Its since is its as-of at first.
pub fn made_with(new: NewCollection, number: u64) -> Settled
    ensures { result ≡ made number new }
{
    Settled {
        collection: Collection {
            number,
            name: new.name,
            kind: new.kind,
            item: new.item,
            cluster: new.cluster,
            plan: new.plan,
            inputs: new.inputs,
            as_of: new.as_of,
            keep: keep(new.policy),
            implied: implied(new.policy, new.as_of),
            upper: new.as_of,
        },
        since: Frontier::At(new.as_of),
    }
}
