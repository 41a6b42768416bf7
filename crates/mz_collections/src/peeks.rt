//! Peeks, kept as holds of a table of their own.
ghost use Rattle.std.specs.Prelude.{◌≡◌};
ghost use Rattle.mz_collections.specs.Kept.{number_on};

use mz_rules::Hold;
use mz_time::Time;

/// The number of the first hold on a collection at a time, 0 where there is none. O(n), where there are n.
pub fn number_of(live: &[Hold], collection: u64, t: Time) -> u64
    ensures { result ≡ number_on collection t live.now }
{
    'live: for hold in live {
        if hold.collection == collection && hold.time == t {
            return hold.number;
        }
    }
    0
}
