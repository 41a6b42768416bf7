//! Sessions are opened.
ghost use Rattle.std.specs.Prelude.{◌≡◌, false, bytes_eq, OnOk, OnErr};
ghost use Rattle.std.specs.List.{list_any};
ghost use Rattle.mz_log.specs.Log.{Log};
ghost use Rattle.mz_books.specs.Given.{Does, opening_given};
ghost use Rattle.mz_plain.specs.Stands.{kept, Stands};
ghost use Rattle.mz_kept.specs.Steps.{opened};
ghost use Rattle.mz_core.specs.Told.{cause};

use crate::Plain;
use mz_kept::Session;
use mz_refusal::{CallFault, Limited, Refusal};
use mz_value::Name;
use std::alloc::AllocError;

/// How many sessions may be opened.
const MOST_SESSIONS: usize = 64;

impl Plain {
    // A session is opened under a name that none has.
    #[tactic(auto, using(mz_kept_laws::proofs::Starting::insert_new))]
    fn open(&mut self, name: Name) -> Result<(), AllocError>
        requires { list_any (bytes_eq name) (kept self.old).names ≡ false }
        ensures ok { OnOk result (kept self.new ≡ opened name (kept self.old)) }
        ensures err { OnErr result (kept self.new ≡ kept self.old) }
    {
        self.sessions.reserve(1)?;
        self.names.insert(name)?;
        self.sessions.push_reserved(Session {
            calls: 0,
            outstanding: None,
        });
        Ok(())
    }

    /// Opens a session under a name, and gives its number. After an `Err` all is as before. O(1) expected.
    pub fn open_session(&mut self, name: Name) -> Result<u64, CallFault>
        ensures { (log : Log) → Stands self.old log
            → Does cause log (opening_given log name) result (Stands self.new) }
    {
        if self.names.contains(&name) {
            return Err(CallFault::Refused(Refusal::NameTaken { name }));
        }
        if self.names.len() >= MOST_SESSIONS {
            return Err(CallFault::Refused(Refusal::TooMany {
                what: Limited::Sessions,
                limit: MOST_SESSIONS as u64,
            }));
        }
        self.open(name)?;
        Ok(self.names.len() as u64)
    }
}
