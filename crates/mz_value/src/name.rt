//! A name of a script or of SQL, with its letters lowered.
ghost use Rattle.std.specs.Prelude.{◌≡◌, Some, IfOk, refl, true, bytes_eq, string_bytes};
ghost use Rattle.std.specs.List.{list_all};
ghost use Rattle.std.specs.Ordering.{nat_cmp};
ghost use Rattle.std.specs.Hash as fed;
ghost use Rattle.std.specs.Cmp.{partial_equiv_from_equiv};
ghost use Rattle.std.specs.Cmp.Lexicographic.{slice_cmp, nat_list_eq_equiv, nat_list_cmp_total, texts_ties, texts_po};
ghost use Rattle.std.proofs.Common.{rules};
ghost use Rattle.std.specs.Cmp.Rules.{hashing};
ghost use Rattle.mz_value.specs.Name.{begins_name, continues_name, is_name};

use std::alloc::{AllocError, Global};
use std::cmp::Ordering;
use std::fmt;
use std::hash::{Hash, Hasher};
use std::marker::Model;

/// The most bytes that a name may have.
pub const LONGEST_NAME: usize = 63;

/// A word that starts with a letter or `_` and goes on with letters, digits and `_`.
/// Its letters are lowercase ASCII, and it has 1 to [`LONGEST_NAME`] bytes. Names are in order by bytes.
#[derive(Debug, Drop)]
pub struct Name {
    string: String,
}

impl Model for Name {
    ghost use Rattle.std.specs.Prelude.{List, ℕ, ◌≡◌, true, string_bytes};
    ghost use Rattle.mz_value.specs.Name.{is_name};

    ghost Value = { List ℕ };

    ghost view = { λ n. string_bytes n.string };

    ghost invariant = { λ n. is_name (string_bytes n.string) ≡ true };
}

// Whether a name may begin with the byte.
fn begins_name(byte: u8) -> bool
    ensures { result ≡ begins_name byte }
{
    byte.is_ascii_lowercase() || byte == b'_'
}

// Whether a name may go on with the byte.
fn continues_name(byte: u8) -> bool
    ensures { result ≡ continues_name byte }
{
    begins_name(byte) || byte.is_ascii_digit()
}

// Whether a name may go on with each of the bytes.
fn all_continue_name(bytes: &[u8]) -> bool
    ensures { result ≡ list_all continues_name bytes.now }
{
    bytes.iter().all(|byte| continues_name(*byte))
}

/// Whether the bytes are a name.
pub fn is_name(bytes: &[u8]) -> bool
    ensures { result ≡ is_name bytes.now }
{
    match bytes {
        [] => false,
        [first, rest @ ..] => {
            begins_name(*first) && all_continue_name(rest) && bytes.len() <= LONGEST_NAME
        }
    }
}

impl Name {
    /// The name with these bytes.
    #[tactic(auto, using(crate::proofs::NameText::name_utf8))]
    pub fn new(alloc: Global, bytes: &[u8]) -> Result<Name, AllocError>
        requires { is_name bytes.now ≡ true }
        ensures { IfOk result (λ name. name ≡ bytes.now) }
    {
        match str::from_utf8(bytes) {
            Ok(text) => Ok(Name {
                string: String::from_str(alloc, text)?,
            }),
            Err(_) => unreachable!(),
        }
    }

    /// The name of this string, which it takes over. Takes no memory.
    pub fn from_string(string: String) -> Name
        requires { is_name (string_bytes string) ≡ true }
        ensures { result ≡ string_bytes string }
    {
        Name { string }
    }

    /// The name as a text. Takes no memory.
    pub fn as_str(&self) -> &str
        ensures text { result.now ≡ self.now }
        ensures name { is_name self.now ≡ true }
    {
        self.string.as_str()
    }

    /// The bytes of the name. Takes no memory.
    pub fn as_bytes(&self) -> &[u8]
        ensures bytes { result.now ≡ self.now }
        ensures name { is_name self.now ≡ true }
    {
        self.string.as_bytes()
    }

    /// A copy of the name.
    pub fn try_copy(&self, alloc: Global) -> Result<Name, AllocError>
        ensures { IfOk result (λ copy. copy ≡ self.now) }
    {
        Ok(Name {
            string: String::from_str(alloc, self.string.as_str())?,
        })
    }
}

impl fmt::Display for Name {
    ghost output = { λ n. Some n };

    fn fmt<W: fmt::Write>(&self, f: &mut fmt::Formatter<W>) -> fmt::Result {
        let string = self.string.as_str();
        write!(f, "{string}")
    }
}

impl PartialEq for Name {
    ghost eq = { bytes_eq };

    ghost laws = { partial_equiv_from_equiv nat_list_eq_equiv };

    fn eq(&self, other: &Name) -> bool {
        self.string.as_bytes() == other.string.as_bytes()
    }
}

impl Eq for Name {
    ghost laws = { nat_list_eq_equiv };
}

impl PartialOrd for Name {
    ghost partial_cmp = { λ a b. Some (slice_cmp nat_cmp a b) };

    ghost laws = { texts_po };

    fn partial_cmp(&self, other: &Name) -> Option<Ordering> {
        Some(self.cmp(other))
    }
}

impl Ord for Name {
    ghost cmp = { slice_cmp nat_cmp };

    ghost total = { nat_list_cmp_total };

    ghost matches_partial_cmp = { λ a b. refl };

    ghost matches_eq = { texts_ties };

    fn cmp(&self, other: &Name) -> Ordering {
        self.string.as_bytes().cmp(&other.string.as_bytes())
    }
}

impl Hash for Name {
    ghost hash_input = { fed.slice fed.u8 };

    ghost respects_eq = { Prim.search (hashing, rules) };

    fn hash<H: Hasher>(&self, state: &mut H) {
        self.string.as_bytes().hash(state);
    }
}
