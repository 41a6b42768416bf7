//! The words that are no names.
ghost use Rattle.std.specs.Prelude.{◌≡◌, bytes_eq};
ghost use Rattle.std.specs.List.{list_any};
ghost use Rattle.mz_statement.specs.Word.{is_reserved};

// The words that have a meaning of their own everywhere, with their letters lowered.
const RESERVED_WORDS: [&str; 30] = [
    "select", "distinct", "from", "join", "on", "where", "group", "by", "union", "all", "as", "of",
    "and", "or", "not", "true", "false", "create", "table", "view", "index", "drop", "insert",
    "into", "values", "delete", "begin", "commit", "retain", "show",
];

// Whether the word is one of the words.
fn contains(words: &[&str], word: &[u8]) -> bool
    ensures { result ≡ list_any (λ other. bytes_eq word.now other.now) words.now }
{
    words.iter().any(|other| word == other.as_bytes())
}

/// Whether a word, its letters lowered, is one that no name may be. Takes no memory.
pub fn is_reserved(word: &[u8]) -> bool
    ensures { result ≡ is_reserved word.now }
{
    contains(&RESERVED_WORDS, word)
}
