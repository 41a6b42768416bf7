//! Reserved words and signs.
ghost use Rattle.std.specs.Prelude.{◌≡◌};
ghost use Rattle.mz_grammar.specs.Token.{spelling, same};

/// A reserved word or a sign.
#[derive(Clone, Copy, Debug, PartialEq, Eq)]
pub enum Key {
    /// `SELECT`
    Select,
    /// `DISTINCT`
    Distinct,
    /// `FROM`
    From,
    /// `JOIN`
    Join,
    /// `ON`
    On,
    /// `WHERE`
    Where,
    /// `GROUP`
    Group,
    /// `BY`
    By,
    /// `UNION`
    Union,
    /// `ALL`
    All,
    /// `AS`
    As,
    /// `OF`
    Of,
    /// `AND`
    And,
    /// `OR`
    Or,
    /// `NOT`
    Not,
    /// `TRUE`
    True,
    /// `FALSE`
    False,
    /// `CREATE`
    Create,
    /// `TABLE`
    Table,
    /// `VIEW`
    View,
    /// `INDEX`
    Index,
    /// `DROP`
    Drop,
    /// `INSERT`
    Insert,
    /// `INTO`
    Into,
    /// `VALUES`
    Values,
    /// `DELETE`
    Delete,
    /// `BEGIN`
    Begin,
    /// `COMMIT`
    Commit,
    /// `RETAIN`
    Retain,
    /// `SHOW`
    Show,
    /// `(`
    Open,
    /// `)`
    Close,
    /// `,`
    Comma,
    /// `.`
    Dot,
    /// `*`
    Star,
    /// `=`
    Equal,
    /// `<`
    Less,
    /// `>`
    Greater,
    /// `<=`
    LessEqual,
    /// `>=`
    GreaterEqual,
    /// `<>`
    Unequal,
    /// `-`
    Minus,
    /// `;`
    Semicolon,
}

/// The reserved words.
pub const RESERVED_KEYS: [Key; 30] = [
    Key::Select,
    Key::Distinct,
    Key::From,
    Key::Join,
    Key::On,
    Key::Where,
    Key::Group,
    Key::By,
    Key::Union,
    Key::All,
    Key::As,
    Key::Of,
    Key::And,
    Key::Or,
    Key::Not,
    Key::True,
    Key::False,
    Key::Create,
    Key::Table,
    Key::View,
    Key::Index,
    Key::Drop,
    Key::Insert,
    Key::Into,
    Key::Values,
    Key::Delete,
    Key::Begin,
    Key::Commit,
    Key::Retain,
    Key::Show,
];

/// How the key is written.
pub fn spelling(key: Key) -> &'static str
    ensures { result.now ≡ spelling key }
{
    match key {
        Key::Select => "SELECT",
        Key::Distinct => "DISTINCT",
        Key::From => "FROM",
        Key::Join => "JOIN",
        Key::On => "ON",
        Key::Where => "WHERE",
        Key::Group => "GROUP",
        Key::By => "BY",
        Key::Union => "UNION",
        Key::All => "ALL",
        Key::As => "AS",
        Key::Of => "OF",
        Key::And => "AND",
        Key::Or => "OR",
        Key::Not => "NOT",
        Key::True => "TRUE",
        Key::False => "FALSE",
        Key::Create => "CREATE",
        Key::Table => "TABLE",
        Key::View => "VIEW",
        Key::Index => "INDEX",
        Key::Drop => "DROP",
        Key::Insert => "INSERT",
        Key::Into => "INTO",
        Key::Values => "VALUES",
        Key::Delete => "DELETE",
        Key::Begin => "BEGIN",
        Key::Commit => "COMMIT",
        Key::Retain => "RETAIN",
        Key::Show => "SHOW",
        Key::Open => "(",
        Key::Close => ")",
        Key::Comma => ",",
        Key::Dot => ".",
        Key::Star => "*",
        Key::Equal => "=",
        Key::Less => "<",
        Key::Greater => ">",
        Key::LessEqual => "<=",
        Key::GreaterEqual => ">=",
        Key::Unequal => "<>",
        Key::Minus => "-",
        Key::Semicolon => ";",
    }
}

/// Whether two keys are one.
pub fn same(one: Key, other: Key) -> bool
    ensures { result ≡ same one other }
{
    one == other
}
