ghost use Rattle.std.specs.Prelude.{◌≡◌, find};
ghost use Rattle.std.specs.List.{starts_with};
ghost use Rattle.std.specs.Str.{bytes_eq};
ghost use Rattle.strip_ast.specs.Marks.{mark_text, keyword_of, symbol_of, same_mark, nat_eq};

/// A keyword or a symbol.
#[derive(Clone, Copy, Debug, PartialEq, Eq)]
pub enum Mark {
    Add,
    After,
    And,
    As,
    At,
    Before,
    Begin,
    Bind,
    By,
    Commit,
    Count,
    Delete,
    Deleted,
    Derive,
    Evaluate,
    Execute,
    Finish,
    From,
    Function,
    Group,
    If,
    Insert,
    Inserted,
    Int,
    Into,
    Key,
    Limit,
    Maintain,
    Marked,
    New,
    Not,
    Old,
    On,
    Or,
    Pending,
    Put,
    Read,
    Ready,
    Redo,
    Return,
    Rule,
    Run,
    Select,
    Set,
    Show,
    Start,
    Stream,
    Sum,
    Table,
    Text,
    Then,
    Undo,
    Unique,
    Update,
    Updated,
    When,
    Where,
    Write,
    Unequal,
    AtMost,
    AtLeast,
    Open,
    Close,
    Comma,
    Dot,
    Star,
    Plus,
    Minus,
    Equal,
    Below,
    Above,
}

/// The words that are no names.
const KEYWORDS: [Mark; 58] = [
    Mark::Add,
    Mark::After,
    Mark::And,
    Mark::As,
    Mark::At,
    Mark::Before,
    Mark::Begin,
    Mark::Bind,
    Mark::By,
    Mark::Commit,
    Mark::Count,
    Mark::Delete,
    Mark::Deleted,
    Mark::Derive,
    Mark::Evaluate,
    Mark::Execute,
    Mark::Finish,
    Mark::From,
    Mark::Function,
    Mark::Group,
    Mark::If,
    Mark::Insert,
    Mark::Inserted,
    Mark::Int,
    Mark::Into,
    Mark::Key,
    Mark::Limit,
    Mark::Maintain,
    Mark::Marked,
    Mark::New,
    Mark::Not,
    Mark::Old,
    Mark::On,
    Mark::Or,
    Mark::Pending,
    Mark::Put,
    Mark::Read,
    Mark::Ready,
    Mark::Redo,
    Mark::Return,
    Mark::Rule,
    Mark::Run,
    Mark::Select,
    Mark::Set,
    Mark::Show,
    Mark::Start,
    Mark::Stream,
    Mark::Sum,
    Mark::Table,
    Mark::Text,
    Mark::Then,
    Mark::Undo,
    Mark::Unique,
    Mark::Update,
    Mark::Updated,
    Mark::When,
    Mark::Where,
    Mark::Write,
];

/// The symbols, a longer one before each that begins it.
const SYMBOLS: [Mark; 13] = [
    Mark::Unequal,
    Mark::AtMost,
    Mark::AtLeast,
    Mark::Open,
    Mark::Close,
    Mark::Comma,
    Mark::Dot,
    Mark::Star,
    Mark::Plus,
    Mark::Minus,
    Mark::Equal,
    Mark::Below,
    Mark::Above,
];

impl Mark {
    /// The bytes that the mark is written with.
    pub fn text(self) -> &'static [u8]
        ensures { result.now ≡ mark_text self }
    {
        match self {
            Mark::Add => b"add",
            Mark::After => b"after",
            Mark::And => b"and",
            Mark::As => b"as",
            Mark::At => b"at",
            Mark::Before => b"before",
            Mark::Begin => b"begin",
            Mark::Bind => b"bind",
            Mark::By => b"by",
            Mark::Commit => b"commit",
            Mark::Count => b"count",
            Mark::Delete => b"delete",
            Mark::Deleted => b"deleted",
            Mark::Derive => b"derive",
            Mark::Evaluate => b"evaluate",
            Mark::Execute => b"execute",
            Mark::Finish => b"finish",
            Mark::From => b"from",
            Mark::Function => b"function",
            Mark::Group => b"group",
            Mark::If => b"if",
            Mark::Insert => b"insert",
            Mark::Inserted => b"inserted",
            Mark::Int => b"int",
            Mark::Into => b"into",
            Mark::Key => b"key",
            Mark::Limit => b"limit",
            Mark::Maintain => b"maintain",
            Mark::Marked => b"marked",
            Mark::New => b"new",
            Mark::Not => b"not",
            Mark::Old => b"old",
            Mark::On => b"on",
            Mark::Or => b"or",
            Mark::Pending => b"pending",
            Mark::Put => b"put",
            Mark::Read => b"read",
            Mark::Ready => b"ready",
            Mark::Redo => b"redo",
            Mark::Return => b"return",
            Mark::Rule => b"rule",
            Mark::Run => b"run",
            Mark::Select => b"select",
            Mark::Set => b"set",
            Mark::Show => b"show",
            Mark::Start => b"start",
            Mark::Stream => b"stream",
            Mark::Sum => b"sum",
            Mark::Table => b"table",
            Mark::Text => b"text",
            Mark::Then => b"then",
            Mark::Undo => b"undo",
            Mark::Unique => b"unique",
            Mark::Update => b"update",
            Mark::Updated => b"updated",
            Mark::When => b"when",
            Mark::Where => b"where",
            Mark::Write => b"write",
            Mark::Unequal => b"<>",
            Mark::AtMost => b"<=",
            Mark::AtLeast => b">=",
            Mark::Open => b"(",
            Mark::Close => b")",
            Mark::Comma => b",",
            Mark::Dot => b".",
            Mark::Star => b"*",
            Mark::Plus => b"+",
            Mark::Minus => b"-",
            Mark::Equal => b"=",
            Mark::Below => b"<",
            Mark::Above => b">",
        }
    }

    /// Whether this is the other mark.
    pub fn is(self, other: Mark) -> bool
        ensures { result ≡ same_mark self other }
    {
        self.text() == other.text()
    }
}

fn first_equal(marks: &[Mark], word: &[u8]) -> Option<Mark>
    ensures { result ≡ find (λ mark. bytes_eq (mark_text mark) word.now) marks.now }
{
    marks.iter().copied().find(|mark| mark.text() == word)
}

fn first_at_front(marks: &[Mark], bytes: &[u8]) -> Option<Mark>
    ensures { result ≡ find (λ mark. starts_with nat_eq bytes.now (mark_text mark)) marks.now }
{
    marks
        .iter()
        .copied()
        .find(|mark| bytes.starts_with(mark.text()))
}

#[tactic(auto, unfolding(crate::specs::Marks::keyword_of))]
pub(crate) fn keyword(word: &[u8]) -> Option<Mark>
    ensures { result ≡ keyword_of word.now }
{
    first_equal(&KEYWORDS, word)
}

#[tactic(auto, unfolding(crate::specs::Marks::symbol_of))]
pub(crate) fn symbol(bytes: &[u8]) -> Option<Mark>
    ensures { result ≡ symbol_of bytes.now }
{
    first_at_front(&SYMBOLS, bytes)
}
