ghost use Rattle.std.specs.Prelude.{◌≡◌};
ghost use Rattle.stmt_token.specs.Signs.{sign_of_byte, sign_of_pair};

/// The signs of a statement. `<>` and `!=` are one, as in `scan.l`.
#[derive(Clone, Copy, Debug, PartialEq, Eq)]
pub enum Sign {
    LeftParen,
    RightParen,
    Comma,
    Semicolon,
    Dot,
    Minus,
    LeftBracket,
    RightBracket,
    Equal,
    NotEqual,
    Less,
    LessEqual,
    Greater,
    GreaterEqual,
    TypeCast,
}

/// The sign that two bytes spell.
pub fn sign_of_pair(first: u8, second: u8) -> Option<Sign>
    ensures { result ≡ sign_of_pair first second }
{
    match (first, second) {
        (b'<', b'=') => Some(Sign::LessEqual),
        (b'>', b'=') => Some(Sign::GreaterEqual),
        (b'<', b'>') | (b'!', b'=') => Some(Sign::NotEqual),
        (b':', b':') => Some(Sign::TypeCast),
        _ => None,
    }
}

/// The sign that a byte spells.
pub fn sign_of_byte(byte: u8) -> Option<Sign>
    ensures { result ≡ sign_of_byte byte }
{
    match byte {
        b'(' => Some(Sign::LeftParen),
        b')' => Some(Sign::RightParen),
        b',' => Some(Sign::Comma),
        b';' => Some(Sign::Semicolon),
        b'.' => Some(Sign::Dot),
        b'-' => Some(Sign::Minus),
        b'[' => Some(Sign::LeftBracket),
        b']' => Some(Sign::RightBracket),
        b'=' => Some(Sign::Equal),
        b'<' => Some(Sign::Less),
        b'>' => Some(Sign::Greater),
        _ => None,
    }
}
