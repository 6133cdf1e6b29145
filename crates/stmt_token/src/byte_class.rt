ghost use Rattle.std.specs.Prelude.{◌≡◌, ◌≤◌, length};
ghost use Rattle.std.specs.List.{prefix_len};
ghost use Rattle.stmt_token.specs.Bytes.{is_of};

/// The kinds of bytes that tokens are made of (`space`, `ident_start`, `ident_cont`, `decdigit` and
/// `xdinside` of `scan.l`).
#[derive(Clone, Copy, Debug, PartialEq, Eq)]
pub enum ByteClass {
    /// Space, tab, line feed and carriage return.
    Blank,
    /// A letter or `_`.
    WordStart,
    /// A letter, a digit or `_`.
    WordPart,
    Digit,
    /// What a quoted name may have: no `"` and no zero byte.
    NamePart,
}

impl ByteClass {
    /// Whether a byte is of this class.
    pub fn has(self, byte: u8) -> bool
        ensures { result ≡ is_of self byte }
    {
        match self {
            ByteClass::Blank => matches!(byte, b' ' | b'\t' | b'\n' | b'\r'),
            ByteClass::WordStart => byte.is_ascii_alphabetic() || byte == b'_',
            ByteClass::WordPart => {
                byte.is_ascii_alphabetic() || byte == b'_' || byte.is_ascii_digit()
            }
            ByteClass::Digit => byte.is_ascii_digit(),
            ByteClass::NamePart => byte != b'"' && byte != 0,
        }
    }

    /// How many bytes of this class stand at the front.
    pub fn run(self, bytes: &[u8]) -> usize
        ensures count { result ≡ prefix_len (is_of self) bytes.now }
        ensures within { result ≤ length bytes.now }
    {
        bytes.iter().take_while(|byte| self.has(**byte)).count()
    }
}
