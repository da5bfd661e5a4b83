// The bytes of which query texts are made.
ghost use Rattle.std.specs.Prelude.{◌≡◌};
ghost use Rattle.mql_ast.specs.Tokens as bytes;

/// A space, a tab, LF or CR.
pub fn is_blank(byte: u8) -> bool
    ensures { result ≡ bytes.is_blank byte }
{
    byte == b' ' || byte == b'\t' || byte == b'\n' || byte == b'\r'
}

/// What a name begins with.
pub fn is_letter(byte: u8) -> bool
    ensures { result ≡ bytes.is_letter byte }
{
    (b'a' <= byte && byte <= b'z') || (b'A' <= byte && byte <= b'Z') || byte == b'_'
}

/// A decimal digit.
pub fn is_digit(byte: u8) -> bool
    ensures { result ≡ bytes.is_digit byte }
{
    b'0' <= byte && byte <= b'9'
}

/// What a name goes on with.
pub fn is_word_byte(byte: u8) -> bool
    ensures { result ≡ bytes.is_word_byte byte }
{
    is_letter(byte) || is_digit(byte)
}

/// What stands between the slashes of a metric's name.
pub fn is_metric_byte(byte: u8) -> bool
    ensures { result ≡ bytes.is_metric_byte byte }
{
    is_word_byte(byte) || byte == b'.'
}

/// What may stand outside texts in quotes.
pub fn is_alphabet(byte: u8) -> bool
    ensures { result ≡ bytes.is_alphabet byte }
{
    is_word_byte(byte) || is_blank(byte) || is_sign(byte)
}

fn is_sign(byte: u8) -> bool
    ensures { result ≡ bytes.is_sign byte }
{
    byte == b'/'
        || byte == b'.'
        || byte == b':'
        || byte == b'{'
        || byte == b'}'
        || byte == b'['
        || byte == b']'
        || byte == b'('
        || byte == b')'
        || byte == b','
        || byte == b';'
        || byte == b'|'
        || byte == b'&'
        || byte == b'!'
        || byte == b'='
        || byte == b'<'
        || byte == b'>'
        || byte == b'~'
        || byte == b'+'
        || byte == b'-'
        || byte == b'"'
}
