//! Kinds of bytes.
ghost use Rattle.std.specs.Prelude.{◌≡◌};
ghost use Rattle.lint_tables.specs.Words.{upper};
ghost use Rattle.sql_lex.specs.Bytes.{is_white, is_letter, is_digit, goes_on_word};

pub(crate) fn is_white(byte: u8) -> bool
    ensures { result ≡ is_white byte }
{
    matches!(byte, 9..=13 | 32)
}

pub(crate) fn is_letter(byte: u8) -> bool
    ensures { result ≡ is_letter byte }
{
    byte.is_ascii_alphabetic()
}

pub(crate) fn is_digit(byte: u8) -> bool
    ensures { result ≡ is_digit byte }
{
    byte.is_ascii_digit()
}

pub(crate) fn goes_on_word(byte: u8) -> bool
    ensures { result ≡ goes_on_word byte }
{
    is_letter(byte) || is_digit(byte) || byte == b'_'
}

pub(crate) fn upper(byte: u8) -> u8
    ensures { result ≡ upper byte }
{
    if byte.is_ascii_lowercase() {
        byte - 32
    } else {
        byte
    }
}
