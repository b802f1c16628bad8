//! What the bytes of a text are.
ghost use Rattle.std.specs.Prelude.{◌≡◌, ◌<◌, length, IsTrue};
ghost use Rattle.cd_ast.specs.Bytes.{is_blank, is_quote, is_sign_byte, is_word_byte, is_refused, is_double_sign, opens_comment, closes_comment};

#[tactic(auto, unfolding(cd_ast::specs::Bytes::is_blank))]
pub(crate) fn is_blank(byte: u8) -> bool
    ensures { result ≡ is_blank byte }
{
    byte == b' ' || byte == b'\t' || byte == b'\n' || byte == b'\r'
}

#[tactic(auto, unfolding(cd_ast::specs::Bytes::is_quote))]
pub(crate) fn is_quote(byte: u8) -> bool
    ensures { result ≡ is_quote byte }
{
    byte == b'"' || byte == b'\''
}

#[tactic(auto, unfolding(cd_ast::specs::Bytes::is_sign_byte))]
pub(crate) fn is_sign_byte(byte: u8) -> bool
    ensures { result ≡ is_sign_byte byte }
{
    matches!(byte, b'(' | b')' | b'=' | b',' | b';' | b'<' | b'>' | b'!')
}

#[tactic(auto, unfolding(cd_ast::specs::Bytes::is_word_byte))]
pub(crate) fn is_word_byte(byte: u8) -> bool
    ensures { result ≡ is_word_byte byte }
{
    !is_blank(byte) && !is_quote(byte) && !is_sign_byte(byte)
}

#[tactic(auto, unfolding(cd_ast::specs::Bytes::is_refused))]
pub(crate) fn is_refused(byte: u8) -> bool
    ensures { result ≡ is_refused byte }
{
    byte < b' ' && byte != b'\t' && byte != b'\n' && byte != b'\r'
}

#[tactic(auto, unfolding(cd_ast::specs::Bytes::is_double_sign))]
pub(crate) fn is_double_sign(first: u8, second: u8) -> bool
    ensures { result ≡ is_double_sign first second }
{
    match second {
        b'=' => matches!(first, b'=' | b'<' | b'>' | b'!'),
        b'>' => first == b'<',
        _ => false,
    }
}

/// Whether a comment opens with the byte before the others.
#[tactic(auto, unfolding(cd_ast::specs::Bytes::opens_comment))]
pub(crate) fn opens_comment(byte: u8, after: &[u8]) -> bool
    ensures exact { result ≡ opens_comment byte after.now }
    ensures room { IsTrue result → 0 < length after.now }
{
    match after {
        [] => false,
        [next, ..] => byte == b'/' && *next == b'*',
    }
}

/// Whether a comment closes with the byte before the others, and the one after it.
#[tactic(auto, unfolding(cd_ast::specs::Bytes::closes_comment))]
pub(crate) fn closes_comment(byte: u8, after: &[u8]) -> bool
    ensures { result ≡ closes_comment byte after.now }
{
    match after {
        [] => false,
        [next, ..] => byte == b'*' && *next == b'/',
    }
}
