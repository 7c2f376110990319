//! The bytes of a line that are no part of a word.
ghost use Rattle.std.specs.Prelude.{◌≡◌, ◌≤◌, length};
ghost use Rattle.sh_text.specs.Bytes.{is_blank, ends_word, after_blanks};

/// A blank or a tab.
pub(crate) fn is_blank(byte: u8) -> bool
    ensures { result ≡ is_blank byte }
{
    byte == b' ' || byte == b'\t'
}

/// Whether a bare byte stands behind a word and not in it: a blank, or a mark between words.
pub(crate) fn ends_word(byte: u8) -> bool
    ensures { result ≡ ends_word byte }
{
    is_blank(byte) || byte == b';' || byte == b'&' || byte == b'|' || byte == b'<' || byte == b'>'
}

/// The bytes from the first one on that is no blank.
pub(crate) fn after_blanks(bytes: &[u8]) -> &[u8]
    ensures gives { result.now ≡ after_blanks bytes.now }
    ensures shorter { length result.now ≤ length bytes.now }
{
    let mut rest = bytes;
    while let [byte, after @ ..] = rest {
        if !is_blank(*byte) {
            return rest;
        }
        rest = after;
    }
    rest
}
