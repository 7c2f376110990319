//! The lines of a text as it comes.
ghost use Rattle.std.specs.Prelude.{◌≡◌, ◌<◌, length, position, IfSome};
ghost use Rattle.user_db.specs.Lines.{is_newline};
ghost use Rattle.tty_host.specs.OneLine.{IsCutLine};

/// Where the first newline is.
fn newline_at(text: &[u8]) -> Option<usize>
    ensures { result ≡ position is_newline text.now }
{
    text.iter().position(|byte| *byte == b'\n')
}

/// The bytes before the first newline, and those behind it, where there is a newline.
pub(crate) fn cut_line(text: &[u8]) -> Option<(&[u8], &[u8])>
    ensures cut { IfSome result (λ cut. IsCutLine text.now cut.0.now cut.1.now) }
    ensures shorter { IfSome result (λ cut. length cut.1.now < length text.now) }
{
    let at = newline_at(text)?;
    Some((&text[..at], &text[at + 1..]))
}
