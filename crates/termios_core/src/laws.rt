//! What holds of every termios and every text, as contracts of functions that do nothing.
ghost use Rattle.std.specs.Prelude.{◌≡◌, ℕ, ◌≤◌, ◌↔◌, List, length, Some};
ghost use Rattle.termios_core.specs.declared.print.TheConstants.{TEXT_ROOM, TERMIOS_ROOM};
ghost use Rattle.termios_core.specs.declared.termios.TheConstants.{DISABLED};
ghost use Rattle.termios_core.specs.declared.termios.Termios.{Termios};
ghost use Rattle.termios_core.specs.Termios.{HasBytes};
ghost use Rattle.termios_core.specs.Text.{termios_text, Spells, IsWord};
ghost use Rattle.termios_core.specs.Reading.{termios_of};

/// What is printed of a termios is read as that termios.
pub fn read_back()
    ensures { (t : Termios) → HasBytes t → termios_of (termios_text t) ≡ Some t }
{}

/// A text is read as a termios exactly where it spells it, so a text spells at most one.
pub fn one_grammar()
    ensures { (text : List ℕ) (t : Termios) → (termios_of text ≡ Some t) ↔ (Spells text t × HasBytes t) }
{}

/// What is printed is one word of at most 300 bytes.
pub fn one_word()
    ensures word { (t : Termios) → HasBytes t → IsWord (termios_text t) }
    ensures most { (t : Termios) → HasBytes t → length (termios_text t) ≤ 300 }
{}

/// The figures of the limits: bytes of texts, and the control character that is disabled.
pub fn limits()
    ensures text { TEXT_ROOM ≡ 4096 }
    ensures termios { TERMIOS_ROOM ≡ 300 }
    ensures disabled_character { DISABLED ≡ 255 }
{}
