//! Laws of boot texts, which the check proves. Each is the contract of a function that does nothing.
ghost use Rattle.std.specs.Prelude.{◌≡◌, ◌↔◌, ℕ, List, Ok, Err};
ghost use Rattle.user_db.specs.declared.boot.Boot.{Boot};
ghost use Rattle.user_db.specs.declared.line.TheConstants.{BOOT_LINES, BOOT_LINE_BYTES, BOOT_TEXT_BYTES};
ghost use Rattle.user_db.specs.declared.name.TheConstants.{NAME_BYTES};
ghost use Rattle.user_db.specs.declared.user.TheConstants.{SALT_BYTES, DIGEST_BYTES};
ghost use Rattle.user_db.specs.Lines.{lines};
ghost use Rattle.user_db.specs.Boot.{boot_of};
ghost use Rattle.user_db.specs.Texts.{SaysBoot, IsFirstBad};

/// A text is read as the boot that its lines say by the grammar, and its bad line is the first up to which they say none.
#[tactic(auto, unfolding(crate::specs::Boot::boot_of))]
pub fn one_grammar()
    ensures boot { (text : List ℕ) (boot : Boot) → (boot_of text ≡ Ok boot) ↔ SaysBoot (lines text) boot }
    ensures bad { (text : List ℕ) (n : ℕ) → (boot_of text ≡ Err n) ↔ IsFirstBad (lines text) n }
{}

/// The figures of the limits.
pub fn limits()
    ensures lines { BOOT_LINES ≡ 256 }
    ensures line { BOOT_LINE_BYTES ≡ 4096 }
    ensures text { BOOT_TEXT_BYTES ≡ 1048832 }
    ensures name { NAME_BYTES ≡ 32 }
    ensures salt { SALT_BYTES ≡ 16 }
    ensures digest { DIGEST_BYTES ≡ 32 }
{}
