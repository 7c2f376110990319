//! The boot of a source.
ghost use Rattle.std.specs.Prelude.{◌≡◌, ℕ, ◌+◌, ◌<◌, ◌≤◌, List, length, Some, Err, IfOk};
ghost use Rattle.edge_io.specs.Outside.{Rose};
ghost use Rattle.user_db.specs.Boot.{boot_of, IsBoot};
ghost use Rattle.tty_host.specs.Boots.{Enough, Booted};

use call_words::PIECE_BYTES;
use edge_io::{Failed, Source};
use std::alloc::Global;
use user_db::{BOOT_TEXT_BYTES, Boot, BootFault, read_boot};

/// Why a source gives no boot.
#[derive(Clone, Copy)]
pub enum NoBoot {
    /// The number of the first bad line of its text, counted from 1.
    Line(u32),
    /// The source failed.
    Failed,
    /// Memory ran out.
    NoMemory,
}

/// The text of a source. Where it is longer than any boot text a front of it that is too long
/// suffices, and no more is kept.
fn read_text<B: Source>(alloc: Global, source: &mut B) -> Result<Vec<u8>, NoBoot>
    ensures enough { (text : List ℕ) → B.left source.old ≡ Some text → IfOk result (λ read. Enough read.items text) }
    ensures bounded { IfOk result (λ read. length read.items ≤ BOOT_TEXT_BYTES + PIECE_BYTES) }
    ensures fault { (n : ℕ) → result ≡ Err (NoBoot.Line n) → ⊥ }
    ensures failed { result ≡ Err NoBoot.Failed → Rose (B.faults source.old) (B.faults source.new) }
{
    let mut text = Vec::new(alloc);
    let mut buffer = [0; PIECE_BYTES];
    while text.len() <= BOOT_TEXT_BYTES {
        let Ok(count) = source.read(&mut buffer) else {
            return Err(NoBoot::Failed);
        };
        if count == 0 {
            break;
        }
        if text.extend_from_slice(&buffer[..count]).is_err() {
            return Err(NoBoot::NoMemory);
        }
    }
    Ok(text)
}

/// Reads the boot text that a source has, up to its end or to where it is longer than any.
///
/// `Line` comes exactly where it is none, `Failed` only where a read failed.
pub fn take_boot<B: Source>(alloc: Global, source: &mut B) -> Result<Boot, NoBoot>
    ensures reads { (text : List ℕ) → B.left source.old ≡ Some text → Booted result (boot_of text) }
    ensures boot { IfOk result IsBoot }
    ensures failed { result ≡ Err NoBoot.Failed → Rose (B.faults source.old) (B.faults source.new) }
{
    let text = read_text(alloc, source)?;
    match read_boot(alloc, text.as_slice()) {
        Ok(boot) => Ok(boot),
        Err(BootFault::Line(number)) => Err(NoBoot::Line(number)),
        Err(BootFault::NoMemory) => Err(NoBoot::NoMemory),
    }
}
