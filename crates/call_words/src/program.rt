//! What a program is to the kernel: from each reply the next call.
ghost use Rattle.std.specs.Prelude.{◌≡◌, List, ◌∷◌, [], ◌++◌, IfOk, OnOk, OnErr};
ghost use Rattle.call_words.specs.declared.event.Reply.{Reply as AReply};
ghost use Rattle.call_words.specs.Programs.{StandsFor};

use crate::call::Call;
use crate::event::Reply;

/// Memory ran out. It changes nothing.
pub use std::alloc::AllocError as NoMemory;

/// A program that a process runs. It asks one call after the other, each by all replies so far, of which the first is the
/// image that it runs with its arguments.
pub trait Program: Drop {
    ghost use Rattle.std.specs.Prelude.{ℕ, List};
    ghost use Rattle.sys_types.specs.declared.image.Image.{Image};
    ghost use Rattle.call_words.specs.declared.call.Call.{Call};
    ghost use Rattle.call_words.specs.declared.event.Reply.{Reply};

    /// Which program it is.
    ghost image: { Self → Image };
    /// Its arguments.
    ghost args: { Self → List ℕ };
    /// For which replies so far it stands.
    ghost stands: { Self → List Reply → Type 0 };
    /// After these replies this program may ask this call next.
    ghost asks: { Image → List Reply → Call → Type 0 };

    /// Takes the reply to its last call, and asks the next one. With `Err` it is as before, and may be handed the same
    /// reply again.
    fn next(&mut self, reply: &Reply) -> Result<Call, NoMemory>
        requires { StandsFor (image self.old) (args self.old) (stands self.old) reply.now }
        ensures asks { (replies : List AReply) → stands self.old replies →
            IfOk result (λ call. asks (image self.old) (replies ++ reply.now ∷ []) call) }
        ensures stands { (replies : List AReply) → stands self.old replies →
            OnOk result (stands self.new (replies ++ reply.now ∷ [])) }
        ensures image { image self.new ≡ image self.old }
        ensures args { args self.new ≡ args self.old }
        ensures err { OnErr result (self.new ≡ self.old) };
}
