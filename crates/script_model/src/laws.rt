//! What holds of every trail, as the contract of a function that does nothing.
ghost use Rattle.std.specs.Prelude.{◌≡◌, ℕ, ◌≤◌, List, length, None, Ok};
ghost use Rattle.std.specs.List.{AllByRecursion};
ghost use Rattle.sys_types.specs.declared.limits.TheConstants.{TRAIL_EVENTS};
ghost use Rattle.call_words.specs.declared.event.Event.{Event};
ghost use Rattle.user_db.specs.declared.boot.Boot.{Boot};
ghost use Rattle.user_db.specs.Boot.{boot_of};
ghost use Rattle.script_model.specs.Reading.{reads};
ghost use Rattle.script_model.specs.Script.{answers, script_out, bytes_and_status};
ghost use Rattle.script_model.specs.Trail.{trail, IsPrintable};

/// A trail is read again as the events that it was printed of, without a bad line. So a script that is a trail of at most 262,144
/// events is answered as these events are, over the same boot text.
pub fn trails_are_read_back()
    ensures events { (es : List Event) → AllByRecursion IsPrintable es → reads (trail es) ≡ record { events = es; bad = None } }
    ensures answers { (boot_text : List ℕ) (says : Boot) (es : List Event) → boot_of boot_text ≡ Ok says → length es ≤ TRAIL_EVENTS
        → AllByRecursion IsPrintable es → bytes_and_status (script_out boot_text (trail es)) ≡ (answers says es, 0) }
{}
