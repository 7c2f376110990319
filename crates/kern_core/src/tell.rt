//! Short decisions, written where the long ones are. What is made in place of a value costs nothing where it is not asked for.
ghost use Rattle.std.specs.Prelude.{◌≡◌};

use call_words::{Decision, Reason, Reply, Rule};

/// Refused by a rule.
pub(crate) fn tell_denied(decision: &mut Decision, rule: Rule)
    ensures { decision.new ≡ Decision.Answer (Reply.Denied rule) }
{
    *decision = Decision::denied(rule);
}

/// The call sleeps.
pub(crate) fn tell_sleep(decision: &mut Decision, reason: Reason)
    ensures { decision.new ≡ Decision.Sleep reason }
{
    *decision = Decision::Sleep(reason);
}

/// The slot has no running process, or the system is halted.
pub(crate) fn tell_gone(decision: &mut Decision)
    ensures { decision.new ≡ Decision.Answer Reply.Gone }
{
    *decision = Decision::Answer(Reply::Gone);
}
