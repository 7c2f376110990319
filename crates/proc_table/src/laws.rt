//! Laws of the table, which the check proves. Each is the contract of a function that does nothing.
ghost use Rattle.std.specs.Prelude.{◌≡◌, ℕ, ◌+◌, ◌<◌, ◌≤◌, Bool, List, Option};
ghost use Rattle.sys_types.specs.declared.sig.Sig.{Sig};
ghost use Rattle.sys_types.specs.declared.sig.Sig.TheVariants.{CHLD};
ghost use Rattle.call_words.specs.declared.event.How.{How};
ghost use Rattle.call_words.specs.declared.signal.To.{To};
ghost use Rattle.call_words.specs.declared.signal.To.TheVariants.{Pid};
ghost use Rattle.proc_table.specs.Processes as spec;
ghost use Rattle.proc_table.specs.Forks as forks;
ghost use Rattle.proc_table.specs.Posts as posts;
ghost use Rattle.proc_table.specs.Endings as endings;
ghost use Rattle.proc_table.specs.Reaping as reaping;
ghost use Rattle.proc_table.specs.Kept.{HasPidsOnce, HasNoMore};
ghost use Rattle.proc_table.specs.Order.{AreInOrder};

/// At a boot no pid is there twice, and each is below the next one. A fork leaves that so.
pub fn pids_are_used_once()
    ensures boot { (root : ℕ) → HasPidsOnce (spec.at_boot root) }
    ensures fork { (t : spec.Processes ℕ) (slot : ℕ) (note : List ℕ) → HasPidsOnce t → HasPidsOnce (forks.fork t slot note) }
{}

/// No other call brings a process, nor changes the next pid; so each leaves that so.
pub fn only_a_fork_brings_a_process()
    ensures post { (t : spec.Processes ℕ) (sig : Sig) (to : To) (ending : List (ℕ × How)) → HasNoMore t (posts.post t sig to ending).table }
    ensures bury { (t : spec.Processes ℕ) (slot : ℕ) (how : How) (ending : List (ℕ × How)) → HasNoMore t (endings.bury t slot how ending).table }
    ensures reap { (t : spec.Processes ℕ) (caller who : ℕ) (untraced : Bool) → HasNoMore t (reaping.reap t caller who untraced).0 }
    ensures once { (t after : spec.Processes ℕ) → HasNoMore t after → HasPidsOnce t → HasPidsOnce after }
{}

/// The processes to which a signal is posted, and those among which a wait chooses, come in rising order of their pids: all of them and
/// no others.
pub fn processes_come_in_rising_order()
    ensures { (test : spec.Process ℕ → Bool) (t : spec.Processes ℕ) → HasPidsOnce t → AreInOrder test t (spec.slots_by_pid test t) }
{}

/// A child that stops or ends posts CHLD to its parent, as `post` posts it.
pub fn a_child_posts_chld_to_its_parent()
    ensures { (t : spec.Processes ℕ) (parent : ℕ) (ending : List (ℕ × How)) → HasPidsOnce t
        → posts.post t CHLD (Pid parent) ending ≡ posts.table_and_list (posts.post_child t parent) ending }
{}
