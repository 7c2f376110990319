//! Looks at all slots.
ghost use Rattle.std.specs.Prelude.{◌≡◌, ◌==◌, ◌&&◌, map, position};
ghost use Rattle.std.specs.List.{list_any};
ghost use Rattle.proc_table.specs.Processes as spec;
ghost use Rattle.proc_table.specs.Forks as forks;
ghost use Rattle.proc_table.specs.Endings as endings;
ghost use Rattle.proc_table.specs.Reaping as reaping;

use crate::place::Place;
use sys_types::Node;

/// The first slot with the process of a pid.
pub(crate) fn place_of(places: &[Place], pid: u32) -> Option<usize>
    ensures { result ≡ position (λ s. spec.holds (λ p. p.pid == pid) s.process) places.now }
{
    places.iter().position(|place| place.has_pid(pid))
}

/// The first slot that a fork may take.
pub(crate) fn free_place(places: &[Place]) -> Option<usize>
    ensures { result ≡ position forks.is_free places.now }
{
    places.iter().position(|place| place.is_free())
}

/// Whether some slot has a running process of a group that is stopped.
pub(crate) fn any_stopped(places: &[Place], group: u32) -> bool
    ensures { result ≡ list_any (λ s. spec.holds (λ p. spec.is_running p && (p.group == group && spec.is_stopped p)) s.process) places.now }
{
    places.iter().any(|place| place.has_stopped(group))
}

/// Whether some slot has a running process of a group.
pub(crate) fn any_member(places: &[Place], group: u32) -> bool
    ensures { result ≡ list_any (λ s. spec.holds (λ p. spec.is_running p && p.group == group) s.process) places.now }
{
    places.iter().any(|place| place.has_member(group))
}

/// Whether some slot has a running process of a group in a session.
pub(crate) fn any_member_in(places: &[Place], group: u32, session: u32) -> bool
    ensures { result ≡ list_any (λ s. spec.holds (λ p. spec.is_running p && (p.group == group && p.session == session)) s.process) places.now }
{
    places
        .iter()
        .any(|place| place.has_member_in(group, session))
}

/// Whether some slot has a running process that works in a directory.
pub(crate) fn any_in(places: &[Place], directory: Node) -> bool
    ensures { result ≡ list_any (λ s. spec.holds (λ p. spec.is_running p && p.directory == directory) s.process) places.now }
{
    places.iter().any(|place| place.works_in(directory))
}

/// Whether some slot has a child of a pid that a wait names.
pub(crate) fn any_child(places: &[Place], parent: u32, who: u32) -> bool
    ensures { result ≡ list_any (λ s. spec.holds (reaping.is_child parent who) s.process) places.now }
{
    places.iter().any(|place| place.has_child(parent, who))
}

/// Gives each child of a pid, a zombie too, pid 1 as its parent.
pub(crate) fn adopt_all(places: &mut [Place], parent: u32)
    ensures { places.new ≡ map (endings.adopt_in parent) places.old }
{
    for place in places.iter_mut() {
        place.adopt(parent);
    }
}
