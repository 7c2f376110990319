//! Ends of processes.
ghost use Rattle.std.specs.Prelude.{◌≡◌, ◌<◌, ◌≤◌, ◌&&◌, not, length, fold, filter, is_some, IsTrue};
ghost use Rattle.sys_types.specs.declared.limits.TheConstants.{SLOTS};
ghost use Rattle.proc_table.specs.Processes as spec;
ghost use Rattle.proc_table.specs.Posts as posts;
ghost use Rattle.proc_table.specs.Endings as endings;

use crate::groups::{Groups, stopped_groups};
use crate::lookup::{adopt_all, any_stopped};
use crate::post::EndingList;
use crate::table::ProcTable;
use arrayvec::ArrayVec;
use call_words::{How, To};
use sys_types::{Node, SLOTS, Sig};

impl ProcTable {
    /// Gives each child of a pid, a zombie too, pid 1 as its parent.
    fn adopt_all(&mut self, parent: u32)
        ensures { self.new ≡ endings.adopt_all self.old parent }
    {
        adopt_all(&mut self.places, parent);
    }

    /// Ends the running process of a slot: its children have another parent, it is a zombie, and its parent gets CHLD.
    #[tactic(auto, unfolding(crate::specs::Endings::end_at))]
    fn end_at(&mut self, slot: u8, how: How)
        requires { slot < SLOTS }
        ensures { self.new ≡ endings.end_at self.old slot how }
    {
        let Some(process) = self.running(slot) else {
            return;
        };
        let (pid, parent) = (process.pid, process.parent);
        self.adopt_all(pid);
        self.places[usize::from(slot)].end(how);
        self.post_child(parent);
    }

    /// Whether a group has a stopped running member.
    fn has_stopped(&self, group: u32) -> bool
        ensures { result ≡ endings.has_stopped self.now group }
    {
        any_stopped(&self.places, group)
    }

    /// Whether a group is orphaned and has a stopped running member.
    fn must_hang_up(&self, group: u32) -> bool
        ensures { result ≡ (spec.is_orphaned self.now group && endings.has_stopped self.now group) }
    {
        self.orphaned(group) && self.has_stopped(group)
    }

    /// Those of these groups that are not orphaned.
    fn without_orphaned(&self, groups: &[u32]) -> Groups
        requires { length groups.now ≤ SLOTS }
        ensures { result.items ≡ filter (λ group. not (spec.is_orphaned self.now group)) groups.now }
    {
        let mut chosen = ArrayVec::new();
        for group in groups {
            if !self.orphaned(*group) {
                chosen.push(*group);
            }
        }
        chosen
    }

    /// Those of these groups that are orphaned and have a stopped running member.
    fn to_hang_up(&self, groups: &[u32]) -> Groups
        requires { length groups.now ≤ SLOTS }
        ensures { result.items ≡ filter (λ group. spec.is_orphaned self.now group && endings.has_stopped self.now group) groups.now }
    {
        let mut chosen = ArrayVec::new();
        for group in groups {
            if self.must_hang_up(*group) {
                chosen.push(*group);
            }
        }
        chosen
    }

    /// The groups that have a stopped running member and are not orphaned, in rising order.
    fn groups_to_watch(&self) -> Groups
        ensures { result.items ≡ filter (λ group. not (spec.is_orphaned self.now group)) (endings.stopped_groups self.now) }
    {
        let groups = stopped_groups(&self.places);
        self.without_orphaned(groups.as_slice())
    }

    /// Posts HUP to a group, and then CONT.
    fn hang_up(&mut self, group: u32, ending: &mut EndingList)
        requires { posts.IsEndingList ending.old.items }
        ensures posted { posts.table_and_list self.new ending.new.items ≡ endings.hang_up (posts.table_and_list self.old ending.old.items) group }
        ensures list { posts.IsEndingList ending.new.items }
    {
        self.post(Sig::HUP, To::Group(group), ending);
        self.post(Sig::CONT, To::Group(group), ending);
    }

    /// The same to each of these groups.
    fn hang_up_all(&mut self, groups: &[u32], ending: &mut EndingList)
        requires { posts.IsEndingList ending.old.items }
        ensures posted { posts.table_and_list self.new ending.new.items ≡ fold endings.hang_up (posts.table_and_list self.old ending.old.items) groups.now }
        ensures list { posts.IsEndingList ending.new.items }
    {
        for group in groups {
            self.hang_up(*group, ending);
        }
    }

    /// Ends the running process of a slot. Its children, zombies too, get pid 1 as their parent; it is a zombie, and its slot is left where a
    /// signal ended it; CHLD is posted to its parent. Then each group that became orphaned by this and has a stopped running member gets
    /// HUP and then CONT, in rising order of their numbers. Those that this ends are put on the list `ending` as `post` does, which
    /// holds slots below 32, and none twice. (_exit(2), setpgid(2))
    #[tactic(auto, unfolding(crate::specs::Endings::groups_orphaned_by))]
    pub fn bury(&mut self, slot: u8, how: How, ending: &mut EndingList)
        requires slot { slot < SLOTS }
        requires running { IsTrue (is_some (spec.running_at self.old slot)) }
        requires list { posts.IsEndingList ending.old.items }
        ensures posted { posts.table_and_list self.new ending.new.items ≡ endings.bury self.old slot how ending.old.items }
        ensures list { posts.IsEndingList ending.new.items }
    {
        let groups = self.groups_to_watch();
        self.end_at(slot, how);
        let groups = self.to_hang_up(groups.as_slice());
        self.hang_up_all(groups.as_slice(), ending);
    }

    /// Ends the running process of a slot as `bury` does, once its working directory has become the root: a zombie keeps no directory in
    /// use. The list `ending` holds slots below 32, and none twice. (_exit(2))
    pub fn bury_in_root(&mut self, slot: u8, how: How, ending: &mut EndingList)
        requires slot { slot < SLOTS }
        requires running { IsTrue (is_some (spec.running_at self.old slot)) }
        requires list { posts.IsEndingList ending.old.items }
        ensures posted { posts.table_and_list self.new ending.new.items ≡ endings.bury_in 0 self.old slot how ending.old.items }
        ensures list { posts.IsEndingList ending.new.items }
    {
        self.set_directory(slot, Node::ROOT);
        self.bury(slot, how, ending);
    }
}
