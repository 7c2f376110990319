//! The nodes that a boot makes.
ghost use Rattle.std.specs.Prelude.{◌≡◌, ℕ, ◌+◌, ◌*◌, ◌<◌, ◌≤◌, Bool, List, [], ◌∷◌, ◌++◌, length, map, Some, None, IsTrue, IfOk, OnOk, codes, if◌then◌else◌};
ghost use Rattle.label_core.specs.declared.element.Element.{Element};
ghost use Rattle.label_core.specs.declared.element.Element.TheVariants as element;
ghost use Rattle.acl_core.specs.Mode.{minimal_list};
ghost use Rattle.sys_types.specs.declared.node.Kind.TheVariants as kind;
ghost use Rattle.sys_types.specs.Images.{images};
ghost use Rattle.user_db.specs.Boot.{IsBoot};
ghost use Rattle.tree_model.specs.Tree.{is_dir, is_dir_record, nodes_from};
ghost use Rattle.tree_model.specs.Standard.{standard_tree};
ghost use Rattle.sys_types.specs.declared.limits.TheConstants.{NODES, FILE_SPACE};
ghost use Rattle.vnode_tree.specs.Nodes.{NodeAt, IsLive, node_at, path_of, record_of, tree_of, new_node, is_name, count_of};
ghost use Rattle.vnode_tree.specs.Contents.{space_of};
ghost use Rattle.vnode_tree.specs.Standard.{IsMapOf, Keeps, AreAtPaths, can_add, mode_755, attrs_of_owner, super_node, root_node, standard_dirs, image_text};
ghost use Rattle.vnode_tree.specs.Standard.{image_node, list_nodes, line_node, tty_node, line_name, tty_line, ttys_text, standard, bin_node, etc_node};
ghost use Rattle.vnode_tree.specs.Standard.{home_dir_node, dev_node, with_images, with_lines};

use crate::NoMemory;
use crate::contents::Contents;
use crate::entry::{Entry, Name255};
use crate::places::Places;
use crate::tree::{Tree, TreeFull};
use access_rule::Attrs;
use acl_core::Acl;
use label_core::Element;
use std::alloc::Global;
use sys_types::{Image, InPlace, Kind, LINES, Node};
use user_db::Boot;

/// The superuser, and the superuser's group.
const SUPER: u32 = 0;

/// Attributes by an owner, a group, a mode of at most 777 in octal, and an element.
fn attrs_of_owner(uid: u32, gid: u32, kind: Kind, mode: u16, element: Element) -> Attrs
    requires { mode < 512 }
    ensures attrs { result ≡ attrs_of_owner uid gid kind mode element }
{
    Attrs {
        element,
        owner: uid,
        group: gid,
        list: Acl::minimal(mode),
        is_dir: matches!(kind, Kind::Dir),
    }
}

/// What the file of a program holds.
fn image_text(alloc: Global, image: Image) -> Result<Contents, NoMemory>
    ensures { IfOk result (λ text. text ≡ image_text image) }
{
    let name = image.name().as_bytes();
    Contents::empty(alloc)
        .with(b"image ")?
        .with(name)?
        .with(b"\n")
}

/// The name of a terminal line: `tty` and its number, below ten.
pub(crate) fn line_name(number: u8) -> [u8; 4]
    requires { number < 10 }
    ensures { result ≡ line_name number }
{
    [b't', b't', b'y', b'0' + number]
}

/// A line of text for each terminal line that tells whether it is on.
fn ttys_text(alloc: Global, on: &[bool; LINES]) -> Result<Contents, NoMemory>
    ensures text { IfOk result (λ text. text ≡ ttys_text on.now) }
    ensures most { IfOk result (λ text. length text ≤ 80) }
{
    let mut text = Contents::empty(alloc);
    for number in 0..LINES as u8 {
        text = tty_line(text, number, on[usize::from(number)])?;
    }
    Ok(text)
}

/// How a line of text ends that tells whether a terminal line is on.
fn on_or_off(on: bool) -> &'static [u8]
    ensures text { result.now ≡ (if on then codes " on\n" else codes " off\n") }
    ensures most { length result.now ≤ 5 }
{
    if on { b" on\n" } else { b" off\n" }
}

/// The text with a line more.
fn tty_line(text: Contents, number: u8, on: bool) -> Result<Contents, NoMemory>
    requires { number < 10 }
    ensures line { IfOk result (λ longer. longer ≡ text ++ tty_line number on) }
    ensures most { IfOk result (λ longer. length longer ≤ length text + 10) }
{
    let digit = [b'0' + number];
    let with_word = text.with(b"tty ")?;
    let with_digit = with_word.with(&digit)?;
    let longer = with_digit.with(on_or_off(on))?;
    Ok(longer)
}

/// The directories that a boot puts nodes into.
#[derive(Clone, Copy)]
struct Dirs {
    bin: Node,
    etc: Node,
    home: Node,
    dev: Node,
}

impl Tree {
    /// A tree of a root alone.
    fn of_root(alloc: Global) -> Result<Tree, NoMemory>
        ensures map { IfOk result (λ tree. IsMapOf tree (root_node ∷ [])) }
        ensures at { IfOk result (λ tree. node_at tree 0 ≡ Some root_node) }
    {
        let root = Entry {
            dir: 0,
            name: InPlace::empty(),
            kind: Kind::Dir,
            attrs: attrs_of_owner(SUPER, SUPER, Kind::Dir, 0o755, Element::Low),
            default: None,
            contents: Contents::empty(alloc),
        };
        let mut entries = Places::all_free(alloc)?;
        entries.put(0, root);
        Ok(Tree { entries })
    }

    /// Adds a node that there is room for.
    #[tactic(auto, using(crate::proofs::Maps::can_add_dir, crate::proofs::Maps::can_add_absent, crate::proofs::Maps::can_add_named, crate::proofs::Maps::can_add_short, crate::proofs::Maps::can_add_few, crate::proofs::Maps::can_add_room))]
    fn add(&mut self, dir: Node, name: &[u8], kind: Kind, attrs: Attrs, contents: Contents) -> Node
        requires room { IsTrue (can_add self.old dir name.now (length contents)) }
        requires kind { attrs.is_dir ≡ is_dir kind }
        ensures at { node_at self.new result ≡ Some (record { path = path_of self.old dir ++ name.now ∷ []; node = new_node kind attrs None contents }) }
        ensures grows { (nodes : List NodeAt) → IsMapOf self.old nodes
            → IsMapOf self.new (nodes ++ record { path = path_of self.old dir ++ name.now ∷ []; node = new_node kind attrs None contents } ∷ []) }
        ensures keeps { Keeps self.old self.new }
    {
        match Name255::from_slice(name) {
            Some(name) => match self.make(dir, &name, kind, attrs, None, contents) {
                Ok(node) => node,
                Err(TreeFull) => unreachable!(),
            },
            None => unreachable!(),
        }
    }

    /// Adds a node of the superuser.
    fn add_super(
        &mut self,
        dir: Node,
        name: &[u8],
        kind: Kind,
        mode: u16,
        element: Element,
        contents: Contents,
    ) -> Node
        requires room { IsTrue (can_add self.old dir name.now (length contents)) }
        requires mode { mode < 512 }
        ensures at { (parent : NodeAt) → node_at self.old dir ≡ Some parent
            → node_at self.new result ≡ Some (super_node (parent.path ++ name.now ∷ []) kind mode element contents) }
        ensures grows { (parent : NodeAt) (nodes : List NodeAt) → node_at self.old dir ≡ Some parent → IsMapOf self.old nodes
            → IsMapOf self.new (nodes ++ super_node (parent.path ++ name.now ∷ []) kind mode element contents ∷ []) }
        ensures keeps { Keeps self.old self.new }
    {
        let attrs = attrs_of_owner(SUPER, SUPER, kind, mode, element);
        self.add(dir, name, kind, attrs, contents)
    }

    /// Adds a directory to the root.
    fn add_dir(&mut self, alloc: Global, name: &[u8], mode: u16, element: Element) -> Node
        requires root { node_at self.old 0 ≡ Some root_node }
        requires room { IsTrue (can_add self.old 0 name.now 0) }
        requires mode { mode < 512 }
        ensures at { node_at self.new result ≡ Some (super_node (name.now ∷ []) kind.Dir mode element []) }
        ensures grows { (nodes : List NodeAt) → IsMapOf self.old nodes → IsMapOf self.new (nodes ++ super_node (name.now ∷ []) kind.Dir mode element [] ∷ []) }
        ensures keeps { Keeps self.old self.new }
    {
        self.add_super(
            Node::ROOT,
            name,
            Kind::Dir,
            mode,
            element,
            Contents::empty(alloc),
        )
    }

    /// Adds the directories to a root alone.
    fn add_dirs(&mut self, alloc: Global) -> Dirs
        requires root { node_at self.old 0 ≡ Some root_node }
        requires map { IsMapOf self.old (root_node ∷ []) }
        ensures map { IsMapOf self.new standard_dirs }
        ensures bin { node_at self.new result.bin ≡ Some bin_node }
        ensures etc { node_at self.new result.etc ≡ Some etc_node }
        ensures home { node_at self.new result.home ≡ Some home_dir_node }
        ensures dev { node_at self.new result.dev ≡ Some dev_node }
        ensures keeps { Keeps self.old self.new }
    {
        let bin = self.add_dir(alloc, b"bin", 0o755, Element::Low);
        let etc = self.add_dir(alloc, b"etc", 0o755, Element::Low);
        let home = self.add_dir(alloc, b"home", 0o755, Element::Low);
        let dev = self.add_dir(alloc, b"dev", 0o755, Element::Equal);
        self.add_dir(alloc, b"tmp", 0o777, Element::Equal);
        Dirs {
            bin,
            etc,
            home,
            dev,
        }
    }

    /// Adds the file of each program to `/bin`.
    fn add_images(&mut self, alloc: Global, bin: Node) -> Result<(), NoMemory>
        requires bin { node_at self.old bin ≡ Some bin_node }
        requires map { IsMapOf self.old standard_dirs }
        ensures map { OnOk result (IsMapOf self.new with_images) }
        ensures keeps { OnOk result (Keeps self.old self.new) }
    {
        let images = Image::all();
        for image in &images {
            let contents = image_text(alloc, *image)?;
            let name = image.name().as_bytes();
            self.add_super(bin, name, Kind::File, 0o755, Element::Low, contents);
        }
        Ok(())
    }

    /// Adds the terminal lines to `/dev`, and the caller's own line.
    fn add_lines(&mut self, alloc: Global, dev: Node)
        requires dev { node_at self.old dev ≡ Some dev_node }
        requires map { IsMapOf self.old with_images }
        ensures map { IsMapOf self.new with_lines }
        ensures keeps { Keeps self.old self.new }
    {
        for number in 0..LINES as u8 {
            let contents = Contents::empty(alloc);
            let kind = Kind::Line(number);
            let name = line_name(number);
            self.add_super(dev, &name, kind, 0o600, Element::Equal, contents);
        }
        let contents = Contents::empty(alloc);
        self.add_super(dev, b"tty", Kind::Tty, 0o666, Element::Equal, contents);
    }

    /// Adds the files of users and of lines to `/etc`.
    fn add_lists(&mut self, alloc: Global, etc: Node, on: &[bool; LINES]) -> Result<(), NoMemory>
        requires etc { node_at self.old etc ≡ Some etc_node }
        requires map { IsMapOf self.old with_lines }
        ensures map { OnOk result (IsMapOf self.new (with_lines ++ list_nodes on.now)) }
        ensures keeps { OnOk result (Keeps self.old self.new) }
    {
        let ttys = ttys_text(alloc, on)?;
        let users = Contents::empty(alloc);
        self.add_super(etc, b"users", Kind::File, 0o600, Element::Low, users);
        self.add_super(etc, b"ttys", Kind::File, 0o644, Element::Low, ttys);
        Ok(())
    }

    /// The tree of a boot: its directories, the file of each program in `/bin`, the files of users and of lines in
    /// `/etc`, and the terminal lines in `/dev`.
    ///
    /// The boot is one that some boot text gives. The table of nodes is made with room for all of them.
    pub fn new(alloc: Global, boot: &Boot) -> Result<Tree, NoMemory>
        requires { IsBoot boot.now }
        ensures map { IfOk result (λ tree. IsMapOf tree (standard boot.now)) }
        ensures nodes { IfOk result (λ tree. nodes_from tree ≡ standard_tree boot.now) }
        ensures root { IfOk result (λ tree. node_at tree 0 ≡ Some root_node) }
        ensures places { IfOk result AreAtPaths }
    {
        let mut tree = Tree::of_root(alloc)?;
        let dirs = tree.add_dirs(alloc);
        tree.add_images(alloc, dirs.bin)?;
        tree.add_lines(alloc, dirs.dev);
        tree.add_lists(alloc, dirs.etc, &boot.on)?;
        let _ = &tree.entries;
        Ok(tree)
    }
}
