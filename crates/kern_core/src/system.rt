//! The system: all tables, which fit together.
use block_pool::Pool;
use fd_table::FdTable;
use pipe_core::Pipes;
use proc_table::{EndingList, ProcTable};
use std::marker::Model;
use sys_types::LINES;
use tty_dev::Line;
use vnode_tree::Tree;

/// The system. In contracts it is its tables.
#[derive(Drop)]
pub(crate) struct System {
    pub(crate) tree: Tree,
    pub(crate) fds: FdTable,
    pub(crate) pipes: Pipes,
    pub(crate) procs: ProcTable,
    pub(crate) pool: Pool,
    pub(crate) lines: [Line; LINES],
    pub(crate) ending: EndingList,
    /// Whether labels are looked at again at each read and write.
    pub(crate) recheck: bool,
    pub(crate) halted: bool,
}

impl Model for System {
    ghost use Rattle.proc_table.specs.Posts.{IsEndingList};
    ghost use Rattle.system_model.specs.Tables.{Tables};
    ghost use Rattle.system_model.specs.Fit.{Fit};

    ghost Value = { Tables };

    ghost view = { λ k. record {
      nodes = k.tree;
      descriptors = k.fds;
      pipes = k.pipes;
      processes = k.procs;
      pool = k.pool;
      lines = k.lines;
      ending = k.ending.items;
      recheck = k.recheck;
      halted = k.halted;
    } };

    ghost invariant = { λ k. Fit (record {
      nodes = k.tree;
      descriptors = k.fds;
      pipes = k.pipes;
      processes = k.procs;
      pool = k.pool;
      lines = k.lines;
      ending = k.ending.items;
      recheck = k.recheck;
      halted = k.halted;
    }) × IsEndingList k.ending.items };
}
