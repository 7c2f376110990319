//! The system at boot.
ghost use Rattle.std.specs.Prelude.{◌≡◌, IfOk};
ghost use Rattle.user_db.specs.Boot.{IsBoot};
ghost use Rattle.system_model.specs.State.{boot};
ghost use Rattle.system_model.specs.Tables.{view_of};
ghost use Rattle.system_laws.specs.Stands.{Stands};
ghost use Rattle.kern_core.specs.Bounds.{IsAfter};

use crate::system::System;
use block_pool::Pool;
use fd_table::FdTable;
use pipe_core::Pipes;
use proc_table::{EndingList, ProcTable};
use std::alloc::Global;
use sys_types::POOL_BLOCKS;
use tty_dev::table::lines_at_boot;
use user_db::Boot;
use vnode_tree::{NoMemory, Tree};

impl System {
    /// The system as it stands at boot: the tree that the boot makes, pid 1 in slot 0, and nothing open. All memory is taken here but that of
    /// what files hold; `NoMemory`, where it runs out, is the only error.
    ///
    /// The boot is one that some boot text gives.
    pub(crate) fn boot(alloc: Global, says: &Boot) -> Result<Self, NoMemory>
        requires { IsBoot says.now }
        ensures stands { IfOk result (λ system. Stands (view_of system) 0 (boot says.now)) }
        ensures after { IfOk result (λ system. IsAfter 0 system) }
    {
        let tree = Tree::new(alloc, says)?;
        let fds = FdTable::new(alloc)?;
        let procs = ProcTable::new(alloc)?;
        let pool = Pool::new(alloc, POOL_BLOCKS)?;
        Ok(System {
            tree,
            fds,
            pipes: Pipes::new(),
            procs,
            pool,
            lines: lines_at_boot(),
            ending: EndingList::new(),
            recheck: says.recheck,
            halted: false,
        })
    }
}
