//! The figures of the limits, which the check proves. Each law is the contract of a function that does nothing.
ghost use Rattle.std.specs.Prelude.{◌≡◌};
ghost use Rattle.sys_types.specs.declared.limits.TheConstants.{SLOTS, LINES, RAW_LINE, DESCRIPTORS, OPEN_FILES, PIPES, NODES, FILE_SPACE, PATH_BYTES, PATH_TEXT_BYTES, NAME_BYTES, INPUT_PLACES, READY_LINE_BYTES, OUTPUT_BYTES, PIPE_BYTES, PIECE_BYTES, TEXT_BYTES, POOL_BLOCKS, LINE_BLOCKS, PIPE_BLOCKS, TRAIL_EVENTS, SCRIPT_LINE_BYTES};
ghost use Rattle.sys_types.specs.declared.image.TheConstants.{IMAGES};
ghost use Rattle.sys_types.specs.declared.sig.TheConstants.{SIGNALS};

/// Processes, lines, descriptors and open files.
pub fn limits_of_processes()
    ensures slots { SLOTS ≡ 32 }
    ensures lines { LINES ≡ 8 }
    ensures raw_line { RAW_LINE ≡ 7 }
    ensures descriptors { DESCRIPTORS ≡ 32 }
    ensures open_files { OPEN_FILES ≡ 256 }
    ensures pipes { PIPES ≡ 16 }
    ensures images { IMAGES ≡ 22 }
    ensures signals { SIGNALS ≡ 14 }
{}

/// The file tree: its nodes, its bytes, its paths and its names.
pub fn limits_of_files()
    ensures nodes { NODES ≡ 1024 }
    ensures space { FILE_SPACE ≡ 4194304 }
    ensures path { PATH_BYTES ≡ 1023 }
    ensures path_text { PATH_TEXT_BYTES ≡ 1024 }
    ensures name { NAME_BYTES ≡ 255 }
    ensures piece { PIECE_BYTES ≡ 512 }
    ensures text { TEXT_BYTES ≡ 4096 }
{}

/// The queues of lines and pipes, and the blocks that hold them.
pub fn limits_of_queues()
    ensures places { INPUT_PLACES ≡ 1024 }
    ensures ready_line { READY_LINE_BYTES ≡ 255 }
    ensures output { OUTPUT_BYTES ≡ 4096 }
    ensures pipe { PIPE_BYTES ≡ 4096 }
    ensures pool { POOL_BLOCKS ≡ 512 }
    ensures line_blocks { LINE_BLOCKS ≡ 40 }
    ensures pipe_blocks { PIPE_BLOCKS ≡ 32 }
{}

/// Runs and their lines.
pub fn limits_of_runs()
    ensures events { TRAIL_EVENTS ≡ 262144 }
    ensures script_line { SCRIPT_LINE_BYTES ≡ 4096 }
{}
