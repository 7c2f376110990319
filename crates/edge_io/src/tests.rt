//! What no contract says: what real sockets and threads do, and one use of each form in memory.

mod bells;
mod crews;
mod ports;
