//! Examples over the libraries `managed_heap` and `shared_heap`, each in a file or a folder of its own, and each with a
//! line that it writes.
#![tactic(auto)]

mod counting;
mod hash_table;
mod lists;
mod locking;
mod sending;
mod stepping;
mod trying;
mod worlds;

use std::io;

fn main(rt: HostRuntime) -> io::Result<()> {
    hash_table::tell(&rt)?;
    lists::tell(&rt)?;
    sending::tell(&rt)?;
    trying::tell(&rt)?;
    stepping::tell(&rt)?;
    counting::tell(&rt)?;
    locking::tell(&rt)
}
