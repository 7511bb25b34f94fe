//! What a command is done with.
use std::alloc::Global;
use tp_manager::Manager;
use tp_script::Head;

/// The allocator of a command's line, the head of its script, and the manager.
#[derive(Clone, Copy)]
pub struct Means<'h, 'm> {
    /// Gives memory for the line.
    pub alloc: Global,
    /// Names the servers.
    pub head: &'h Head,
    /// Has the elements.
    pub manager: &'m Manager,
}
