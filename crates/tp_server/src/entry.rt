//! What a server keeps between preparing and settling.

use tp_model::types::Element;

/// The element whose work is prepared, and a value for the register that its key names.
#[derive(Clone, Copy, Debug)]
pub(crate) struct Entry {
    pub(crate) element: Element,
    pub(crate) value: u64,
}
