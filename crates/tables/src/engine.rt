//! Work on the parts of a table.

pub(crate) mod answering;
pub(crate) mod applying;
pub(crate) mod following;
pub(crate) mod frame;
pub(crate) mod labels;
pub(crate) mod making;
pub(crate) mod restricting;
pub(crate) mod rows;
pub(crate) mod running;
pub(crate) mod settling;
pub(crate) mod task;
