//! Operations on two values: what one means, the operations that are supplied, and shortcuts by the left operand.

#![tactic(auto)]

pub mod cyclic_sum;
pub mod filling;
pub mod maximum;
pub mod minimum;
mod operand;
pub mod operation;
pub mod ruled;
pub mod table_operation;
pub mod truncated_sum;
pub mod turned;
