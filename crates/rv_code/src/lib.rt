//! Instructions of RV64IMC, their effect on a machine, and types that are shared by the other crates.
#![tactic(auto)]

pub mod action;
pub mod cause;
pub mod cell;
pub mod field;
pub mod flow;
pub mod functions;
pub mod inst;
pub mod layout;
pub mod op;
pub mod opcode;
pub mod placed;
mod register;
mod value;
pub mod worst_sizes;

pub use action::{Action, Extension, Operand, Test};
pub use cause::Cause;
pub use cell::{CellKind, CodeCell};
pub use inst::Inst;
pub use layout::{Chains, Emitted, Form, Plan, Size};
pub use op::Op;
pub use placed::{Block, Func, InstPlace, Placed, Role, Width};
pub use register::{RETURN_ADDRESS, STACK_POINTER, ZERO};
pub use value::{op_value, taken};
pub use worst_sizes::worst_size_of_block;
