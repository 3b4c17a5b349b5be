//! Points: the statements of each callback by number, each with its successors.
#![tactic(auto)]

mod graph;
mod instruction;
mod lowering;
mod points;
mod turns;

pub use flt_rules::{Call, LockKind, LockNumber, Operation, Place};
pub use flt_tree::{
    Action, ContextVariable, NumberVariable, OperationVariable, RemovedVariable, Status, Test, Tree,
};
pub use graph::{CallbackGraph, Graph, Point};
pub use instruction::{Instruction, Invocation, ResolvedCall};
pub use lowering::lower;
pub use points::{
    callbacks_have_graphs, edges_lead_onwards, filters_have_graphs, instructions_are_served,
    lists_have_points, one_graph_at_most,
};
pub use turns::{Turn, lists_have_turns};
