//! The stations of a task: a step of them is one poll of the tree that they stand for, and an advance of the task settles it.
#![tactic(auto)]

mod needs;
mod operator;
mod scan;
mod seat;
mod slots;
mod station;
mod steps;
mod task;

pub use needs::{Answer, Need, Step, StepRefused};
pub use operator::{Given, Operator, OperatorRefused};
pub use scan::{Next, RowFile, Scan, cause_of};
pub use seat::Seat;
pub use station::{Inlet, Station};
pub use steps::{reply, step};
pub use task::{Ask, Exit, Part, RowSink, Splitter, Task, advance, refuse, reply_need, turn};
