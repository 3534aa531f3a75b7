//! Tasks, and the stations of their trees, as a plan has them.

use dfx_value::Kind;
use scalar_exprs::Expr;
use sqlite_items::Items;

/// A file of a scan.
#[derive(Clone, Copy, Debug, PartialEq, Eq)]
pub struct ScanFile {
    /// Which of its table's files it is.
    pub number: u32,
    /// Which of the plan's sources it is.
    pub source: u32,
}

/// What an operator does.
#[derive(Drop)]
pub enum Node {
    /// Keeps the rows for which a test is true.
    Filter(Expr),
    /// Gives the values of expressions over each row.
    Project(Items<Expr>),
}

/// An operator of a task.
#[derive(Drop)]
pub struct OperatorPlan {
    pub node: Node,
    /// The kinds of its input's columns.
    pub kinds: Items<Kind>,
    /// The consumer that reserves for it, where it has one, counted from the first of its task.
    pub consumer: Option<u32>,
    /// How many of the stations behind it are those of each input, in order.
    pub sizes: Items<usize>,
}

/// A node of a task's tree.
#[derive(Drop)]
pub enum StationPlan {
    /// Files of a table, read one after the other.
    Scan(u32, Items<ScanFile>),
    /// A channel: its group, and which of its channels it is.
    Inlet(u32, u32),
    /// An operator. The stations of its inputs follow it.
    Operator(OperatorPlan),
}

/// Where the batches of a task go.
#[derive(Drop)]
pub enum Sending {
    /// They are written.
    Written,
    /// Each row to the channel at the hash of columns, of so many channels.
    ByHash(Items<u32>, u32),
    /// Each batch to the next channel in turn, from this one on, of so many channels.
    InTurn(u32, u32),
    /// All to one channel.
    One(u32),
}

/// A task before it runs.
#[derive(Drop)]
pub struct TaskPlan {
    /// Node before inputs.
    pub stations: Items<StationPlan>,
    /// The first of its consumers.
    pub consumer: u32,
    pub sending: Sending,
}
