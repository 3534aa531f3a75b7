//! Chains, and what their Scans read.

ghost use Rattle.std.specs.Prelude.{◌≡◌, true, Some, IfOk, IsTrue, option_map};
ghost use Rattle.dfx_value.specs.Kinds as value;
ghost use Rattle.scan_run.specs.Chains as spec;
ghost use Rattle.scan_run.specs.Chains.{Scanned};

use dfx_value::{Kind, NoMemory};
use logical_plan::Logical;
use scalar_exprs::is_kind;
use std::alloc::Global;

/// The one Scan of a chain.
#[derive(Clone, Copy, Drop)]
pub struct ChainScan<'a> {
    /// The number of its table.
    pub table: u32,
    /// The kinds of the table's columns.
    pub kinds: &'a [Kind],
}

/// The one Scan below a body's Filters and Projects; none where the body has any other node.
#[tactic(auto, using(crate::proofs::ChainSteps::chains))]
pub fn chain_scan(body: &Logical) -> Option<ChainScan<'_>>
    ensures { option_map spec.viewed result ≡ spec.scanned body.now }
{
    match body {
        Logical::Scan { table, kinds } => Some(ChainScan {
            table: *table,
            kinds: kinds.as_slice(),
        }),
        Logical::Filter { input, test: _ } => chain_scan(input.get()),
        Logical::Project { input, items: _ } => chain_scan(input.get()),
        Logical::Join {
            kind: _,
            left: _,
            right: _,
            keys: _,
            rest: _,
        }
        | Logical::Aggregate {
            input: _,
            keys: _,
            calls: _,
        }
        | Logical::Distinct { input: _ }
        | Logical::UnionAll { inputs: _ } => None,
    }
}

/// Whether a body is Filters and Projects over one Scan.
pub fn is_chain(body: &Logical) -> bool
    ensures { result ≡ spec.is_chain body.now }
{
    match chain_scan(body) {
        Some(_) => true,
        None => false,
    }
}

fn are_kinds(kinds: &[Kind]) -> bool
    ensures { result ≡ value.are_kinds kinds.now }
{
    for kind in kinds {
        if !is_kind(*kind) {
            return false;
        }
    }
    true
}

/// Whether the kinds of a chain's Scan are kinds, and fewer than 2^32; true where the body is no chain.
pub fn has_sound_kinds(body: &Logical) -> bool
    ensures value { result ≡ spec.has_sound_kinds (spec.scanned body.now) }
    ensures sound { IsTrue result → spec.AreSound (spec.scanned body.now) }
{
    match chain_scan(body) {
        Some(scan) => (scan.kinds.len() as u64) < 1 << 32 && are_kinds(scan.kinds),
        None => true,
    }
}

/// The kinds of a chain's Scan.
pub(crate) fn scan_kinds(alloc: Global, body: &Logical) -> Result<Vec<Kind>, NoMemory>
    ensures { (scan : Scanned) → spec.scanned body.now ≡ Some scan
        → IfOk result (λ kinds. kinds.items ≡ scan.kinds) }
{
    match chain_scan(body) {
        Some(scan) => Ok(Vec::from_slice(alloc, scan.kinds)?),
        None => Ok(Vec::new(alloc)),
    }
}
