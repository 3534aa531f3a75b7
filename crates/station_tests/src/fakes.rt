//! An operator, a file, a splitter and a sink that tell nothing.

ghost use Rattle.std.specs.Prelude.{None};

use column_batch::Batch;
use dfx_outside::OutsideRefused;
use dfx_value::NoMemory;
use std::alloc::Global;
use task_stations::{Given, Next, Operator, OperatorRefused, Part, RowFile, RowSink, Splitter};

/// Passes on what it takes, and asks to reserve so many bytes for each batch.
#[derive(Drop)]
pub struct Passing {
    pub bytes: u64,
    pub batch: Option<Batch>,
    pub ended: bool,
}

impl Operator for Passing {
    ghost stands = { λ _ _ _ _. ⊥ };

    ghost faults = { λ _. 0 };

    fn wanted(&self) -> u32 {
        0
    }

    fn is_complete(&self) -> bool {
        self.ended
    }

    fn amount(&mut self, _alloc: Global, _batch: &Batch) -> Result<u64, OperatorRefused> {
        Ok(self.bytes)
    }

    fn accept(&mut self, _alloc: Global, _input: u32, batch: Batch) -> Result<(), OperatorRefused> {
        self.batch = Some(batch);
        Ok(())
    }

    fn end(&mut self, _alloc: Global, _input: u32) -> Result<(), OperatorRefused> {
        self.ended = true;
        Ok(())
    }

    fn flush(&mut self, _alloc: Global) -> Result<(), OperatorRefused> {
        Ok(())
    }

    fn give(&mut self, _alloc: Global, _most: u32) -> Result<Given, OperatorRefused> {
        Ok(match self.batch.take() {
            Some(batch) => Given::Rows(batch),
            None => Given::Nothing,
        })
    }
}

/// A file of batches, of which the last comes first.
#[derive(Drop)]
pub struct Batches {
    pub source: u32,
    pub left: Vec<Batch>,
}

impl RowFile for Batches {
    ghost source = { λ f. f.source };

    ghost left = { λ _. None };

    ghost faults = { λ _. 0 };

    fn number(&self) -> u32 {
        self.source
    }

    fn next(&mut self, alloc: Global, _most: u32) -> Result<Next, OutsideRefused> {
        Ok(match self.left.pop() {
            Some(batch) => Next::Rows(batch),
            None => Next::Rows(Batch::of_columns(Vec::new(alloc), 0)),
        })
    }
}

/// Sends each batch to one channel.
#[derive(Drop)]
pub struct ToOne {
    pub channel: u32,
}

impl Splitter for ToOne {
    ghost cuts = { λ _ _ _. ⊥ };

    fn cut(&mut self, alloc: Global, batch: Batch) -> Result<Vec<Part>, NoMemory> {
        let mut parts = Vec::new(alloc);
        parts.push(Part {
            channel: self.channel,
            batch,
        })?;
        Ok(parts)
    }
}

/// Counts what is written.
#[derive(Drop)]
pub struct Counted {
    pub headers: u64,
    pub rows: u64,
}

impl RowSink for Counted {
    ghost lines = { λ _. None };

    ghost faults = { λ _. 0 };

    fn head(&mut self) -> Result<(), OutsideRefused> {
        self.headers = self.headers.saturating_add(1);
        Ok(())
    }

    fn write(&mut self, batch: &Batch) -> Result<(), OutsideRefused> {
        self.rows = self.rows.saturating_add(batch.rows() as u64);
        Ok(())
    }
}
