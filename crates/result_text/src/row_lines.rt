//! The lines of rows.

ghost use Rattle.std.specs.Prelude.{◌≡◌, ◌++◌, ◌<◌, ◌^◌, [], length, slice_index_or};
ghost use Rattle.csv.specs.Writing.{default_writer, field_text};
ghost use Rattle.dfx_value.specs.Print.{printed};
ghost use Rattle.dfx_value.specs.Rows.{cell};
ghost use Rattle.result_text.specs.AnswerText.{row_line, row_lines};
ghost use Rattle.result_text.specs.Buffers.{Appends};

use crate::fields::{end_line, push_cell, push_separator};
use column_batch::Batch;
use dfx_value::{NoMemory, Row};
use std::alloc::Global;
use std::marker::Model;
use value_columns::{Cell, look};

/// The text of rows, which contracts see as its bytes. Its buffers are kept between batches.
#[derive(Drop)]
pub struct RowLines {
    text: Vec<u8>,
    scratch: String,
}

impl Model for RowLines {
    ghost use Rattle.std.specs.Prelude.{List, ℕ};

    ghost Value = { List ℕ };

    ghost view = { λ t. t.text.items };
}

impl RowLines {
    /// No line yet.
    pub fn new(alloc: Global) -> RowLines
        ensures { result ≡ [] }
    {
        RowLines {
            text: Vec::new(alloc),
            scratch: String::new(alloc),
        }
    }

    /// Takes all lines away.
    pub fn clear(&mut self)
        ensures { self.new ≡ [] }
    {
        self.text.clear();
    }

    /// The bytes of the lines.
    pub fn as_slice(&self) -> &[u8]
        ensures { result.now ≡ self.now }
    {
        self.text.as_slice()
    }

    /// Appends the line of a row.
    #[tactic(auto, using(crate::proofs::LineSteps::line_steps))]
    pub fn push_row(&mut self, row: &Row) -> Result<(), NoMemory>
        ensures { Appends result self.old (row_line row.now) self.new }
    {
        let start = self.text.len();
        for (place, cell) in row.cells.iter().enumerate() {
            push_separator(&mut self.text, place)?;
            push_cell(&mut self.text, &mut self.scratch, look(cell))?;
        }
        end_line(&mut self.text, start)
    }

    /// Appends the text of a batch's cell as a field.
    #[inline]
    #[tactic(auto, using(dfx_value::proofs::FrontLemmas::starts))]
    fn push_cell_at(&mut self, batch: &Batch, at: u32, column: u32) -> Result<(), NoMemory>
        requires row { at < length batch.now.rows }
        requires column { column < length batch.now.kinds }
        ensures { Appends result self.old (field_text default_writer
            (printed (cell (slice_index_or batch.now.rows at []) column))) self.new }
    {
        match batch.cell(at, column) {
            Cell::Dec(number) => push_cell(&mut self.text, &mut self.scratch, Cell::Dec(number)),
            cell => push_cell(&mut self.text, &mut self.scratch, cell),
        }
    }

    /// Appends the line of the row of a batch at a place.
    #[tactic(auto, using(crate::proofs::LineSteps::line_steps))]
    fn push_row_at(&mut self, batch: &Batch, at: u32, width: u32) -> Result<(), NoMemory>
        requires row { at < length batch.now.rows }
        requires width { width ≡ length batch.now.kinds }
        ensures { Appends result self.old
            (row_line (slice_index_or batch.now.rows at [])) self.new }
    {
        let _ = batch.rows();
        let start = self.text.len();
        for column in 0..width {
            push_separator(&mut self.text, column as usize)?;
            self.push_cell_at(batch, at, column)?;
        }
        end_line(&mut self.text, start)
    }

    /// Appends the lines of a batch's rows.
    #[tactic(auto, using(crate::proofs::LineSteps::line_steps))]
    pub fn push_batch(&mut self, batch: &Batch) -> Result<(), NoMemory>
        ensures { Appends result self.old (row_lines batch.now.rows) self.new }
    {
        let Ok(width) = u32::try_from(batch.width()) else {
            return Err(NoMemory);
        };
        for at in 0..batch.rows() {
            self.push_row_at(batch, at, width)?;
        }
        Ok(())
    }
}
