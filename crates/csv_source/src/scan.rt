//! A CSV file as a scan: all its bytes are read at the first call, and its rows are given a batch at a time.

ghost use Rattle.std.specs.Prelude.{◌≡◌, ◌^◌, ◌+◌, ◌<◌, ◌≤◌, ◌∷◌, [], ℕ, List, true, false, length, Ok, Err, Some, IfOk, IfErr, IfSome, OnOk, OnErr, option_map};
ghost use Rattle.dfx_outside.specs.Causes.{Rose};
ghost use Rattle.dfx_value.specs.Kinds.{are_kinds, are_of};
ghost use Rattle.csv_source.specs.CsvItems.{Item, csv_items, is_bad};
ghost use Rattle.csv_source.specs.ScanView.{GivesRow, GivesRows, IsRefused, left_count};
ghost use Rattle.csv_source.specs.declared.refused.CsvRefused.{CsvRefused as Refusal};
ghost use Rattle.csv_source.specs.declared.refused.CsvRefused.TheVariants as refused;

use crate::progress::{Advanced, Progress, Stepped, advance, begin, step};
use crate::refused::CsvRefused;
use dfx_outside::Source;
use dfx_value::{Batch, Kind, Row};
use std::alloc::Global;
use std::io::Cursor;
use std::marker::Model;
use std::mem;

/// A scan of a CSV file whose columns have these kinds.
pub struct CsvScan<S: Source> {
    alloc: Global,
    source: S,
    kinds: Vec<Kind>,
    progress: Progress<Cursor<Vec<u8>>>,
}

impl<S: Source> Model for CsvScan<S> {
    ghost use Rattle.std.specs.Prelude.{◌≡◌, ◌^◌, ◌<◌, true, length, Some};
    ghost use Rattle.std.specs.Io.Cursor.{cursor_remaining};
    ghost use Rattle.csv_source.specs.ScanView.{ScanView};

    ghost Value = { ScanView S };

    ghost use Rattle.dfx_value.specs.Kinds.{are_kinds};
    ghost use Rattle.csv_source.specs.Progress.{left_of, is_refused, IsSound};

    ghost view = { λ s. record {
      source = s.source;
      kinds = s.kinds.items;
      left = left_of (cursor_remaining (λ v. Some v.items)) (S.told s.source)
          s.kinds.items s.progress;
      refused = is_refused s.progress;
    } };

    ghost invariant = { λ s. (are_kinds s.kinds.items ≡ true) × (length s.kinds.items < 2 ^ 32)
        × IsSound (cursor_remaining (λ v. Some v.items)) s.progress };
}

impl<S: Source> CsvScan<S> {
    /// A scan of a source whose columns have these kinds. Nothing is read yet. `Err` is want of memory, and hands
    /// the source back.
    pub fn new(alloc: Global, source: S, kinds: Vec<Kind>) -> Result<CsvScan<S>, S>
        requires kinds { are_kinds kinds.items ≡ true }
        requires few { length kinds.items < 2 ^ 32 }

        ensures source { IfOk result (λ scan. scan.source ≡ source) }
        ensures kinds { IfOk result (λ scan. scan.kinds ≡ kinds.items) }
        ensures left { IfOk result
            (λ scan. scan.left
            ≡ option_map (λ bytes. csv_items bytes kinds.items) (S.told source)) }
        ensures going { IfOk result (λ scan. scan.refused ≡ false) }
        ensures err { IfErr result (λ same. same ≡ source) }
    {
        Ok(CsvScan {
            alloc,
            source,
            kinds,
            progress: Progress::Unread,
        })
    }

    /// The next rows of the file, `rows` of them or all that are left: fewer mean that the file has ended. The
    /// first call reads the whole file. After a refusal only `into_source` may be called.
    pub fn next(&mut self, rows: u32) -> Result<Batch, CsvRefused>
        requires some { 0 < rows }
        requires going { self.old.refused ≡ false }

        ensures kinds { IfOk result (λ batch. batch.kinds ≡ self.old.kinds) }
        ensures gives { (items : List Item) → self.old.left ≡ Some items
            → IfOk result (λ batch. GivesRows rows items batch.rows self.new.left) }
        ensures falls { IfOk result
            (λ batch. length batch.rows + left_count self.new.left ≤ left_count self.old.left) }
        ensures going { OnOk result (self.new.refused ≡ false) }
        ensures ended { OnErr result (self.new.refused ≡ true) }

        // The file's refusal comes exactly where it is among the next items; the source's only where its count rose.
        ensures refused { (items : List Item) (e : Refusal) → self.old.left ≡ Some items
            → result ≡ Err e → is_bad e ≡ true → IsRefused rows items e }
        ensures read { result ≡ Err refused.Read
            → Rose (S.faults self.old.source) (S.faults self.new.source) }

        ensures same { (S.told self.new.source ≡ S.told self.old.source)
            × (self.new.kinds ≡ self.old.kinds) }
        ensures later { S.faults self.old.source ≤ S.faults self.new.source }
    {
        let progress = match mem::replace(&mut self.progress, Progress::Refused) {
            Progress::Unread => begin(self.alloc, &mut self.source, &self.kinds)?,
            begun => begun,
        };
        let Advanced { batch, progress } = advance(self.alloc, &self.kinds, progress, rows)?;
        self.progress = progress;
        Ok(batch)
    }

    /// The next row of the file, or none where it has ended. The first call reads the whole file. After a refusal only
    /// `into_source` may be called.
    #[tactic(auto, using(crate::proofs::LeftSteps::scan_steps))]
    pub fn next_row(&mut self) -> Result<Option<Row>, CsvRefused>
        requires going { self.old.refused ≡ false }

        ensures fits { IfOk result (λ o. IfSome o (λ row. are_of self.old.kinds row ≡ true)) }
        ensures gives { (items : List Item) → self.old.left ≡ Some items
            → IfOk result (λ row. GivesRow (Some items) row self.new.left) }
        ensures falls { IfOk result
            (λ o. IfSome o (λ row. left_count self.new.left < left_count self.old.left)) }
        ensures going { OnOk result (self.new.refused ≡ false) }
        ensures ended { OnErr result (self.new.refused ≡ true) }

        // The file's refusal comes exactly where it is the next item; the source's only where its count rose.
        ensures refused { (items : List Item) (e : Refusal) → self.old.left ≡ Some items
            → result ≡ Err e → is_bad e ≡ true → items ≡ Err e ∷ [] }
        ensures read { result ≡ Err refused.Read
            → Rose (S.faults self.old.source) (S.faults self.new.source) }

        ensures same { (S.told self.new.source ≡ S.told self.old.source)
            × (self.new.kinds ≡ self.old.kinds) }
        ensures later { S.faults self.old.source ≤ S.faults self.new.source }
    {
        let progress = match mem::replace(&mut self.progress, Progress::Refused) {
            Progress::Unread => begin(self.alloc, &mut self.source, &self.kinds)?,
            begun => begun,
        };
        let Stepped { row, progress } = step(self.alloc, &self.kinds, progress)?;
        self.progress = progress;
        Ok(row)
    }

    /// The source.
    pub fn into_source(self) -> S
        ensures { result ≡ self.source }
    {
        let CsvScan {
            alloc: _,
            source,
            kinds: _,
            progress: _,
        } = self;
        source
    }
}
