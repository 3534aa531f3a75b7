//! A CSV file as a scan: its bytes are read as its rows are asked for, a batch of columns at a time.

ghost use Rattle.std.specs.Prelude.{◌≡◌, ◌^◌, ◌+◌, ◌<◌, ◌≤◌, ℕ, List, true, false, length, Ok, Err, Some, None, IfOk, IfErr, IfSome, OnOk, OnErr, ◌∷◌, [], option_map};
ghost use Rattle.dfx_outside.specs.Causes.{Rose};
ghost use Rattle.dfx_value.specs.Kinds.{are_kinds};
ghost use Rattle.csv_source.specs.CsvItems.{Item, csv_items, is_bad};
ghost use Rattle.csv_source.specs.ScanView.{GivesRows, IsRefused};
ghost use Rattle.csv_columns.specs.ScanView.{GivesFront, is_some};
ghost use Rattle.csv_source.specs.declared.refused.CsvRefused.{CsvRefused as Refusal};
ghost use Rattle.csv_source.specs.declared.refused.CsvRefused.TheVariants as refused;

use crate::progress::{Advanced, Progress, advance, begin};
use crate::reading::Stopped;
use column_batch::Batch;
use csv_source::CsvRefused;
use dfx_outside::Source;
use dfx_value::Kind;
use std::alloc::Global;
use std::marker::Model;
use std::mem;

/// Rows of a file, and the refusal of the record behind them, if it is refused.
#[derive(Drop)]
pub struct Front {
    pub batch: Batch,
    pub refused: Option<CsvRefused>,
}

/// The rows, or the refusal behind them.
fn whole(front: Front) -> Result<Batch, CsvRefused>
    ensures ok { IfOk result (λ batch. (batch ≡ front.batch) × (front.refused ≡ None)) }
    ensures err { IfErr result (λ e. front.refused ≡ Some e) }
{
    let Front { batch, refused } = front;
    match refused {
        None => Ok(batch),
        Some(refused) => Err(refused),
    }
}

/// A scan of a CSV file whose columns have these kinds.
pub struct CsvScan<S: Source> {
    alloc: Global,
    source: S,
    kinds: Vec<Kind>,
    progress: Progress,
}

impl<S: Source> Model for CsvScan<S> {
    ghost use Rattle.std.specs.Prelude.{◌≡◌, ◌^◌, ◌<◌, true, length};
    ghost use Rattle.csv_columns.specs.ScanView.{ScanView};

    ghost Value = { ScanView S };

    ghost use Rattle.dfx_value.specs.Kinds.{are_kinds};
    ghost use Rattle.csv_columns.specs.Progress.{left_of, most_of, is_refused, IsSound};

    ghost view = { λ s. record {
      source = s.source;
      kinds = s.kinds.items;
      left = left_of (S.told s.source) s.kinds.items s.progress;
      most = most_of (S.size s.source) s.progress;
      refused = is_refused s.progress;
    } };

    ghost invariant = { λ s. (are_kinds s.kinds.items ≡ true) × (length s.kinds.items < 2 ^ 32)
        × IsSound (S.size s.source) s.progress };
}

impl<S: Source> CsvScan<S> {
    /// A scan of a source whose columns have these kinds. Nothing is read yet. `Err` is want of memory, and hands
    /// the source back.
    pub fn new(alloc: Global, source: S, kinds: Vec<Kind>) -> Result<CsvScan<S>, S>
        requires kinds { are_kinds kinds.items ≡ true }
        requires few { length kinds.items < 2 ^ 32 }

        ensures source { IfOk result (λ scan. scan.source ≡ source) }
        ensures kinds { IfOk result (λ scan. scan.kinds ≡ kinds.items) }
        ensures left { IfOk result (λ scan. scan.left
            ≡ option_map (λ bytes. csv_items bytes kinds.items) (S.told source)) }
        ensures most { IfOk result (λ scan. scan.most ≡ S.size source) }
        ensures going { IfOk result (λ scan. scan.refused ≡ false) }
        ensures err { IfErr result (λ same. same ≡ source) }
    {
        Ok(CsvScan {
            alloc,
            source,
            kinds,
            progress: Progress::Unread,
        })
    }

    /// The next rows of the file, `rows` of them or all that are left: fewer mean that the file has ended. Where a
    /// record among them is refused, the rows in front of it, and why. After a refusal only `into_source` may be called.
    pub fn next_front(&mut self, rows: u32) -> Result<Front, CsvRefused>
        requires some { 0 < rows }
        requires going { self.old.refused ≡ false }

        ensures kinds { IfOk result (λ front. front.batch.kinds ≡ self.old.kinds) }
        ensures gives { (items : List Item) → self.old.left ≡ Some items
            → IfOk result (λ front. GivesFront rows items
            front.batch.rows front.refused self.new.left) }
        ensures bad { IfOk result (λ front. IfSome front.refused (λ e. is_bad e ≡ true)) }
        ensures falls { IfOk result (λ front. length front.batch.rows + self.new.most
            ≤ self.old.most) }
        ensures ends { IfOk result (λ front. self.new.refused ≡ is_some front.refused) }
        ensures ended { OnErr result (self.new.refused ≡ true) }

        // A file whose header is refused has no other item.
        ensures refused { (items : List Item) (e : Refusal) → self.old.left ≡ Some items
            → result ≡ Err e → is_bad e ≡ true → items ≡ Err e ∷ [] }
        ensures read { result ≡ Err refused.Read
            → Rose (S.faults self.old.source) (S.faults self.new.source) }

        ensures same { (S.told self.new.source ≡ S.told self.old.source)
            × (self.new.kinds ≡ self.old.kinds) }
        ensures later { S.faults self.old.source ≤ S.faults self.new.source }
    {
        let progress = match mem::replace(&mut self.progress, Progress::Refused) {
            Progress::Unread => begin(self.alloc, &mut self.source, &self.kinds)?,
            begun => begun,
        };
        match advance(self.alloc, &mut self.source, &self.kinds, progress, rows) {
            Ok(Advanced { batch, progress }) => {
                self.progress = progress;
                Ok(Front {
                    batch,
                    refused: None,
                })
            }
            Err(Stopped::Record(batch, refused)) => Ok(Front {
                batch,
                refused: Some(refused),
            }),
            Err(Stopped::Call(refused)) => Err(refused),
        }
    }

    /// The next rows of the file, `rows` of them or all that are left: fewer mean that the file has ended.
    /// After a refusal only `into_source` may be called.
    #[tactic(auto, using(crate::proofs::FrontSteps::front_steps))]
    pub fn next(&mut self, rows: u32) -> Result<Batch, CsvRefused>
        requires some { 0 < rows }
        requires going { self.old.refused ≡ false }

        ensures kinds { IfOk result (λ batch. batch.kinds ≡ self.old.kinds) }
        ensures gives { (items : List Item) → self.old.left ≡ Some items
            → IfOk result (λ batch. GivesRows rows items batch.rows self.new.left) }
        ensures falls { IfOk result (λ batch. length batch.rows + self.new.most
            ≤ self.old.most) }
        ensures going { OnOk result (self.new.refused ≡ false) }
        ensures ended { OnErr result (self.new.refused ≡ true) }

        // The file's refusal comes exactly where it is among the next items; the source's only where its count rose.
        ensures refused { (items : List Item) (e : Refusal) → self.old.left ≡ Some items
            → result ≡ Err e → is_bad e ≡ true → IsRefused rows items e }
        ensures read { result ≡ Err refused.Read
            → Rose (S.faults self.old.source) (S.faults self.new.source) }

        ensures same { (S.told self.new.source ≡ S.told self.old.source)
            × (self.new.kinds ≡ self.old.kinds) }
        ensures later { S.faults self.old.source ≤ S.faults self.new.source }
    {
        match self.next_front(rows) {
            Ok(front) => whole(front),
            Err(refused) => Err(refused),
        }
    }

    /// The source.
    pub fn into_source(self) -> S
        ensures { result ≡ self.source }
    {
        let CsvScan {
            alloc: _,
            source,
            kinds: _,
            progress: _,
        } = self;
        source
    }
}
