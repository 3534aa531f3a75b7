//! The files of a table, opened and closed.

ghost use Rattle.std.specs.Prelude.{◌≡◌, ◌<◌, ◌≤◌, ◌^◌, ◌+◌, ℕ, List, [], map, length, Some, None, Err, IfErr, OnOk};
ghost use Rattle.dfx_outside.specs.Causes.{Rose, HandsOn};
ghost use Rattle.dfx_outside.specs.Contents.{Contents, content};
ghost use Rattle.csv_source.specs.TableItems.{missing};
ghost use Rattle.scan_run.specs.Words.{AreOpened, Opens, IsOfOpening};
ghost use Rattle.scan_run.specs.declared.refused.RunRefused.TheVariants as refused;

use crate::refused::{RunRefused, opening_refused};
use dfx_outside::Files;
use dfx_value::Text;
use std::alloc::Global;
use std::collections::VecDeque;

/// Opens the file at a path, behind those that were opened.
fn open_next<F: Files>(
    files: &mut F,
    file: u32,
    path: &Text,
    opened: &mut VecDeque<F::One>,
) -> Result<(), RunRefused>
    ensures one { (all : Contents) → F.told files.old ≡ Some all
        → OnOk result (Opens F.One.told opened.old.items opened.new.items (content all path.now)) }
    ensures missing { (f : ℕ) → result ≡ Err (refused.Missing f) → (f ≡ file)
        × Rose (F.absences files.old) (F.absences files.new) }
    ensures absent { (all : Contents) (f : ℕ) → F.told files.old ≡ Some all
        → result ≡ Err (refused.Missing f) → content all path.now ≡ None }
    ensures read { result ≡ Err refused.Read → Rose (F.faults files.old) (F.faults files.new) }
    ensures kind { IfErr result IsOfOpening }
    ensures same { F.told files.new ≡ F.told files.old }
    ensures later { (F.faults files.old ≤ F.faults files.new)
        × (F.absences files.old ≤ F.absences files.new) }
    ensures many { OnOk result (length opened.new.items ≡ length opened.old.items + 1) }
{
    match files.open_file(path) {
        Ok(one) => match opened.push_back(one) {
            Ok(()) => Ok(()),
            Err(full) => {
                files.close(full.value);
                Err(RunRefused::NoMemory)
            }
        },
        Err(refused) => Err(opening_refused(file, refused)),
    }
}

/// Opens the files at all paths, in their order. After a refusal those before it stay opened.
pub(crate) fn open_all<F: Files>(
    files: &mut F,
    paths: &[Text],
    opened: &mut VecDeque<F::One>,
) -> Result<(), RunRefused>
    requires few { length paths.now < 2 ^ 32 }
    requires none { opened.old.items ≡ [] }

    ensures all { (all : Contents) → F.told files.old ≡ Some all
        → OnOk result (AreOpened all paths.now (map F.One.told opened.new.items)) }
    ensures missing { (f : ℕ) → result ≡ Err (refused.Missing f)
        → Rose (F.absences files.old) (F.absences files.new) }
    ensures absent { (all : Contents) (f : ℕ) → F.told files.old ≡ Some all
        → result ≡ Err (refused.Missing f) → missing all paths.now ≡ Some f }
    ensures read { result ≡ Err refused.Read → Rose (F.faults files.old) (F.faults files.new) }
    ensures kind { IfErr result IsOfOpening }
    ensures same { F.told files.new ≡ F.told files.old }
    ensures later { (F.faults files.old ≤ F.faults files.new)
        × (F.absences files.old ≤ F.absences files.new) }
    ensures many { OnOk result (length opened.new.items ≡ length paths.now) }
{
    for (file, path) in paths.iter().enumerate() {
        open_next(files, file as u32, path, opened)?;
    }
    Ok(())
}

/// Closes files.
pub(crate) fn close_all<F: Files>(files: &mut F, opened: VecDeque<F::One>)
    ensures same { (F.told files.new ≡ F.told files.old)
        × (F.absences files.new ≡ F.absences files.old) }
    ensures later { F.faults files.old ≤ F.faults files.new }
{
    let mut opened = opened;
    let count = opened.len();
    for _at in 0..count {
        let Some(one) = opened.pop_front() else {
            unreachable!();
        };
        files.close(one);
    }
    opened.destroy_empty();
}
