//! Whole files.

ghost use Rattle.std.specs.Prelude.{◌≡◌, ◌≤◌, ℕ, List, Some, None, Err, IfOk, IfErr};
ghost use Rattle.dfx_outside.specs.Causes.{Rose};
ghost use Rattle.dfx_outside.specs.Contents.{Contents, content, Opens};
ghost use Rattle.dfx_outside.specs.declared.files.FilesRefused.TheVariants as refusal;
ghost use Rattle.dfx_top.specs.Outcomes.{IsOpening};
ghost use Rattle.failure_text.specs.declared.failure.Failure.TheVariants as failure;

use dfx_outside::{Files, FilesRefused, OutsideRefused, read_all};
use dfx_prepare::Failure;
use dfx_value::Text;
use std::alloc::Global;

/// The failure of a refused opening.
fn open_failure(alloc: Global, refused: FilesRefused, path: &Text) -> Failure
    ensures missing { (p : List ℕ) → result ≡ failure.Missing p
        → (p ≡ path.now) × (refused ≡ refusal.NoSuchFile) }
    ensures read { result ≡ failure.Read → refused ≡ refusal.Failed }
    ensures opening { IsOpening result }
{
    match refused {
        FilesRefused::Failed => Failure::Read,
        FilesRefused::NoMemory => Failure::NoMemory,
        FilesRefused::NoSuchFile => match path.copy(alloc) {
            Ok(path) => Failure::Missing { path },
            Err(_) => Failure::NoMemory,
        },
    }
}

/// Opens the file at a path.
fn open_file<F: Files>(alloc: Global, files: &mut F, path: &Text) -> Result<F::One, Failure>
    ensures content { (all : Contents) → F.told files.old ≡ Some all
        → IfOk result (λ one. Opens (content all path.now) (F.One.told one)) }
    ensures fresh { IfOk result (λ one. F.One.faults one ≡ 0) }
    ensures same { F.told files.new ≡ F.told files.old }
    ensures later { (F.faults files.old ≤ F.faults files.new)
        × (F.absences files.old ≤ F.absences files.new) }

    ensures read { result ≡ Err failure.Read → Rose (F.faults files.old) (F.faults files.new) }
    ensures missing { (p : List ℕ) → result ≡ Err (failure.Missing p)
        → (p ≡ path.now) × Rose (F.absences files.old) (F.absences files.new) }
    ensures absent { (all : Contents) (p : List ℕ) → F.told files.old ≡ Some all
        → result ≡ Err (failure.Missing p) → content all path.now ≡ None }
    ensures opening { IfErr result IsOpening }
{
    match files.open_file(path) {
        Ok(one) => Ok(one),
        Err(refused) => Err(open_failure(alloc, refused, path)),
    }
}

/// All the bytes of the file at a path. The file is closed again.
#[tactic(auto, using(crate::proofs::FaultSteps::fault_steps))]
pub fn read_file<F: Files>(alloc: Global, files: &mut F, path: &Text) -> Result<Vec<u8>, Failure>
    ensures content { (all : Contents) → F.told files.old ≡ Some all
        → IfOk result (λ bytes. content all path.now ≡ Some bytes.items) }
    ensures same { F.told files.new ≡ F.told files.old }
    ensures later { (F.faults files.old ≤ F.faults files.new)
        × (F.absences files.old ≤ F.absences files.new) }

    ensures read { result ≡ Err failure.Read → Rose (F.faults files.old) (F.faults files.new) }
    ensures missing { (p : List ℕ) → result ≡ Err (failure.Missing p)
        → (p ≡ path.now) × Rose (F.absences files.old) (F.absences files.new) }
    ensures absent { (all : Contents) (p : List ℕ) → F.told files.old ≡ Some all
        → result ≡ Err (failure.Missing p) → content all path.now ≡ None }
    ensures opening { IfErr result IsOpening }
{
    let mut one = open_file(alloc, files, path)?;
    let bytes = read_all(alloc, &mut one);
    files.close(one);
    match bytes {
        Ok(bytes) => Ok(bytes),
        Err(OutsideRefused::Failed) => Err(Failure::Read),
        Err(OutsideRefused::NoMemory) => Err(Failure::NoMemory),
    }
}
