//! The tables of a script: their files, and what their statements declare.

ghost use Rattle.std.specs.Prelude.{◌≡◌, ◌≤◌, ◌∷◌, [], ℕ, List, Some, Err, IfOk, IfErr, OnOk, filter, length, ◌++◌};
ghost use Rattle.dfx_outside.specs.Causes.{Rose};
ghost use Rattle.dfx_outside.specs.Contents.{Contents};
ghost use Rattle.dfx_prepare.specs.Listings as named;
ghost use Rattle.dfx_prepare.specs.Outcomes.{Answers, IsListing};
ghost use Rattle.dfx_prepare.specs.Preparing as spec;
ghost use Rattle.failure_text.specs.declared.failure.Failure.TheVariants as failure;

use dfx_outside::{Files, FilesRefused};
use dfx_value::{NoMemory, Seq, Text};
use failure_text::Failure;
use sql_grammar::ast::TableAst;
use std::alloc::Global;

fn is_folder(location: &Text) -> bool
    ensures { result ≡ named.is_folder location.now }
{
    location.bytes().ends_with(b"/")
}

fn is_csv(path: &Text) -> bool
    ensures { result ≡ named.is_csv path.now }
{
    path.bytes().ends_with(b".csv")
}

fn keep_csv(paths: &mut Vec<Text>)
    ensures { paths.new.items ≡ filter named.is_csv paths.old.items }
{
    paths.retain(|path| is_csv(path));
}

/// The files of a folder's table.

fn folder_files<F: Files>(alloc: Global, files: &mut F, folder: &Text) -> Result<Seq<Text>, Failure>
    ensures found { (all : Contents) → F.told files.old ≡ Some all
        → Answers result (spec.folder_files all folder.now) }
    ensures same { F.told files.new ≡ F.told files.old }
    ensures later { (F.faults files.old ≤ F.faults files.new)
        × (F.absences files.old ≤ F.absences files.new) }

    ensures read { result ≡ Err failure.Read → Rose (F.faults files.old) (F.faults files.new) }
    ensures missing { (p : List ℕ) → result ≡ Err (failure.Missing p)
        → Rose (F.absences files.old) (F.absences files.new) }
    ensures listing { IfErr result IsListing }
{
    match files.list(folder) {
        Ok(mut paths) => {
            keep_csv(&mut paths);
            Ok(Seq::from_vec(paths))
        }
        Err(FilesRefused::Failed) => Err(Failure::Read),
        Err(FilesRefused::NoMemory) => Err(Failure::NoMemory),
        Err(FilesRefused::NoSuchFile) => {
            let path = folder.copy(alloc)?;
            Err(Failure::Missing { path })
        }
    }
}

fn one_file(alloc: Global, path: &Text) -> Result<Seq<Text>, NoMemory>
    ensures { IfOk result (λ files. files ≡ path.now ∷ []) }
{
    let mut files = Vec::new(alloc);
    files.push(path.copy(alloc)?)?;
    Ok(Seq::from_vec(files))
}

/// The files of a table.
fn table_files<F: Files>(
    alloc: Global,
    files: &mut F,
    table: &TableAst,
) -> Result<Seq<Text>, Failure>
    ensures found { (all : Contents) → F.told files.old ≡ Some all
        → Answers result (spec.table_files all table.now) }
    ensures same { F.told files.new ≡ F.told files.old }
    ensures later { (F.faults files.old ≤ F.faults files.new)
        × (F.absences files.old ≤ F.absences files.new) }

    ensures read { result ≡ Err failure.Read → Rose (F.faults files.old) (F.faults files.new) }
    ensures missing { (p : List ℕ) → result ≡ Err (failure.Missing p)
        → Rose (F.absences files.old) (F.absences files.new) }
    ensures listing { IfErr result IsListing }
{
    if table.arrow {
        return Err(Failure::NotBuilt);
    }
    if is_folder(&table.location) {
        folder_files(alloc, files, &table.location)
    } else {
        Ok(one_file(alloc, &table.location)?)
    }
}

/// The files of each table, in the order of the statements, to the first refusal.
#[tactic(auto, using(crate::proofs::TableSteps::table_steps))]
pub fn files_of<F: Files>(
    alloc: Global,
    files: &mut F,
    tables: &[TableAst],
) -> Result<Seq<Seq<Text>>, Failure>
    ensures found { (all : Contents) → F.told files.old ≡ Some all
        → Answers result (spec.files_of all tables.now) }
    ensures each { IfOk result (λ paths. length paths ≡ length tables.now) }
    ensures same { F.told files.new ≡ F.told files.old }
    ensures later { (F.faults files.old ≤ F.faults files.new)
        × (F.absences files.old ≤ F.absences files.new) }

    ensures read { result ≡ Err failure.Read → Rose (F.faults files.old) (F.faults files.new) }
    ensures missing { (p : List ℕ) → result ≡ Err (failure.Missing p)
        → Rose (F.absences files.old) (F.absences files.new) }
    ensures listing { IfErr result IsListing }
{
    let mut found = Vec::new(alloc);
    for table in tables {
        let paths = table_files(alloc, files, table)?;
        push_files(&mut found, paths)?;
    }
    Ok(Seq::from_vec(found))
}

fn push_files(found: &mut Vec<Seq<Text>>, paths: Seq<Text>) -> Result<(), NoMemory>
    ensures { OnOk result (found.new.items ≡ found.old.items ++ paths ∷ []) }
{
    Ok(found.push(paths)?)
}
