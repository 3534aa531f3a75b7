//! That lines are made with ample memory. proofs/LineExamples.antt has worked lines.

ghost use Rattle.std.specs.Prelude.{◌≡◌, ◌∷◌, [], IfOk, IsUtf8};
ghost use Rattle.dfx_value.specs.declared.kind.Kind.TheVariants as kind;

use column_batch::{Batch, Builder};
use dfx_value::{Kind, Row, Text, Value};
use result_text::{RowLines, header_text};
use std::alloc::Global;
use std::test::Fail;

fn text_of(alloc: Global, text: &str) -> Result<Text, Fail>
    ensures { IfOk result (λ text. IsUtf8 text) }
{
    Ok(Text::from_string(String::from_str(alloc, text)?))
}

#[test]
fn a_header(rt: HostRuntime) -> Result<(), Fail> {
    let names = vec![in rt.alloc(); text_of(rt.alloc(), "a,b")?, text_of(rt.alloc(), "é")?]?;
    let found = header_text(rt.alloc(), &names)?;
    assert_eq!(rt; std::str::from_utf8(found.as_slice()), Ok("\"a,b\",é\n"));
    Ok(())
}

/// A batch of a text in want of quotes and a number, and a row of NULLs.
#[tactic(auto, using(dfx_value::proofs::ParseLemmas::utf8_tests))]
fn some_rows(alloc: Global) -> Result<Batch, Fail>
    ensures { IfOk result (λ batch. batch.kinds ≡ kind.Text ∷ kind.Int ∷ []) }
{
    let mut builder = Builder::new(alloc, &[Kind::Text, Kind::Int])?;
    let quoted = Value::Text(text_of(alloc, "a \"b\"")?);
    let cells = vec![in alloc; quoted, Value::Int(-7)]?;
    builder.push(Row { cells })?;
    let cells = vec![in alloc; Value::Null, Value::Null]?;
    builder.push(Row { cells })?;
    Ok(builder.finish(alloc)?)
}

#[test]
fn rows(rt: HostRuntime) -> Result<(), Fail> {
    let batch = some_rows(rt.alloc())?;
    let mut lines = RowLines::new(rt.alloc());
    lines.push_batch(&batch)?;
    lines.push_batch(&batch)?;
    let cells = vec![in rt.alloc(); Value::Null, Value::Null]?;
    lines.push_row(&Row { cells })?;
    let wanted = "\"a \"\"b\"\"\",-7\n,\n\"a \"\"b\"\"\",-7\n,\n,\n";
    assert_eq!(rt; std::str::from_utf8(lines.as_slice()), Ok(wanted));
    lines.clear();
    assert!(rt; lines.as_slice().is_empty());
    Ok(())
}
