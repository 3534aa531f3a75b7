//! The line of the names.

ghost use Rattle.std.specs.Prelude.{◌≡◌, IfOk};
ghost use Rattle.result_text.specs.AnswerText.{header_line};

use crate::fields::{end_line, push_field, push_separator};
use dfx_value::{Bytes, NoMemory, Text};
use std::alloc::Global;

/// The line of the names.
#[tactic(auto, using(crate::proofs::LineSteps::row_steps))]
pub fn header_text(alloc: Global, names: &[Text]) -> Result<Bytes, NoMemory>
    ensures { IfOk result (λ text. text ≡ header_line names.now) }
{
    let mut text = Vec::new(alloc);
    for (place, name) in names.iter().enumerate() {
        push_separator(&mut text, place)?;
        push_field(&mut text, name.bytes())?;
    }
    end_line(&mut text, 0)?;
    Ok(Bytes::from_vec(text))
}
