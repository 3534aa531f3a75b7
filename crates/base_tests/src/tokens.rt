//! That a script has its tokens with ample memory, how refusals are printed, and the longest script. proofs/TokenExamples.antt has
//! worked scripts.
use sql_lexer::{TokenKind, token_text, tokens};
use std::test::Fail;

/// The tokens of a script, each with a letter for its kind and its text, or the refusal.
fn shown(rt: &HostRuntime, script: &[u8]) -> Result<String, Fail> {
    let found = match tokens(rt.alloc(), script) {
        Ok(found) => found,
        Err(refused) => return Ok(format!(in rt.alloc(); "{refused}")?),
    };
    let mut shown = String::new(rt.alloc());
    for token in &found {
        shown.push_str(match token.kind {
            TokenKind::Word => " w:",
            TokenKind::Quoted => " q:",
            TokenKind::Number => " n:",
            TokenKind::Str => " t:",
            TokenKind::Symbol => " ",
        })?;
        match token_text(rt.alloc(), script, token) {
            Ok(text) => shown.push_str(text.as_str())?,
            Err(_) => return Err(Fail::from("no memory")),
        }
    }
    Ok(shown)
}

#[test]
fn each_kind_and_each_refusal(rt: HostRuntime) -> Result<(), Fail> {
    let cases: [(&[u8], &str); 5] = [
        (
            b"SELECT \"Ab\"\"c\" 1.5<='it''s' -- d",
            " w:select q:Ab\"c n:1.5 <= t:it's",
        ),
        (b"a!b |", "unexpected character at 1"),
        (b"a 'b''", "quote without an end at 2"),
        (
            b" 123456789012345678901234567890123456789",
            "number too wide at 1",
        ),
        (b"? '\xe4'", "no UTF-8 at 3"),
    ];
    for (script, wanted) in cases {
        let found = shown(&rt, script)?;
        assert!(rt; found.as_str() == wanted, "{found}");
    }
    Ok(())
}

#[test]
fn a_script_has_at_most_1048576_bytes(rt: HostRuntime) -> Result<(), Fail> {
    let mut script = vec![in rt.alloc(); b' '; 1_048_576]?;
    assert!(rt; shown(&rt, &script)?.as_str() == "");
    script.push(0xff)?;
    assert!(rt; shown(&rt, &script)?.as_str() == "too long: 1048577 bytes");
    Ok(())
}
