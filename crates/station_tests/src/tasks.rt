//! Tasks over a file of three rows, read two at a time: what they ask, by how they are answered.

ghost use Rattle.std.specs.Prelude.{◌≡◌, ◌∷◌, [], true, IfOk};
ghost use Rattle.dfx_value.specs.Kinds.{are_of};
ghost use Rattle.dfx_value.specs.declared.kind.Kind.TheVariants as kind;

use crate::fakes::{Batches, Counted, Passing, ToOne};
use column_batch::{Batch, Builder};
use dfx_value::{Kind, Row, Value};
use std::alloc::Global;
use std::test::Fail;
use task_stations::{
    Answer, Ask, Exit, Need, Scan, Seat, Station, Task, advance, refuse, reply_need,
};

type Tried = Task<Passing, Batches, ToOne, Counted>;

fn row(alloc: Global, number: i64) -> Result<Row, Fail>
    ensures { IfOk result (λ row. are_of (kind.Int ∷ []) row ≡ true) }
{
    let cells = vec![in alloc; Value::Int(number)]?;
    Ok(Row { cells })
}

fn one(alloc: Global) -> Result<Batch, Fail> {
    let mut builder = Builder::new(alloc, &[Kind::Int])?;
    builder.push(row(alloc, 9)?)?;
    Ok(builder.finish(alloc)?)
}

fn two(alloc: Global) -> Result<Batch, Fail> {
    let mut builder = Builder::new(alloc, &[Kind::Int])?;
    builder.push(row(alloc, 7)?)?;
    builder.push(row(alloc, 8)?)?;
    Ok(builder.finish(alloc)?)
}

/// A task of an operator over a scan of the file.
fn task_of(
    alloc: Global,
    consumer: Option<u32>,
    exit: Exit<ToOne, Counted>,
    header: bool,
) -> Result<Tried, Fail> {
    let file = Batches {
        source: 0,
        left: vec![in alloc; one(alloc)?, two(alloc)?]?,
    };
    let scan = Station::Scans(Scan {
        files: vec![in alloc; file]?,
        over: 0,
        ready: None,
        unread: None,
    });
    let seat = Station::Inner(Seat {
        operator: Passing {
            bytes: 8,
            batch: None,
            ended: false,
        },
        waiting: None,
        refused: false,
        held: 0,
        consumer,
        sizes: vec![in alloc; 1usize]?,
    });
    Ok(Task {
        stations: vec![in alloc; seat, scan]?,
        exit,
        header,
        parts: Vec::new(alloc),
        leaving: false,
    })
}

fn word_of(ask: &Ask) -> &'static str {
    match ask {
        Ask::Of(Need::Scan) => "scan ",
        Ask::Of(Need::Recv { .. }) => "receive ",
        Ask::Of(Need::Grow { .. }) => "grow ",
        Ask::Of(Need::Free { .. }) => "free ",
        Ask::Of(Need::Fail(_)) => "fail ",
        Ask::Send { .. } => "send ",
        Ask::Writes => "write ",
        Ask::Finish => "finish",
    }
}

/// What the task asks until it finishes. Its first reservation is refused where `refuses`, its first part where `gone`.
fn asked(alloc: Global, task: &mut Tried, refuses: bool, gone: bool) -> Result<String, Fail> {
    let mut text = String::new(alloc);
    let mut refuses = refuses;
    for _ in 0..20 {
        let ask = advance(task, alloc, 2)?;
        text.push_str(word_of(&ask))?;
        match ask {
            Ask::Finish => return Ok(text),
            Ask::Writes => {}
            Ask::Send {
                channel: _,
                batch: _,
            } => {
                if gone {
                    refuse(task, true);
                }
            }
            Ask::Of(Need::Grow { consumer, bytes }) => {
                let need = Need::Grow { consumer, bytes };
                let answer = if refuses { Answer::Refused } else { Answer::Go };
                refuses = false;
                reply_need(task, alloc, &need, answer)?;
            }
            Ask::Of(need) => reply_need(task, alloc, &need, Answer::Go)?,
        }
    }
    Ok(text)
}

#[test]
fn a_task_that_writes(rt: HostRuntime) -> Result<(), Fail> {
    let alloc = rt.alloc();
    let sink = Counted {
        headers: 0,
        rows: 0,
    };
    let mut task = task_of(alloc, None, Exit::Writes(sink), true)?;
    assert_eq!(rt;
        asked(alloc, &mut task, false, false)?.as_str(),
        "write scan write scan write finish"
    );
    if let Exit::Writes(sink) = &task.exit {
        assert_eq!(rt; sink.headers, 1);
        assert_eq!(rt; sink.rows, 3);
    }
    Ok(())
}

#[test]
fn a_task_that_sends(rt: HostRuntime) -> Result<(), Fail> {
    let alloc = rt.alloc();
    let mut task = task_of(alloc, None, Exit::Splits(ToOne { channel: 3 }), false)?;
    assert_eq!(rt;
        asked(alloc, &mut task, false, false)?.as_str(),
        "scan send scan send finish"
    );
    let mut task = task_of(alloc, None, Exit::Splits(ToOne { channel: 3 }), false)?;
    assert_eq!(rt;
        asked(alloc, &mut task, false, true)?.as_str(),
        "scan send finish"
    );
    Ok(())
}

#[test]
fn a_refused_reservation(rt: HostRuntime) -> Result<(), Fail> {
    let alloc = rt.alloc();
    let sink = Counted {
        headers: 0,
        rows: 0,
    };
    let mut task = task_of(alloc, Some(0), Exit::Writes(sink), false)?;
    assert_eq!(rt;
        asked(alloc, &mut task, true, false)?.as_str(),
        "scan grow free grow write scan grow write finish"
    );
    Ok(())
}
