//! Each pull and each push fails in turn: the answer is `Device`, and what was written is a beginning of the reports.
use super::answers::answered;
use crate::asserts::{agree, require};
use egt_plain::shelf::library_below;
use egt_probe::{AnswerFault, answer};
use egt_table::{FailingSink, FailingSource, MemorySink, MemorySource};
use std::alloc::Global;
use std::test::*;

/// More lines than go into one pull.
fn input(alloc: Global) -> Result<Vec<u8>, Fail> {
    let mut input = Vec::new(alloc);
    for _ in 0..150 {
        input.extend_from_slice(b"8/8/8/4k3/8/4K3/8/8 w - -\nx\n")?;
    }
    input.extend_from_slice(b"8/8/8/4k3/8/4K3/8/8 w - -")?;
    Ok(input)
}

/// Whether the device failed, where what was written is a beginning of the whole answer; else that is whole. `None` for
/// anything else.
fn is_cut(answer: Result<(), AnswerFault>, written: &[u8], whole: &[u8]) -> Option<bool> {
    match answer {
        Err(AnswerFault::Device) if whole.starts_with(written) && written != whole => Some(true),
        Ok(()) if written == whole => Some(false),
        _ => None,
    }
}

#[test]
fn each_pull_fails(rt: HostRuntime) -> Result<(), Fail> {
    let alloc = rt.alloc();
    let library = library_below(alloc, 1)?;
    let input = input(alloc)?;
    let whole = answered(alloc, &library, &input)?;
    for k in 1..10u64 {
        let mut source = FailingSource::new(MemorySource::new(&input), k);
        let mut sink = MemorySink::new(alloc, 100_000)?;
        let answer = answer(alloc, &library, &mut source, &mut sink);
        agree(&rt, is_cut(answer, sink.bytes(), &whole), Some(k <= 3));
    }
    Ok(())
}

#[test]
fn each_push_fails(rt: HostRuntime) -> Result<(), Fail> {
    let alloc = rt.alloc();
    let library = library_below(alloc, 1)?;
    let input = b"8/8/8/4k3/8/4K3/8/8 w - -\nx\n8/8/8/4k3/8/4K3/8/8 b - -";
    let whole = answered(alloc, &library, input)?;
    for k in 1..10u64 {
        let mut source = MemorySource::new(input);
        let mut sink = FailingSink::new(MemorySink::new(alloc, 1000)?, k);
        let answer = answer(alloc, &library, &mut source, &mut sink);
        let written = sink.into_inner();
        agree(&rt, is_cut(answer, written.bytes(), &whole), Some(k <= 3));
    }
    Ok(())
}

// A report that fits only in part is written as far as it fits.
#[test]
fn a_sink_that_is_full(rt: HostRuntime) -> Result<(), Fail> {
    let alloc = rt.alloc();
    let library = library_below(alloc, 1)?;
    let mut sink = MemorySink::new(alloc, 20)?;
    let input = b"8/8/8/4k3/8/4K3/8/8 w - -\nx\n";
    match answer(alloc, &library, &mut MemorySource::new(input), &mut sink) {
        Err(AnswerFault::Device) => {}
        _ => return Err(Fail::from("there was room")),
    }
    require(&rt, sink.bytes() == b"KK draw hold e3d2\ner".as_slice());
    Ok(())
}
