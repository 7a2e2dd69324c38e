// Shows what the reader says of runs on each side of its edges.
#![tactic(auto)]

use std::{io, iter};
use syntax::{Fitting, RefusedRun, STACK, Scanned, Unfit, Unread};

// The bytes of a run that is put together: a fixed array, so that nothing is allocated. It has room for a byte more than a run may
// have, and drops the rest.
#[derive(Drop)]
struct Bytes {
    room: [u8; 65537],
    count: usize,
}

impl Bytes {
    // Begins anew.
    fn start(&mut self, first: &[u8]) {
        self.count = 0;
        self.extend(first);
    }

    fn push(&mut self, byte: u8) {
        if let Some(place) = self.room.get_mut(self.count) {
            *place = byte;
            self.count += 1;
        }
    }

    fn extend(&mut self, more: &[u8]) {
        for byte in more {
            self.push(*byte);
        }
    }

    fn repeat(&mut self, byte: u8, count: usize) {
        for _ in 0..count {
            self.push(byte);
        }
    }

    fn as_slice(&self) -> &[u8] {
        self.room.get(..self.count).unwrap_or(&[])
    }
}

// The nesting limit and the number of calls, or the refusal and its place.
fn run(rt: &impl Print, label: &str, bytes: &[u8]) -> io::Result<()> {
    match syntax::scan_run(bytes) {
        Ok(Scanned { limit, calls }) => println!(rt; "{label}: limit {limit}, calls {calls}"),
        Err(RefusedRun { refusal, place }) => println!(rt;
            "{label}: refused {} at {place}",
            refusal.number()
        ),
    }
}

// The first call's nodes, or its refusal, and the offset past it.
fn call(rt: &impl Print, label: &str, bytes: &[u8]) -> io::Result<()> {
    let mut stack = [0u8; STACK];
    match syntax::size_call(bytes, 2, &mut stack) {
        Ok(Fitting { nodes, next, .. }) => println!(rt; "{label}: nodes {nodes}, next {next}"),
        Err(Unfit::Refused(refusal, next)) => println!(rt;
            "{label}: refused {}, next {next}",
            refusal.number()
        ),
        Err(Unfit::Unread(Unread::Bad(place))) => println!(rt;
            "{label}: bad {place} of {}",
            bytes.len()
        ),
        Err(Unfit::Unread(Unread::Short)) => println!(rt; "{label}: no room"),
    }
}

// The bytes as a run, and as one with a call to be sized.
fn both(rt: &impl Print, label: &str, bytes: &[u8]) -> io::Result<()> {
    run(rt, label, bytes)?;
    call(rt, label, bytes)
}

fn headers(rt: &impl Print) -> io::Result<()> {
    run(rt, "empty", &[])?;
    run(rt, "one byte", &[100])?;
    run(rt, "limit 0", &[0, 0])?;
    run(rt, "limit 1", &[1, 0])?;
    run(rt, "limit 4096", &[0, 16])?;
    run(rt, "limit 4097", &[1, 16])?;
    run(rt, "limit 0, then no code", &[0, 0, 8])
}

// The place is the leftmost byte that may not stand there, or the length.
fn places(rt: &impl Print) -> io::Result<()> {
    run(rt, "check zero at nat", &[100, 0, 3, 0, 0, 4, 3])?;
    run(rt, "no code", &[100, 0, 8, 0, 0, 4, 3])?;
    run(rt, "code alone", &[100, 0, 3])?;
    run(rt, "no length", &[100, 0, 3, 0])?;
    run(rt, "no term", &[100, 0, 3, 0, 0])?;
    run(rt, "no kind", &[100, 0, 3, 0, 0, 15, 0])?;
    run(rt, "no type", &[100, 0, 3, 0, 0, 4])?;
    run(rt, "no kind in the type", &[100, 0, 3, 0, 0, 4, 0])?;
    run(rt, "v without a number", &[100, 0, 2, 0, 0, 2])?;
    run(
        rt,
        "papp with an interval",
        &[100, 0, 2, 0, 0, 10, 4, 20, 16, 18, 255],
    )?;
    run(rt, "papp with a term", &[100, 0, 2, 0, 0, 10, 4, 4])?;
    run(rt, "interval for a term", &[100, 0, 2, 0, 0, 16])?;
    run(rt, "second call cut", &[100, 0, 0, 0, 0, 1, 0])
}

// One term and many types: a call for each, or one where their count is wrong.
fn many(rt: &impl Print) -> io::Result<()> {
    run(rt, "two types", &[100, 0, 6, 0, 0, 4, 2, 3, 3])?;
    run(rt, "no type", &[100, 0, 6, 0, 0, 4, 0])?;
    run(rt, "no count", &[100, 0, 6, 0, 0, 4])?;
    run(rt, "one type of two", &[100, 0, 6, 0, 0, 4, 2, 3])?;
    run(
        rt,
        "no kind in the second type",
        &[100, 0, 6, 0, 0, 4, 2, 3, 15],
    )?;
    run(
        rt,
        "then a check",
        &[100, 0, 6, 0, 0, 4, 2, 3, 3, 3, 0, 0, 4, 3],
    )
}

// A call with so many types that are nat.
fn drafts(rt: &impl Print, bytes: &mut Bytes, label: &str, count: u8) -> io::Result<()> {
    bytes.start(&[100, 0, 6, 0, 0, 4, count]);
    bytes.repeat(3, usize::from(count));
    run(rt, label, bytes.as_slice())
}

// infer papp(zero, neg .. neg dim n), with so many negs: the dim's depth is one more.
fn deep(rt: &impl Print, bytes: &mut Bytes, label: &str, negs: usize, n: u8) -> io::Result<()> {
    bytes.start(&[100, 0, 2, 0, 0, 10, 4]);
    bytes.repeat(19, negs);
    bytes.extend(&[18, n]);
    both(rt, label, bytes.as_slice())
}

// A context of so many nats.
fn nats(rt: &impl Print, bytes: &mut Bytes, label: &str, dims: u8, size: u8) -> io::Result<()> {
    bytes.start(&[100, 0, 0, dims, size]);
    bytes.repeat(3, usize::from(size));
    both(rt, label, bytes.as_slice())
}

fn limits(rt: &impl Print, bytes: &mut Bytes) -> io::Result<()> {
    call(rt, "index 32", &[100, 0, 2, 0, 0, 2, 32])?;
    call(rt, "index 33", &[100, 0, 2, 0, 0, 2, 33])?;
    call(rt, "level 33", &[100, 0, 2, 0, 0, 1, 33])?;
    deep(rt, bytes, "depth 32", 31, 32)?;
    deep(rt, bytes, "depth 33", 32, 32)?;
    deep(rt, bytes, "depth 32, dim 33", 31, 33)?;
    deep(rt, bytes, "depth 33, dim 33", 32, 33)?;
    deep(rt, bytes, "depth 60001", 60000, 0)?;
    nats(rt, bytes, "33 dims, 33 types", 33, 33)?;
    nats(rt, bytes, "34 dims", 34, 0)?;
    nats(rt, bytes, "34 types", 0, 34)?;
    call(rt, "34 dims, index 33", &[100, 0, 2, 34, 0, 2, 33])?;
    call(rt, "no kind after index 33", &[100, 0, 3, 0, 0, 2, 33, 0])
}

// Adds a full tree of applications, so deep.
fn tree(bytes: &mut Bytes, depth: usize) {
    if depth == 0 {
        bytes.push(4);
        return;
    }
    bytes.push(7);
    tree(bytes, depth - 1);
    tree(bytes, depth - 1);
}

// A context whose types are such trees: 8191, 1023, 511, 255, 15, 3, 1 and 1 nodes, and 1 more where it has nine.
fn nodes(rt: &impl Print, bytes: &mut Bytes, label: &str, size: u8) -> io::Result<()> {
    bytes.start(&[100, 0, 0, 0, size]);
    for depth in [12, 9, 8, 7, 3, 1, 0, 0, 0].iter().take(usize::from(size)) {
        tree(bytes, *depth);
    }
    both(rt, label, bytes.as_slice())
}

fn large(rt: &impl Print, bytes: &mut Bytes) -> io::Result<()> {
    bytes.start(&[100, 0, 0, 0, 2, 3, 3]);
    bytes.repeat(0, 65536 - 7);
    run(rt, "65536 bytes", bytes.as_slice())?;
    bytes.push(0);
    run(rt, "65537 bytes", bytes.as_slice())
}

// The most calls that a run has: types of one byte, 16 of them for five bytes more, and nine at the end.
fn most(rt: &impl Print, bytes: &mut Bytes) -> io::Result<()> {
    bytes.start(&[100, 0]);
    for count in iter::repeat_n(16, 3120).chain([9]) {
        bytes.extend(&[6, 0, 0, 4, count]);
        bytes.repeat(3, usize::from(count));
    }
    run(rt, "the most calls", bytes.as_slice())
}

fn main(rt: HostRuntime) -> io::Result<()> {
    let mut bytes = Bytes {
        room: [0; 65537],
        count: 0,
    };
    headers(&rt)?;
    places(&rt)?;
    many(&rt)?;
    drafts(&rt, &mut bytes, "16 types", 16)?;
    drafts(&rt, &mut bytes, "17 types", 17)?;
    limits(&rt, &mut bytes)?;
    nodes(&rt, &mut bytes, "10000 nodes", 8)?;
    nodes(&rt, &mut bytes, "10001 nodes", 9)?;
    large(&rt, &mut bytes)?;
    most(&rt, &mut bytes)
}
