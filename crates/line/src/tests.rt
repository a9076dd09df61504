// Streams that come in parts, that end early, and that hold more than one word.
use super::reading::read_word_from;
use std::alloc::Global;
use std::io;
use std::io::{BufReader, Read};
use std::test::Fail;
use tasks::{Task, read_task};

// Three trains, two paths and one pair.
const TASK: [u8; 10] = [1, 0, 3, 2, 0, 1, 0, 0, 0, 1];

// An Ask and an End of round 0.
const ASK_END: [u8; 13] = [4, 0, 0, 0, 0, 0, 0, 6, 0, 0, 0, 0, 1];

// Gives a byte at each call.
#[derive(Drop)]
struct Drip<'a> {
    left: &'a [u8],
}

impl Read for Drip<'_> {
    fn read(&mut self, buf: &mut [u8]) -> io::Result<usize> {
        if buf.is_empty() || self.left.is_empty() {
            return Ok(0);
        }
        buf[0] = self.left[0];
        self.left = &self.left[1..];
        Ok(1)
    }
}

fn task(heap: Global) -> Result<Task, Fail> {
    Ok(read_task(heap, &TASK).ok().ok_or("no task")?)
}

// How many bytes are taken of a stream.
fn taken(heap: Global, stream: &[u8]) -> Result<usize, Fail> {
    let task = task(heap)?;
    let mut word = Vec::new(heap);
    let mut reader = stream;
    read_word_from(&mut reader, &task, &mut word)
        .ok()
        .ok_or("no word")?;
    let all = word.len().saturating_add(reader.len());
    (all == stream.len())
        .then_some(())
        .ok_or("bytes that are neither kept nor left")?;
    Ok(word.len())
}

#[test]
fn takes_one_word(rt: HostRuntime) -> Result<(), Fail> {
    assert_eq!(rt; taken(rt.alloc(), &ASK_END)?, 7);
    assert_eq!(rt; taken(rt.alloc(), &TASK)?, 10);
    Ok(())
}

#[test]
fn leaves_the_next_word(rt: HostRuntime) -> Result<(), Fail> {
    let task = task(rt.alloc())?;
    let mut word = Vec::new(rt.alloc());
    let mut reader = BufReader::new(rt.alloc(), Drip { left: &ASK_END })?;
    read_word_from(&mut reader, &task, &mut word)
        .ok()
        .ok_or("no first word")?;
    assert!(rt; word.as_slice() == &ASK_END[..7]);
    read_word_from(&mut reader, &task, &mut word)
        .ok()
        .ok_or("no second word")?;
    assert!(rt; word.as_slice() == &ASK_END[7..]);
    read_word_from(&mut reader, &task, &mut word)
        .ok()
        .ok_or("no end")?;
    assert_eq!(rt; word.len(), 0);
    Ok(())
}

#[test]
fn ends_in_the_middle(rt: HostRuntime) -> Result<(), Fail> {
    for n in 0..7 {
        assert_eq!(rt; taken(rt.alloc(), &ASK_END[..n])?, n);
    }
    Ok(())
}

#[test]
fn takes_only_a_kind_that_is_unknown(rt: HostRuntime) -> Result<(), Fail> {
    assert_eq!(rt; taken(rt.alloc(), &[7, 1, 2])?, 1);
    assert_eq!(rt; taken(rt.alloc(), &[0, 1, 2])?, 1);
    Ok(())
}

#[test]
fn stops_where_a_head_is_bad(rt: HostRuntime) -> Result<(), Fail> {
    assert_eq!(rt; taken(rt.alloc(), &[1, 0, 0, 2, 0, 1])?, 3);
    assert_eq!(rt; taken(rt.alloc(), &[2, 0, 4, 0, 0, 0, 0])?, 3);
    assert_eq!(rt; taken(rt.alloc(), &[3, 0, 0, 0, 0, 0, 4, 9])?, 7);
    Ok(())
}
