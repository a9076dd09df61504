// Prints digests of the standard's published messages, of messages whose lengths lie around each edge of
// the padding, whole and in parts, and of eight texts at once.
#![tactic(auto)]

use lanes::digests;
use sha256::{Hasher, digest};
use std::io::ErrorKind;
use std::{array, io, str};

// A digest as text, in memory that is lent: what only prints wants none from the heap. Neither error comes.
fn text_of(digest: [u8; 32], text: &mut [u8; 64]) -> io::Result<&str> {
    hex::encode_to_slice(digest, text).map_err(|_| io::Error::from(ErrorKind::InvalidInput))?;
    str::from_utf8(text).map_err(|_| io::Error::from(ErrorKind::InvalidData))
}

fn published(rt: &HostRuntime) -> io::Result<()> {
    let messages: [&str; 4] = [
        "",
        "abc",
        "abcdbcdecdefdefgefghfghighijhijkijkljklmklmnlmnomnopnopq",
        "abcdefghbcdefghicdefghijdefghijkefghijklfghijklmghijklmnhijklmnoijklmnopjklmnopqklmnopqrlmnopqrsmnopqrstnopqrstu",
    ];
    let mut text = [0; 64];
    for m in messages {
        let d = text_of(digest(m.as_bytes()), &mut text)?;
        println!(rt; "\"{m}\" {d}")?;
    }
    Ok(())
}

// One million times "a", in parts of 1,000 bytes.
fn million() -> [u8; 32] {
    let part = [b'a'; 1000];
    let mut h = Hasher::new();
    for _ in 0..1000 {
        h.update(&part);
    }
    h.finish()
}

// A message in three parts, the first of one byte where there is one. `bench_c` has such a function for C, in a static
// library on which no program can stand.
fn in_parts(m: &[u8]) -> [u8; 32] {
    let first = m.len().min(1);
    let second = m.len().min(60);
    let mut h = Hasher::new();
    h.update(&m[0..first]);
    h.update(&m[first..second]);
    h.update(&m[second..]);
    h.finish()
}

// Messages of the bytes 0, 1, 2 and so on.
fn edges(rt: &HostRuntime) -> io::Result<()> {
    let m: [u8; 130] = array::from_fn(|i| i as u8);
    let lengths: [usize; 14] = [1, 54, 55, 56, 57, 63, 64, 65, 118, 119, 120, 127, 128, 129];
    let mut text = [0; 64];
    for n in lengths {
        let whole = text_of(digest(&m[0..n]), &mut text)?;
        println!(rt; "{n} bytes {whole}")?;
        let parts = text_of(in_parts(&m[0..n]), &mut text)?;
        println!(rt; "{n} bytes in parts {parts}")?;
    }
    Ok(())
}

// Eight texts of 39 bytes, each of one byte: 0 to 7.
fn texts(rt: &HostRuntime) -> io::Result<()> {
    let all = digests(&[
        [0; 39], [1; 39], [2; 39], [3; 39], [4; 39], [5; 39], [6; 39], [7; 39],
    ]);
    let mut text = [0; 64];
    for (j, digest) in all.iter().enumerate() {
        let d = text_of(*digest, &mut text)?;
        println!(rt; "text {j} {d}")?;
    }
    Ok(())
}

fn main(rt: HostRuntime) -> io::Result<()> {
    published(&rt)?;
    let mut text = [0; 64];
    let d = text_of(million(), &mut text)?;
    println!(rt; "a million times \"a\" {d}")?;
    edges(&rt)?;
    texts(&rt)
}
