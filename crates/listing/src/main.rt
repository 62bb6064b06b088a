// Reads an image from standard input and prints its sleeve listing (01, Sleeve listing), in the layout that its first argument names (02, §8).
// What it prints for the bytes that were read is `sleeve::program_output`'s to say; a read that fails counts as the end of the input.
#![tactic(auto)]

ghost use Rattle.io.specs.Counts.{IsPrefixLen};

use geometry::Layout;
use std::env::{Env, FillError};
use std::io;
use std::io::{Read, Write};

// The layout of the first argument: 0 if there is none. An argument that is longer than the room for it names none.
fn asked(rt: &HostRuntime) -> Option<Layout> {
    let mut argument = [0u8; 2];
    match rt.arg(1, &mut argument) {
        Ok(n) => layouts::layout_written(&argument[..n]),
        Err(FillError::NotPresent) => Some(Layout::Tracks35),
        Err(FillError::TooLong) => None,
    }
}

// Reads until the buffer is full, the input ends or a read fails. Gives how many bytes it read.
fn read_full<R: Read>(reader: &mut R, input: &mut [u8]) -> usize
    ensures { IsPrefixLen result input.new }
{
    // not by read_to_end, which wants a heap, and of which std says nothing after an error: here a failed read counts as the end of the input
    let mut n = 0;
    while n < input.len() {
        match reader.read(&mut input[n..]) {
            Ok(0) | Err(_) => break,
            Ok(more) => n += more,
        }
    }
    n
}

fn main(rt: HostRuntime) -> io::Result<()> {
    let layout = asked(&rt);
    // one byte more than the longest image has, so that an input that is too long is seen
    let mut input = [0u8; 196609];
    // where no layout is asked for, the input is not looked at
    let n = match layout {
        Some(_) => read_full(&mut rt.stdin(), &mut input),
        None => 0,
    };
    let printed = sleeve::program_output(layout, &input[..n]);
    io::writer(&rt).write_all(parts::clipped(&printed.text, 0, printed.length))
}
