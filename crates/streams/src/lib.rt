#![tactic(auto)]

// Standard input and output of a program, whole or with a line on standard error that says what went wrong. A program hands
// in its streams: err is standard error.
ghost use Rattle.std.specs.Prelude.{◌≡◌, ◌≤◌, leb, ltb, length, IfOk, is_err, is_ok};
ghost use Rattle.std.specs.Counts.{IsPrefixLen};

use std::env::{Env, FillError};
use std::io::{Input, IsTerminal, Print, Read, Write};
use std::{io, str};

// The system's reason for an error, as text in the room that is lent: what is printed of the error, without its number.
fn reason<'a>(error: &io::Error, room: &'a mut [u8; 256]) -> &'a str {
    let mut front = &mut room[..];
    let _ = write!(front, "{error}");
    let text = str::from_utf8(room).unwrap_or("");
    match text.split_once(" (os error ") {
        Some((words, _)) => words,
        None => text.trim_end_matches('\0'),
    }
}

// A line on standard error: the program's name, what failed, and the system's reason.
fn tell(err: &impl Print, program: &[u8], what: &[u8], error: &io::Error) {
    let mut room = [0u8; 256];
    let _ = err.write_all(program);
    let _ = err.write_all(b": ");
    let _ = err.write_all(what);
    let _ = err.write_all(b": ");
    let _ = err.write_all(reason(error, &mut room).as_bytes());
    let _ = err.write_all(b"\n");
}

// Reads standard input to its end, or until buf is full or reading fails, and answers how many bytes came. Rooms are
// fixed, without a heap; a read takes as many bytes as the system gives, so no element is counted by hand.
pub fn read(input: &impl Input, buf: &mut [u8]) -> usize
    ensures { IsPrefixLen result buf.new }
{
    let mut reader = input.reader();
    let mut done = 0;
    while done < buf.len() {
        match reader.read(&mut buf[done..]) {
            Ok(0) | Err(_) => break,
            Ok(n) => done += n,
        }
    }
    done
}

// What one read more answers where a read has stopped: its own error, and no other, if reading failed. A terminal is not
// asked again: what is typed there has ended.
pub fn next<I: Input>(input: &I) -> io::Result<usize>
where
    I::Reader: IsTerminal,
    ensures { IfOk result (λ n. n ≤ 1) }
{
    let mut reader = input.reader();
    if reader.is_terminal() {
        return Ok(0);
    }
    let mut next = [0u8; 1];
    reader.read(&mut next)
}

// Whether reading has failed, by what one read more answered. Where it has, a line says why.
pub fn failed(err: &impl Print, next: io::Result<usize>, program: &[u8]) -> bool
    ensures { result ≡ is_err next }
{
    match next {
        Ok(_) => false,
        Err(e) => {
            tell(err, program, b"standard input can't be read", &e);
            true
        }
    }
}

// Whether standard output took the whole text, as its writing answered. Where it did not, a line says why.
pub fn written(err: &impl Print, whole: io::Result<()>, program: &[u8]) -> bool
    ensures { result ≡ is_ok whole }
{
    match whole {
        Ok(()) => true,
        Err(e) => {
            tell(err, program, b"standard output can't be written whole", &e);
            false
        }
    }
}

// Writes the front of some bytes to standard output, and answers whether there are as many.
pub fn write_front(
    out: &impl Print,
    err: &impl Print,
    bytes: &[u8],
    count: usize,
    program: &[u8],
) -> bool
    ensures { result ≡ leb count (length bytes.now) }
{
    if bytes.len() < count {
        return false;
    }
    written(err, out.write_all(&bytes[0..count]), program);
    true
}

// Enough to tell a program's name alone from one argument and from more.
pub const MANY: usize = 3;

// How many arguments a program has, its own name among them; no more than `most` are looked for.
pub fn arg_count(env: &impl Env, most: usize) -> usize
    ensures { result ≤ most }
{
    let mut room = [0u8; 1];
    for i in 0..most {
        if let Err(FillError::NotPresent) = env.arg(i, &mut room) {
            return i;
        }
    }
    most
}

// Whether a program has no argument, by the count that its own name is part of. Where it has, its usage is told: on standard
// output if --help is the only one, else on standard error.
pub fn no_arguments(
    rt: &(impl Env + Print),
    err: &impl Print,
    count: usize,
    program: &[u8],
    usage: &[u8],
) -> bool
    ensures { result ≡ ltb count 2 }
{
    let none = count < 2;
    if !none {
        tell_usage(rt, err, count, program, usage);
    }
    none
}

fn tell_usage(
    rt: &(impl Env + Print),
    err: &impl Print,
    count: usize,
    program: &[u8],
    usage: &[u8],
) {
    if count == 2 && is_help(rt) {
        written(err, rt.write_all(usage), program);
    } else {
        let _ = err.write_all(usage);
    }
}

fn is_help(env: &impl Env) -> bool {
    let mut word = [0u8; 6];
    matches!(env.arg(1, &mut word), Ok(6)) && &word == b"--help"
}
