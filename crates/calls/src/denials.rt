// The file of denied prefixes that the program's argument names, read before the first line. Where it can't be used, `R` and the number of the
// refusal, or `E`, is the only output.
ghost use Rattle.std.specs.Prelude.{◌≤◌, length, IfSome};

use input::read_full;
use refusal::Refusal;
use state::{Bookkeeping, deny, fresh_bookkeeping};
use std::env::{Env, FillError};
use std::fs::File;
use std::io;
use std::io::Read;
use std::rt::Files;

// `E` is the only output, and the reason stands on standard error.
fn unreadable(rt: &(impl Print + Eprint), reason: &str) {
    let _ = rt.eprintln(reason);
    let _ = rt.println("E");
}

fn write_refusal(rt: &impl Print, refusal: Refusal) {
    let number = refusal.number();
    let _ = println!(rt; "R\t{number}");
}

// Names the file on standard error, and says what failed.
fn tell(rt: &impl Eprint, path: &str, error: io::Error) {
    let _ = eprintln!(rt; "{path}: {error}");
}

// The file's bytes, put at the front of the input; how many they are, where the file was read to its end. Where no more are left in the file,
// and none failed to be read, the next read has none.
fn read_open<F: Read>(rt: &impl Eprint, path: &str, file: &mut F, input: &mut [u8]) -> Option<usize>
    ensures { IfSome result (λ n. n ≤ length input.old) }
{
    let length = read_full(file, input);
    let mut next = [0u8; 1];
    match file.read(&mut next) {
        Ok(0) => Some(length),
        Ok(_) => None,
        Err(error) => {
            tell(rt, path, error);
            None
        }
    }
}

fn read_file(rt: &(impl Files + Eprint), path: &str, input: &mut [u8]) -> Option<usize>
    ensures { IfSome result (λ n. n ≤ length input.old) }
{
    match File::open(rt, path) {
        Ok(mut file) => read_open(rt, path, &mut file, input),
        Err(error) => {
            tell(rt, path, error);
            None
        }
    }
}

// The relay with the prefixes of a text.
fn with_denied(rt: &impl Print, text: &[u8]) -> Option<Bookkeeping> {
    let mut bookkeeping = fresh_bookkeeping();
    match deny(&mut bookkeeping, text) {
        Ok(_) => Some(bookkeeping),
        Err(refusal) => {
            write_refusal(rt, refusal);
            None
        }
    }
}

fn with_file(
    rt: &(impl Files + Print + Eprint),
    path: &str,
    input: &mut [u8],
) -> Option<Bookkeeping> {
    match read_file(rt, path, input) {
        Some(length) => with_denied(rt, &input[..length]),
        None => {
            unreadable(
                rt,
                "calls: the denied prefixes can't be read, or have more than 65,536 bytes",
            );
            None
        }
    }
}

// A path is UTF-8 text.
fn with_path(
    rt: &(impl Files + Print + Eprint),
    path: &[u8],
    input: &mut [u8],
) -> Option<Bookkeeping> {
    match str::from_utf8(path) {
        Ok(path) => with_file(rt, path, input),
        Err(_) => {
            unreadable(rt, "calls: the file's name is no UTF-8 text");
            None
        }
    }
}

fn has_second_argument(rt: &impl Env) -> bool {
    let mut second = [0u8; 1];
    match rt.arg(2, &mut second) {
        Err(FillError::NotPresent) => false,
        _ => true,
    }
}

// What is kept beside the slots at first, or none where no line is answered. The input is used for the file's bytes.
pub(crate) fn begin(
    rt: &(impl Env + Files + Print + Eprint),
    input: &mut [u8],
) -> Option<Bookkeeping> {
    if has_second_argument(rt) {
        unreadable(rt, "calls: takes one argument, a file of denied prefixes");
        return None;
    }
    let mut path = [0u8; 4096];
    match rt.arg(1, &mut path) {
        Ok(size) => with_path(rt, &path[..size], input),
        Err(FillError::NotPresent) => Some(fresh_bookkeeping()),
        Err(FillError::TooLong) => {
            unreadable(rt, "calls: the file's name is too long");
            None
        }
    }
}
