// The checker as a program: a task file and a weight file named as arguments, one line with the verdict, and on standard error the bytes at fault of a file that is
// refused for a number in it. A task file of more than 1,048,576 bytes and a weight file of more than 131,072 are refused as 8, whatever their bytes are; accepted
// tasks may be longer, and the library's own call takes them.

#![tactic(auto)]

ghost use Rattle.std.specs.Prelude.{IfSome};
ghost use Rattle.io.specs.Counts.{IsPrefixLen};

use arrayvec::ArrayString;
use std::env::FillError;
use std::fmt::Write;
use std::fs::File;
use std::io::{Error, Read};
use std::rt::{Env, Files};
use verdicts::{MOST_TASK, MOST_WEIGHTS, VERDICT_BYTES};

const STDOUT_FILENO: i32 = 1;

const STDERR_FILENO: i32 = 2;

// The program's own name, and the two files.
const ARGUMENTS: usize = 3;

// One byte more than the program takes, so that a longer file is seen.
const TASK_BYTES: usize = MOST_TASK + 1;

const WEIGHT_BYTES: usize = MOST_WEIGHTS + 1;

// Room for what the system says of a fault.
const MESSAGE_BYTES: usize = 512;

// Says what failed, and why.
fn say(what: &[u8], why: &[u8]) {
    io::write_all(STDERR_FILENO, what);
    io::write_all(STDERR_FILENO, b": ");
    io::write_all(STDERR_FILENO, why);
    io::write_all(STDERR_FILENO, b"\n");
}

// Says what failed in the system's words, without its number for the fault.
fn say_error(what: &[u8], error: &Error) {
    let mut told = ArrayString::<MESSAGE_BYTES>::new();
    let _ = write!(told, "{error}");
    let words = told.as_str();
    let why = match words.split_once(" (os error") {
        Some((before, _)) => before,
        None => words,
    };
    say(what, why.as_bytes());
}

// Reads an open file as far as there is room, and answers how many bytes it has till it ends or a read fails.
fn fill(file: &mut File, bytes: &mut [u8]) -> usize
    ensures { IsPrefixLen result bytes.new }
{
    let mut count = 0;
    while count < bytes.len() {
        match file.read(&mut bytes[count..]) {
            Ok(0) => {
                return count;
            }
            Ok(more) => {
                count += more;
            }
            Err(_) => {
                return count;
            }
        }
    }
    count
}

// Reads an open file, as far as there is room, and answers how many bytes it has; none where it can't be read. Where a read fails fewer bytes are counted, and the next read fails too.
fn read(file: &mut File, path: &[u8], bytes: &mut [u8]) -> Option<usize>
    ensures { IfSome result (λ count. IsPrefixLen count bytes.new) }
{
    let count = fill(file, bytes);
    let mut next = [0u8; 1];
    if let Err(error) = file.read(&mut next) {
        say_error(path, &error);
        return None;
    }
    Some(count)
}

// Opens the file of this name and reads it.
fn load_file(rt: &HostRuntime, path: &[u8], bytes: &mut [u8]) -> Option<usize>
    ensures { IfSome result (λ count. IsPrefixLen count bytes.new) }
{
    let name = match str::from_utf8(path) {
        Ok(name) => name,
        Err(_) => {
            say(path, b"Invalid argument");
            return None;
        }
    };
    match File::open(rt, name) {
        Ok(file) => {
            let mut file = file;
            read(&mut file, path, bytes)
        }
        Err(error) => {
            say_error(path, &error);
            None
        }
    }
}

// Reads the file that an argument names.
fn load(rt: &HostRuntime, argument: usize, bytes: &mut [u8]) -> Option<usize>
    ensures { IfSome result (λ count. IsPrefixLen count bytes.new) }
{
    let mut path = io::buffer();
    let why = match rt.arg(argument, &mut path) {
        Ok(length) => {
            return load_file(rt, &path[..length], bytes);
        }
        Err(FillError::TooLong) => b"File name too long".as_slice(),
        Err(FillError::NotPresent) => b"Invalid argument".as_slice(),
    };
    say(b"argument", why);
    None
}

// Whether the program was given this argument.
fn is_given(rt: &HostRuntime, argument: usize) -> bool {
    let mut word = io::buffer();
    match rt.arg(argument, &mut word) {
        Err(FillError::NotPresent) => false,
        _ => true,
    }
}

// Shows the bytes at fault on standard error, in hexadecimal, if there are any.
fn show<'a>(task: &'a [u8], weights: &'a [u8]) {
    let part = showing::display(task, weights);
    if part.is_empty() {
        return;
    }
    io::write_all(STDERR_FILENO, b"bytes");
    for byte in part {
        io::write_all(STDERR_FILENO, b" ");
        io::print_hex(STDERR_FILENO, *byte as u64, 2);
    }
    io::write_all(STDERR_FILENO, b"\n");
}

// Prints the line for the two files, and shows the bytes at fault. Only a line for a refusal has an `f` there, and where a file is too long nothing is judged.
fn print<'a>(task: &'a [u8], weights: &'a [u8]) {
    let mut room = [0u8; VERDICT_BYTES];
    let printed = verdicts::program_line(task, weights, &mut room);
    io::write_all(STDOUT_FILENO, text::line_in(printed, &room));
    if room[2] != b'f' {
        return;
    }
    if !verdicts::are_long(task, weights) {
        show(task, weights);
    }
}

// Checks the second file against the first, in the room that each has.
fn check(rt: &HostRuntime, task: &mut [u8], weights: &mut [u8]) {
    let Some(n) = load(rt, 1, task) else {
        return;
    };
    let Some(m) = load(rt, 2, weights) else {
        return;
    };
    print(&task[..n], &weights[..m]);
}

fn main(rt: HostRuntime) {
    if !is_given(&rt, ARGUMENTS - 1) || is_given(&rt, ARGUMENTS) {
        io::write_all(STDERR_FILENO, b"usage: checker TASK WEIGHTS\n");
        return;
    }
    let mut task = [0u8; TASK_BYTES];
    let mut weights = [0u8; WEIGHT_BYTES];
    check(&rt, &mut task, &mut weights);
}
