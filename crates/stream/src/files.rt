// The files that a program's arguments name.
//
// A program writes a new file and replaces none: `./rtp` gives it a name that is free, and the file its own name when all is
// written.
ghost use Rattle.std.specs.Prelude.{◌≡◌, IfErr};
ghost use Rattle.stream.specs.Files.{account_to, OpenedFor};
ghost use Rattle.stream.specs.declared.status.Status.TheVariants.{Failed};

use crate::status;
use crate::status::Status;
use std::fs::{File, OpenOptions};
use std::io;
use std::io::{Error, ErrorKind, Write};
use std::rt::Env;

// Where a program writes: to one of its two standard streams, or to a file that it made.
#[derive(Drop)]
pub enum Output {
    Stdout,
    Stderr,
    File(File),
}

impl Output {
    // Writes all of the bytes, or fails.
    pub fn write_all(&mut self, rt: &HostRuntime, bytes: &[u8]) -> io::Result<()> {
        match self {
            Output::Stdout => rt.stdout().write_all(bytes),
            Output::Stderr => rt.stderr().write_all(bytes),
            Output::File(file) => file.write_all(bytes),
        }
    }

    // Fails where what was written does not arrive: a file that a program made is on its disk, then.
    fn close(self) -> io::Result<()> {
        match self {
            Output::File(file) => file.sync_all(),
            _ => Ok(()),
        }
    }
}

// Input and output.
#[derive(Drop)]
pub struct Files {
    pub from: File,
    pub to: Output,
}

// A name is text: the system takes others too, but the library does not.
fn text_of(path: &[u8]) -> io::Result<&str> {
    std::str::from_utf8(path).map_err(|_| Error::new(
        ErrorKind::InvalidInput,
        "a name that is not UTF-8",
    ))
}

fn open_as(rt: &HostRuntime, path: &[u8]) -> io::Result<File> {
    File::open(rt, text_of(path)?)
}

// `-` stands for standard output.
fn create_as(rt: &HostRuntime, path: &[u8]) -> io::Result<Output> {
    if path == b"-".as_slice() {
        return Ok(Output::Stdout);
    }
    let file = OpenOptions::new()
        .write(true)
        .create_new(true)
        .open(rt, text_of(path)?)?;
    Ok(Output::File(file))
}

// What comes of the name that argument i gives: an empty one where it is not there, or longer than a name can be. Where that fails, it
// has said why.
fn named<T, F: FnOnce(&HostRuntime, &[u8]) -> io::Result<T>>(
    rt: &HostRuntime,
    i: usize,
    take: F,
) -> Result<T, Status>
    requires { F.IsAlwaysCallable take }
    ensures { IfErr result (λ status. status ≡ Failed) }
{
    let mut path = [0u8; 4096];
    let len = rt.arg(i, &mut path).unwrap_or(0);
    take(rt, &path[..len]).map_err(|e| status::failed(rt, &path[..len], e))
}

// Opens the file that argument i names for reading. Where that fails, it has said why.
pub fn open(rt: &HostRuntime, i: usize) -> Result<File, Status>
    ensures { IfErr result (λ status. status ≡ Failed) }
{
    named(rt, i, open_as)
}

// Makes the file that argument i names new for writing. Where that fails, it has said why.
pub fn create(rt: &HostRuntime, i: usize) -> Result<Output, Status>
    ensures { IfErr result (λ status. status ≡ Failed) }
{
    named(rt, i, create_as)
}

// Opens what the first argument names, and then makes what the second does, where the others are right: these come back beside the files.
pub fn open_files<A: Copy>(
    rt: &HostRuntime,
    others: Result<A, Status>,
) -> Result<(A, Files), Status>
    ensures { OpenedFor others result }
{
    let others = others?;
    let from = open(rt, 1)?;
    let to = create(rt, 2)?;
    Ok((others, Files { from, to }))
}

// Where the account goes: to standard error where standard output has the data.
pub fn account_to(data: &Output) -> Output
    ensures { result ≡ account_to «data».now }
{
    match data {
        Output::Stdout => Output::Stderr,
        _ => Output::Stdout,
    }
}

// Writes the account and closes the data.
pub fn finish(rt: &HostRuntime, account: &str, data: Output) -> Result<(), Status>
    ensures { IfErr result (λ status. status ≡ Failed) }
{
    account_to(&data)
        .write_all(rt, account.as_bytes())
        .map_err(|e| status::unwritten(rt, e))?;
    data.close().map_err(|e| status::unwritten(rt, e))
}
