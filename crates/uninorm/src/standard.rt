//! Files, the standard streams, and reports on standard error.
ghost use Rattle.std.specs.Prelude.{None, ⊤};
ghost use Rattle.normalizer_command.specs.Devices.{unknown};

use normalizer_command::devices::{Inputs, Reports};
use normalizer_command::fault::Fault;
use normalizer_command::message::Message;
use normalizer_io::{DeviceError, Input, Source, Target};
use std::cell::Cell;
use std::fs::{self, File, Metadata};
use std::io::{self, ErrorKind, Stdin, Stdout, Write};
use std::os::unix::fs::MetadataExt;

/// What standard input is open on.
const INPUT: &str = "/proc/self/fd/0";

/// What standard output is open on.
const OUTPUT: &str = "/proc/self/fd/1";

/// The device of a file, and its number there.
type Identity = (u64, u64);

/// The files of the system, and standard input.
#[derive(Drop)]
pub(crate) struct Named<'a> {
    rt: &'a HostRuntime,
    unclear: &'a [String],
    output: Option<Identity>,
    only_regular: bool,
}

impl<'a> Named<'a> {
    /// The files of the system, or its regular files, but for those whose names aren't UTF-8. Standard output is looked
    /// at before any file is opened, which may take its number if it is closed.
    pub(crate) fn new(rt: &'a HostRuntime, unclear: &'a [String], only_regular: bool) -> Named<'a> {
        let output = match fs::metadata(rt, OUTPUT) {
            Ok(output) if output.is_file() => Some(identity(&output)),
            _ => None,
        };
        Named {
            rt,
            unclear,
            output,
            only_regular,
        }
    }

    /// Standard input, unless it is the output.
    fn standard(&self) -> Result<Stream, ErrorKind> {
        match fs::metadata(self.rt, INPUT) {
            Ok(input) if self.is_output(&input) => Err(ErrorKind::Deadlock),
            _ => Ok(Stream::Standard(Input(self.rt.stdin()))),
        }
    }

    /// An open file that isn't a directory, and isn't the output.
    fn file(&self, name: &str) -> io::Result<File> {
        let metadata = fs::metadata(self.rt, name)?;
        if metadata.is_dir() {
            return Err(io::Error::from(ErrorKind::IsADirectory));
        }
        if self.only_regular && !metadata.is_file() {
            return Err(io::Error::from(ErrorKind::Unsupported));
        }
        let file = fs::open(self.rt, name)?;
        if self.is_output(&file.metadata()?) {
            return Err(io::Error::from(ErrorKind::Deadlock));
        }
        Ok(file)
    }

    fn is_output(&self, input: &Metadata) -> bool {
        self.output == Some(identity(input))
    }

    fn is_unclear(&self, name: &str) -> bool {
        self.unclear.iter().any(|it| it.as_str() == name)
    }
}

fn identity(metadata: &Metadata) -> Identity {
    (metadata.dev(), metadata.ino())
}

/// An open file, or standard input.
#[derive(Drop)]
pub(crate) enum Stream {
    Standard(Input<Stdin>),
    File(Input<File>),
}

impl Source for Stream {
    // What the system returns is unknown.
    ghost bytes_left = { λ _. None };

    ghost refusal = { λ _ _. ⊤ };

    fn read(&mut self, buffer: &mut [u8]) -> Result<usize, DeviceError> {
        match self {
            Stream::Standard(input) => input.read(buffer),
            Stream::File(input) => input.read(buffer),
        }
    }
}

impl Inputs for Named<'_> {
    type Input = Stream;

    // What the system has is unknown.
    ghost files = { λ _. unknown };

    fn open(&self, name: &str) -> Result<Stream, ErrorKind> {
        if name == "-" {
            return self.standard();
        }
        if self.is_unclear(name) {
            return Err(ErrorKind::InvalidData);
        }
        match self.file(name) {
            Ok(file) => Ok(Stream::File(Input(file))),
            Err(error) => Err(error.kind()),
        }
    }
}

/// Standard output, which may be a pipe that nobody reads any more.
#[derive(Drop)]
pub(crate) struct Printed<'a> {
    output: Stdout,
    closed: &'a Cell<bool>,
}

impl<'a> Printed<'a> {
    /// Standard output, and a place where it is noted that nobody reads it any more.
    pub(crate) fn new(rt: &HostRuntime, closed: &'a Cell<bool>) -> Printed<'a> {
        Printed {
            output: rt.stdout(),
            closed,
        }
    }
}

impl Target for Printed<'_> {
    // What the system takes is unknown.
    ghost bytes_taken = { λ _. None };

    ghost refusal = { λ _ _. ⊤ };

    fn write(&mut self, bytes: &[u8]) -> Result<usize, DeviceError> {
        match self.output.write(bytes) {
            Ok(0) if !bytes.is_empty() => Err(DeviceError),
            Ok(count) => Ok(count),
            Err(error) => {
                if error.kind() == ErrorKind::BrokenPipe {
                    self.closed.set(true);
                }
                Err(DeviceError)
            }
        }
    }
}

/// Standard error, of which nothing is known. It doesn't know of an output that nobody reads any more.
#[derive(Drop)]
pub(crate) struct ErrorStream<'a> {
    rt: &'a HostRuntime,
    closed: &'a Cell<bool>,
}

impl<'a> ErrorStream<'a> {
    pub(crate) fn new(rt: &'a HostRuntime, closed: &'a Cell<bool>) -> ErrorStream<'a> {
        ErrorStream { rt, closed }
    }
}

impl Reports for ErrorStream<'_> {
    ghost reports = { λ _. None };

    fn report(&mut self, message: Message<'_>) {
        if message.fault == Fault::Write && self.closed.get() {
            return;
        }
        let _ = eprintln!(self.rt; "uninorm: {message}");
    }
}
