// Standard input read to its end, and standard output written whole. A call that fails is told apart from the end of the input and said on standard error.
#![tactic(auto)]

ghost use Rattle.std.specs.Prelude.{◌≡◌, ◌<◌, IfOk, MatchResult, OnOk, length, take};
ghost use Rattle.std.specs.Io.KnownBytes.{Appends, Consumes, IsAtEnd};
ghost use Rattle.std.specs.Process.{exit_status};
ghost use Rattle.streams.specs.Counts.{IsPrefixLen};

use std::fmt::{Display, Write as _};
use std::io::{Read, Write};
use std::process::ExitCode;
use std::{fmt, io, str};

// The stream that failed, and why.
#[derive(Clone, Copy)]
pub enum Failure {
    Input(io::Error),
    Output(io::Error),
}

// Reads until the buffer is full, the input ends or a read fails: a part of an input that could not be read whole is not handed out.
pub fn read_input<R: Read>(input: &mut R, buffer: &mut [u8]) -> Result<usize, Failure>
    ensures count { IfOk result (λ count. IsPrefixLen count buffer.new) }
    ensures bytes { IfOk result (λ count. Consumes (R.remaining input.old) (R.remaining input.new) (take count buffer.new)) }
    ensures end { IfOk result (λ count. count < length buffer.new → IsAtEnd (R.remaining input.new)) }
{
    let mut at: usize = 0;
    while at < buffer.len() {
        match input.read(&mut buffer[at..]) {
            Ok(0) => break,
            Ok(count) => at += count,
            Err(error) => return Err(Failure::Input(error)),
        }
    }
    Ok(at)
}

// Writes all the bytes, or fails.
pub fn write_output<W: Write>(output: &mut W, bytes: &[u8]) -> Result<(), Failure>
    ensures { OnOk result (Appends (W.contents output.old) (W.contents output.new) bytes.now) }
{
    output.write_all(bytes).map_err(Failure::Output)
}

// The text of an error, as far as it has room.
#[derive(Drop)]
struct Said {
    bytes: [u8; 80],
    len: usize,
}

impl fmt::Write for Said {
    fn write_str(&mut self, s: &str) -> fmt::Result {
        for b in s.as_bytes() {
            if self.len < self.bytes.len() {
                self.bytes[self.len] = *b;
                self.len += 1;
            }
        }
        Ok(())
    }
}

// The system's words for an error: std's, without the number that it puts behind them.
fn put_words<W: fmt::Write>(error: &io::Error, f: &mut fmt::Formatter<W>) -> fmt::Result {
    let mut said = Said {
        bytes: [0; 80],
        len: 0,
    };
    write!(said, "{error}")?;
    let text = str::from_utf8(said.bytes.get(..said.len).unwrap_or(b"")).unwrap_or("");
    f.write_str(
        text.split_once(" (os error ")
            .map_or(text, |(words, _)| words),
    )
}

impl Display for Failure {
    fn fmt<W: fmt::Write>(&self, f: &mut fmt::Formatter<W>) -> fmt::Result {
        match self {
            Failure::Input(error) => {
                f.write_str("standard input could not be read: ")?;
                put_words(error, f)
            }
            Failure::Output(error) => {
                f.write_str("standard output could not be written: ")?;
                put_words(error, f)
            }
        }
    }
}

// What a program ends with: a failure is said on standard error.
pub fn ended(rt: &impl Eprint, ran: Result<(), Failure>) -> ExitCode
    ensures { MatchResult ran (λ _. exit_status result ≡ 0) (λ _. exit_status result ≡ 1) }
{
    match ran {
        Ok(()) => ExitCode::SUCCESS,
        Err(failure) => {
            let _ = eprintln!(rt; "{failure}");
            ExitCode::FAILURE
        }
    }
}
