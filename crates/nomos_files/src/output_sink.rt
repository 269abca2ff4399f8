//! A sink over the standard output, or over a file that is made when the first bytes come.

ghost use Rattle.std.specs.Prelude.{◌≡◌, ◌<◌, ◌≤◌, length, None, IsSome};
ghost use Rattle.std.specs.Option.{option_map};
ghost use Rattle.nomos_base.specs.Faults.{next_count};
ghost use Rattle.nomos_base.specs.Sink.{Writes};
ghost use Rattle.nomos_files.specs.FaultCounting.{count_after_write, AddsBy, PutsSome};

use crate::over_file::OverFile;
use nomos_base::{Put, Sink};
use std::fs::{File, Files};
use std::io::{Stdout, Write};
use std::marker::Model;

// Where bytes go.
#[derive(Drop)]
enum Target {
    /// To the standard output, without a buffer: what it took is out.
    Stdout(Stdout),
    /// To a file that is made at the first write; what it had is lost then.
    Unmade,
    /// To a file that was made.
    Made(File),
}

/// A sink over the standard output, or over the file that a word names, or over none: then every write fails. A file is
/// made at the first write, so a sink that is never written leaves an earlier file alone; where it cannot be made, the
/// write fails. A sink does not tell what was written. A contract sees it as the word, which the standard output has
/// not, and the counts of its writes and of those that failed.
#[derive(Drop)]
pub struct OutputSink<'a, R: Files<File = File>> {
    files: &'a R,
    word: Option<&'a str>,
    target: Target,
    calls: u64,
    faults: u64,
}

impl<'a, R: Files<File = File>> Model for OutputSink<'a, R> {
    ghost use Rattle.std.specs.Option.{option_map};
    ghost use Rattle.nomos_files.specs.NamedFile.{NamedFile};

    ghost Value = { NamedFile };

    ghost view = { λ sink. record {
      word = option_map (λ word. word.now) sink.word;
      calls = sink.calls;
      faults = sink.faults;
    } };
}

impl<'a, R: Files<File = File>> OutputSink<'a, R> {
    /// A sink over this stream, which was not written yet.
    pub fn stdout(files: &'a R, stdout: Stdout) -> Self
        ensures word { result.word ≡ None }
        ensures calls { result.calls ≡ 0 }
        ensures faults { result.faults ≡ 0 }
    {
        OutputSink {
            files,
            word: None,
            target: Target::Stdout(stdout),
            calls: 0,
            faults: 0,
        }
    }

    /// A sink over the file that this word names, which was not written yet. Where there is no word, it is over none.
    pub fn file(files: &'a R, word: Option<&'a str>) -> Self
        ensures word { result.word ≡ option_map (λ name. name.now) word.entry }
        ensures calls { result.calls ≡ 0 }
        ensures faults { result.faults ≡ 0 }
    {
        OutputSink {
            files,
            word,
            target: Target::Unmade,
            calls: 0,
            faults: 0,
        }
    }

    /// How many writes were made.
    pub fn calls(&self) -> u64
        ensures { result ≡ self.now.calls }
    {
        self.calls
    }

    /// How many writes failed.
    pub fn faults(&self) -> u64
        ensures { result ≡ self.now.faults }
    {
        self.faults
    }
}

impl<'a, R: Files<File = File>> OverFile for OutputSink<'a, R> {
    ghost word = { λ sink. sink.word };
}

impl<'a, R: Files<File = File>> Sink for OutputSink<'a, R> {
    ghost written = { λ _. None };

    ghost faults = { λ sink. sink.faults };

    fn write(&mut self, from: &[u8]) -> Put
        requires { 0 < length from.now }
        ensures answer { Writes result from.now None None self.old.faults self.new.faults }
        ensures never_falls { self.old.faults ≤ self.new.faults }
        ensures counted { self.new.faults ≡ count_after_write result self.old.faults }
        ensures called { self.new.calls ≡ next_count self.old.calls }
        ensures word { self.new.word ≡ self.old.word }
    {
        self.calls = self.calls.saturating_add(1);
        let put = write_to(self.files, self.word, &mut self.target, from);
        if matches!(&put, Put::Failed) {
            self.faults = self.faults.saturating_add(1);
        }
        put
    }
}

// Writes once to where bytes go; a file that is not there yet is made first.
fn write_to<R: Files<File = File>>(
    files: &R,
    word: Option<&str>,
    target: &mut Target,
    from: &[u8],
) -> Put
    ensures { PutsSome result from.now }
{
    match target {
        Target::Stdout(stdout) => write_piece(stdout, from),
        Target::Made(file) => write_piece(file, from),
        Target::Unmade => match made(files, word) {
            Some(mut file) => {
                let put = write_piece(&mut file, from);
                *target = Target::Made(file);
                put
            }
            None => Put::Failed,
        },
    }
}

// The file that this word names, made anew, if there is a word and it can be made.
fn made<R: Files<File = File>>(files: &R, word: Option<&str>) -> Option<File>
    ensures { IsSome result → IsSome word.entry }
{
    match word {
        Some(word) => File::create(files, word).ok(),
        None => None,
    }
}

// Writes once. Where nothing is taken, or the system reports an error, the write failed.
fn write_piece<W: Write>(writer: &mut W, from: &[u8]) -> Put
    ensures some { PutsSome result from.now }
    ensures added { AddsBy result from.now (W.contents writer.old) (W.contents writer.new) }
{
    match writer.write(from) {
        Ok(0) | Err(_) => Put::Failed,
        Ok(count) => Put::Wrote(count),
    }
}
