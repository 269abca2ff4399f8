//! A source over the file that a word names.

ghost use Rattle.std.specs.Prelude.{◌≡◌, ℕ, ◌<◌, ◌≤◌, length, None, IsSome};
ghost use Rattle.std.specs.Option.{option_map};
ghost use Rattle.nomos_base.specs.Faults.{next_count};
ghost use Rattle.nomos_base.specs.Source.{Reads};
ghost use Rattle.nomos_files.specs.FaultCounting.{count_after_read, GetsSome, TakesBy};

use crate::over_file::OverFile;
use nomos_base::{Got, Source};
use std::fs::{File, Files};
use std::io::Read;
use std::marker::Model;

/// A source over the file that a word names, or over none: then every read fails. It does not tell what
/// is left. A contract sees it as the word, and the counts of its reads and of those that failed.
#[derive(Drop)]
pub struct FileSource<'a> {
    word: Option<&'a str>,
    file: Option<File>,
    calls: u64,
    faults: u64,
}

impl<'a> Model for FileSource<'a> {
    ghost use Rattle.std.specs.Option.{option_map};
    ghost use Rattle.nomos_files.specs.NamedFile.{NamedFile};

    ghost Value = { NamedFile };

    ghost view = { λ source. record {
      word = option_map (λ word. word.now) source.word;
      calls = source.calls;
      faults = source.faults;
    } };
}

impl<'a> FileSource<'a> {
    /// A source over the file that this word names, which was not read yet. Where there is no word, or its file cannot
    /// be opened for reading, it is over none.
    pub fn open<R: Files<File = File>>(rt: &R, word: Option<&'a str>) -> Self
        ensures word { result.word ≡ option_map (λ name. name.now) word.entry }
        ensures calls { result.calls ≡ 0 }
        ensures faults { result.faults ≡ 0 }
    {
        FileSource {
            word,
            file: opened(rt, word),
            calls: 0,
            faults: 0,
        }
    }

    /// How many reads were made.
    pub fn calls(&self) -> u64
        ensures { result ≡ self.now.calls }
    {
        self.calls
    }

    /// How many reads failed.
    pub fn faults(&self) -> u64
        ensures { result ≡ self.now.faults }
    {
        self.faults
    }
}

impl<'a> OverFile for FileSource<'a> {
    ghost word = { λ source. source.word };
}

impl<'a> Source for FileSource<'a> {
    ghost left = { λ _. None };

    ghost faults = { λ source. source.faults };

    fn read(&mut self, into: &mut [u8]) -> Got
        requires { 0 < length into.old }
        ensures answer { Reads result into.new None None self.old.faults self.new.faults }
        ensures never_falls { self.old.faults ≤ self.new.faults }
        ensures counted { self.new.faults ≡ count_after_read result self.old.faults }
        ensures called { self.new.calls ≡ next_count self.old.calls }
        ensures word { self.new.word ≡ self.old.word }
    {
        self.calls = self.calls.saturating_add(1);
        let got = read_piece(&mut self.file, into);
        if matches!(&got, Got::Failed) {
            self.faults = self.faults.saturating_add(1);
        }
        got
    }
}

// The file that this word names, opened for reading, if there is a word and its file can be opened.
fn opened<R: Files<File = File>>(rt: &R, word: Option<&str>) -> Option<File>
    ensures { IsSome result → IsSome word.entry }
{
    match word {
        Some(word) => File::open(rt, word).ok(),
        None => None,
    }
}

// Reads once. Where there is no file, or the system reports an error, the read failed.
fn read_piece(file: &mut Option<File>, into: &mut [u8]) -> Got
    requires { 0 < length into.old }
    ensures { GetsSome result into.new }
{
    match file {
        None => Got::Failed,
        Some(file) => read_once(file, into),
    }
}

// Reads once from whatever can be read. What it is known to give is taken just as the answer says; where the read
// failed, nothing is.
fn read_once<R: Read>(reader: &mut R, into: &mut [u8]) -> Got
    requires { 0 < length into.old }
    ensures some { GetsSome result into.new }
    ensures taken { TakesBy result into.new (R.remaining reader.old) (R.remaining reader.new) }
{
    match reader.read(into) {
        Ok(0) => Got::End,
        Ok(count) => Got::Got(count),
        Err(_) => Got::Failed,
    }
}
