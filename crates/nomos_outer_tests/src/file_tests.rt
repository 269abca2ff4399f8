//! Tests: files and standard output at the real system.

use nomos_base::{Got, Put, Sink, Source};
use nomos_files::{FileSource, OutputSink};
use std::{env, fs, io};

// How many bytes a read got, 0 at the end, or none where it failed.
fn bytes_got(got: Got) -> Option<usize> {
    match got {
        Got::Got(count) => Some(count),
        Got::End => Some(0),
        Got::Failed => None,
    }
}

// How many bytes a write put, or none where it failed.
fn bytes_put(put: Put) -> Option<usize> {
    match put {
        Put::Wrote(count) => Some(count),
        Put::Failed => None,
    }
}

// Without a file each read fails, and so does a read of a folder. A file gives its bytes and then ends.
#[test]
fn reads_a_file(rt: HostRuntime) -> io::Result<()> {
    let mut into = [0u8; 8];
    let mut absent = FileSource::open(&rt, None);
    for reads in 1u64..3 {
        assert_eq!(rt; bytes_got(absent.read(&mut into)), None);
        assert_eq!(rt; absent.faults(), reads);
    }
    let folder = env::temp_dir(&rt)?;
    let mut source = FileSource::open(&rt, Some(folder.as_str()));
    assert_eq!(rt; bytes_got(source.read(&mut into)), None);
    assert_eq!(rt; source.faults(), 1);
    let path = folder.join(rt.alloc(), "nomos_reads_a_file")?;
    fs::write(&rt, path.as_path(), "type")?;
    let mut source = FileSource::open(&rt, Some(path.as_str()));
    fs::remove_file(&rt, path.as_path())?;
    assert_eq!(rt; bytes_got(source.read(&mut into)), Some(4));
    assert_eq!(rt; &into[..4], b"type".as_slice());
    assert_eq!(rt; bytes_got(source.read(&mut into)), Some(0));
    assert_eq!(rt; source.faults(), 0);
    Ok(())
}

// Standard output takes what it is given.
#[test]
fn writes_to_standard_output(rt: HostRuntime) {
    let mut sink = OutputSink::stdout(&rt, rt.stdout());
    assert_eq!(rt; bytes_put(sink.write(b"\n")), Some(1));
    assert_eq!(rt; sink.faults(), 0);
}

// A file is made at the first write, takes what it is given, and loses what it had; without a word each write fails.
#[test]
fn writes_a_file(rt: HostRuntime) -> io::Result<()> {
    let mut nowhere = OutputSink::file(&rt, None);
    assert_eq!(rt; bytes_put(nowhere.write(b"a")), None);
    assert_eq!(rt; nowhere.faults(), 1);
    let path = env::temp_dir(&rt)?.join(rt.alloc(), "nomos_writes_a_file")?;
    fs::write(&rt, path.as_path(), "before")?;
    let mut sink = OutputSink::file(&rt, Some(path.as_str()));
    assert_eq!(rt; fs::read_to_string(&rt, path.as_path())?.as_str(), "before");
    assert_eq!(rt; bytes_put(sink.write(b"one")), Some(3));
    assert_eq!(rt; bytes_put(sink.write(b"two")), Some(3));
    assert_eq!(rt; fs::read_to_string(&rt, path.as_path())?.as_str(), "onetwo");
    assert_eq!(rt; sink.faults(), 0);
    fs::remove_file(&rt, path.as_path())?;
    Ok(())
}
