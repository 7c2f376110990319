//! The adapters of the system: the standard streams and a file.

use edge_io::{FileSource, Sink, Source, StdinSource, StdoutSink};
use std::fs;
use std::test::Fail;

/// The tests are run without input, so the standard input is at its end, and stays there. The standard output takes a byte.
#[test]
fn standard_streams(rt: HostRuntime) {
    let mut source = StdinSource::new(&rt);
    let mut byte = [0];
    let first = source.read(&mut byte);
    let second = source.read(&mut byte);
    assert!(rt; first == Ok(0) && second == Ok(0));
    let mut sink = StdoutSink::new(&rt);
    let written = sink.write(b"\n");
    assert!(rt; written == Ok(1));
}

/// Where the test of a file makes one, in the folder that it runs in.
const FILE: &str = "edge_io_file_source";

/// Reads a file of three bytes, two at a time, to its end and beyond.
fn is_read_to_its_end(source: &mut impl Source) -> bool {
    let mut two = [0; 2];
    let first = source.read(&mut two);
    let is_front = first == Ok(2) && two == *b"ab";
    let second = source.read(&mut two);
    let is_rest = second == Ok(1) && two[0] == b'c';
    let third = source.read(&mut two);
    let fourth = source.read(&mut two);
    is_front && is_rest && third == Ok(0) && fourth == Ok(0)
}

#[test]
fn a_file_is_read_to_its_end(rt: HostRuntime) -> Result<(), Fail> {
    fs::write(&rt, FILE, "abc")?;
    let mut source = FileSource::new(&rt, FILE);
    fs::remove_file(&rt, FILE)?;
    assert!(rt; is_read_to_its_end(&mut source));
    Ok(())
}

#[test]
fn an_absent_file_is_a_fault(rt: HostRuntime) {
    let mut absent = FileSource::new(&rt, "edge_io_absent");
    let mut byte = [0];
    let none = absent.read(&mut byte);
    assert!(rt; none.is_err());
}
