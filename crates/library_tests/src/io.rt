// Tests files, sources and sinks, in memory and of the system, each through its trait.
use rb_io::{
    Files, Got, HostFiles, HostSink, HostSource, MemFiles, MemSink, MemSource, ReadAll, Sink,
    Source, Wrote, print_all,
};
use std::alloc::Global;
use std::fs;
use std::os::unix::fs::{PermissionsExt, symlink};
use std::process::Abort;
use std::test::Fail;

// Calls of files and their results.
const IN_MEMORY: &str = "\
read in 5 => Done 12345
read in 5 => Failed
read in 4 => TooLong
read out 9 => Failed
write out abcde => Failed
write out abc => Failed
read out 9 => Failed
write out abcd => Done
write out  => Done
write none  => Failed
write in 67890 => Done
read in 9 => Done 67890
read out 9 => Done
read-faults in => 6
write-faults out => 6";

// Makes the call of a line, and shows the result and the bytes read.
fn ask<F: Files>(alloc: Global, files: &mut F, line: &str) -> Result<String, Fail> {
    let (kind, rest) = line.split_once(' ').ok_or("no name")?;
    let (name, operand) = rest.split_once(' ').unwrap_or((rest, ""));
    let mut read = Vec::new(alloc);
    let mut shown = match kind {
        "read" => {
            let limit = operand.parse::<usize>()?;
            format!(in alloc; "{:?}", files.read_all(name, limit, &mut read))?
        }
        "write" => format!(in alloc; "{:?}", files.write_all(name, operand.as_bytes()))?,
        "read-faults" => format!(in alloc; "{:?}", files.read_faults(name))?,
        _ => format!(in alloc; "{:?}", files.write_faults(name))?,
    };
    if !read.is_empty() {
        shown.push(' ')?;
        shown.push_str(str::from_utf8(&read)?)?;
    }
    Ok(shown)
}

fn ask_lines<F: Files>(
    rt: &impl Abort,
    alloc: Global,
    files: &mut F,
    lines: &str,
) -> Result<(), Fail> {
    for line in lines.lines() {
        let (question, wanted) = line.split_once(" => ").ok_or("no answer")?;
        let shown = ask(alloc, files, question)?;
        assert_eq!(rt; shown.as_str(), wanted, "{line}");
    }
    Ok(())
}

fn text(alloc: Global, text: &str) -> Result<String, Fail> {
    Ok(String::from_str(alloc, text)?)
}

fn numbers(alloc: Global, numbers: &[u64]) -> Result<Vec<u64>, Fail> {
    Ok(Vec::from_slice(alloc, numbers)?)
}

#[test]
fn files_in_memory(rt: HostRuntime) -> Result<(), Fail> {
    let alloc = rt.alloc();
    let mut files = MemFiles::new(alloc, numbers(alloc, &[2, 6])?);
    files.put(text(alloc, "in")?, Vec::from_slice(alloc, b"12345")?)?;
    files.prepare(text(alloc, "out")?, 4)?;
    ask_lines(&rt, alloc, &mut files, IN_MEMORY)
}

const OF_THE_SYSTEM: &str = "\
write library_tests_io.tmp short => Done
read library_tests_io.tmp 5 => Done short
read library_tests_io.tmp 4 => TooLong
read-faults library_tests_io.tmp => 0";

// Calls after the file was removed.
const REMOVED: &str = "\
read library_tests_io.tmp 5 => Failed
read-faults library_tests_io.tmp => 1
write no/such/folder x => Failed
write-faults library_tests_io.tmp => 2";

#[test]
fn files_of_the_system(rt: HostRuntime) -> Result<(), Fail> {
    let alloc = rt.alloc();
    let name = "library_tests_io.tmp";
    let mut long = Vec::new(alloc);
    for _ in 0..14_000 {
        long.extend_from_slice(b"0123456789")?;
    }
    let mut files = HostFiles::new(&rt);
    let mut read = Vec::new(alloc);
    assert!(rt; files.write_all(name, &long) == Wrote::Done);
    assert!(rt; files.read_all(name, 140_000, &mut read) == ReadAll::Done);
    assert!(rt; read == long);
    let mut nothing = Vec::new(alloc);
    assert!(rt; files.read_all(name, 139_999, &mut nothing) == ReadAll::TooLong);
    assert!(rt; nothing.is_empty());
    ask_lines(&rt, alloc, &mut files, OF_THE_SYSTEM)?;
    fs::remove_file(&rt, name)?;
    ask_lines(&rt, alloc, &mut files, REMOVED)
}

// The contents of a file of the system, with its permissions and the names that refer to it.
fn shown(rt: &HostRuntime, name: &str) -> Result<String, Fail> {
    let text = fs::read_to_string(rt, name)?;
    let rights = fs::metadata(rt, name)?.permissions().mode() & 0o7777;
    let is_link = fs::symlink_metadata(rt, name)?.is_symlink();
    Ok(format!(in rt.alloc(); "{text} {rights:o} {is_link}")?)
}

#[test]
fn files_that_take_the_place_of_others(rt: HostRuntime) -> Result<(), Fail> {
    let (old, link, like) = (
        "library_tests_old.tmp",
        "library_tests_link.tmp",
        "library_tests_like.tmp",
    );
    fs::write(&rt, old, "before")?;
    fs::set_permissions(&rt, old, fs::Permissions::from_mode(0o4640))?;
    fs::write(&rt, like, "like")?;
    fs::set_permissions(&rt, like, fs::Permissions::from_mode(0o4710))?;
    symlink(&rt, old, link)?;
    let mut files = HostFiles::new(&rt).with_permissions_of(like, like);
    assert!(rt; files.write_all(link, b"after") == Wrote::Done);
    assert_eq!(rt; shown(&rt, link)?.as_str(), "after 640 true");
    assert_eq!(rt; shown(&rt, old)?.as_str(), "after 640 false");
    assert!(rt; files.write_all(like, b"itself") == Wrote::Done);
    assert_eq!(rt; shown(&rt, like)?.as_str(), "itself 710 false");
    for name in [old, link, like] {
        fs::remove_file(&rt, name)?;
    }
    assert!(rt; files.write_all("/dev/null", b"gone") == Wrote::Done);
    Ok(())
}

// Reads a source to its end, with buffers of three bytes.
fn read_to_end<I: Source>(alloc: Global, source: &mut I) -> Result<Vec<u8>, Fail> {
    let mut all = Vec::new(alloc);
    let mut buf = [0u8; 3];
    for _ in 0..100 {
        match source.read(&mut buf) {
            Got::Bytes(0) => return Ok(all),
            Got::Bytes(count) => all.extend_from_slice(&buf[..count])?,
            Got::Failed => {}
        }
    }
    Ok(all)
}

#[test]
fn a_source_in_memory(rt: HostRuntime) -> Result<(), Fail> {
    let alloc = rt.alloc();
    let bytes = Vec::from_slice(alloc, b"abcdefg")?;
    let mut source = MemSource::new(bytes, numbers(alloc, &[1, 3])?);
    assert!(rt; source.read(&mut []) == Got::Failed);
    assert!(rt; source.read(&mut []) == Got::Bytes(0));
    let all = read_to_end(alloc, &mut source)?;
    assert!(rt; all.as_slice() == b"abcdefg".as_slice());
    assert!(rt; source.faults() == 2);
    Ok(())
}

// Single writes (`write`) and whole texts (`print`), and the results of the sink.
const WRITTEN: &str = "\
print abc => Took(3)
print d => Failed
write  => Took(0)
print xyz => Failed
write  => Took(0)";

// A slice as a sink takes as many bytes as fit, and then none.
const WRITTEN_TO_SLICE: &str = "\
write  => Took(0)
print abc => Took(3)
print de => Failed
write  => Took(0)";

fn write_lines<O: Sink>(
    rt: &impl Abort,
    alloc: Global,
    sink: &mut O,
    lines: &str,
) -> Result<(), Fail> {
    for line in lines.lines() {
        let (question, wanted) = line.split_once(" => ").ok_or("no answer")?;
        let (kind, bytes) = question.split_once(' ').ok_or("no bytes")?;
        let put = if kind == "print" {
            print_all(sink, bytes.as_bytes())
        } else {
            sink.write(bytes.as_bytes())
        };
        let shown = format!(in alloc; "{put:?}")?;
        assert_eq!(rt; shown.as_str(), wanted, "{line}");
    }
    Ok(())
}

#[test]
fn a_sink_in_memory(rt: HostRuntime) -> Result<(), Fail> {
    let alloc = rt.alloc();
    let mut sink = MemSink::new(alloc, 5, numbers(alloc, &[2])?)?;
    write_lines(&rt, alloc, &mut sink, WRITTEN)?;
    assert!(rt; sink.taken() == b"abcxy".as_slice());
    assert!(rt; sink.faults() == 2);
    Ok(())
}

#[test]
fn a_source_of_the_system(rt: HostRuntime) -> Result<(), Fail> {
    let alloc = rt.alloc();
    let mut source = HostSource::new(b"abcdefg".as_slice());
    let all = read_to_end(alloc, &mut source)?;
    assert!(rt; all.as_slice() == b"abcdefg".as_slice());
    assert!(rt; source.faults() == 0);
    Ok(())
}

#[test]
fn a_sink_of_the_system(rt: HostRuntime) -> Result<(), Fail> {
    let mut bytes = [0u8; 4];
    let mut sink = HostSink::new(bytes.as_mut_slice());
    write_lines(&rt, rt.alloc(), &mut sink, WRITTEN_TO_SLICE)?;
    assert!(rt; sink.faults() == 1);
    Ok(())
}
