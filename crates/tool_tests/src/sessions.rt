// Sessions with the tool: its answers and prints, and the contents of the files afterwards.
use bolt_tool::tool;
use cli_base::Status;
use rb_io::{MemFiles, MemSink, MemSource};
use std::alloc::Global;
use std::process::Abort;
use std::test::Fail;
use test_files::words::{Row, file_in_words, hexadecimal, push_bytes, rows, said};

fn text(alloc: Global, text: &str) -> Result<String, Fail> {
    Ok(String::from_str(alloc, text)?)
}

// The hexadecimal number in the line `name`, or `default` if there is no such line.
fn number_said(words: &str, name: &str, default: u64) -> Result<u64, Fail> {
    match said(words, name) {
        Some(digits) => Ok(hexadecimal(digits)?),
        None => Ok(default),
    }
}

// The lines of the profile.
fn profile(alloc: Global, words: &str) -> Result<Vec<u8>, Fail> {
    let mut bytes = Vec::new(alloc);
    for line in words.lines() {
        if let Some(rest) = line.strip_prefix("profile ") {
            bytes.extend_from_slice(rest.as_bytes())?;
            bytes.push(b'\n')?;
        }
    }
    Ok(bytes)
}

/// Files with an input, the profile of `words` (all lines `profile LINE`), and room for outputs and for maps: `room
/// files SIZE`. A call of the files may fail: `fail files NUMBER`.
pub fn files_with(alloc: Global, words: &str, input: Vec<u8>) -> Result<MemFiles, Fail> {
    let fail = number_said(words, "fail files ", 0)?;
    let room = number_said(words, "room files ", 0x1_0000)? as usize;
    let mut files = MemFiles::new(alloc, Vec::from_slice(alloc, &[fail])?);
    files.put(text(alloc, "in")?, input)?;
    files.put(text(alloc, "profile")?, profile(alloc, words)?)?;
    files.put(text(alloc, "-")?, Vec::new(alloc))?;
    for name in ["out", "map", "moved", "spans", "-o"] {
        files.prepare(text(alloc, name)?, room)?;
    }
    Ok(files)
}

// Adds an argument; or, for `*COUNT*SIZE`, COUNT arguments of SIZE bytes each.
fn add_args(alloc: Global, args: &mut Vec<String>, word: &str) -> Result<(), Fail> {
    let Some((_, sizes)) = word.split_once('*') else {
        args.push(text(alloc, word)?)?;
        return Ok(());
    };
    let (count, size) = sizes.split_once('*').ok_or("no size")?;
    let size = hexadecimal(size)?;
    for _ in 0..hexadecimal(count)? {
        let mut arg = String::new(alloc);
        for _ in 0..size {
            arg.push('w')?;
        }
        args.push(arg)?;
    }
    Ok(())
}

// The number of an answer, its name, and the fault or the place of a run's end.
fn show_status(alloc: Global, status: Status) -> Result<String, Fail> {
    let number = status.number();
    let shown = match status {
        Status::Refused(fault) => {
            format!(in alloc;
                "{number} {} {:x} {} {}",
                fault.kind.name(),
                fault.place,
                fault.need,
                fault.room
            )?
        }
        Status::Trapped(pc, cause) => format!(in alloc; "{number} Trapped {pc:x} {cause:?}")?,
        Status::Stuck(pc, reason) => format!(in alloc; "{number} Stuck {pc:x} {reason:?}")?,
        other => format!(in alloc; "{number} {other:?}")?,
    };
    Ok(shown)
}

// Appends bytes as text, with `/` at the end of each line.
fn push_shown(shown: &mut String, bytes: &[u8]) -> Result<(), Fail> {
    for part in str::from_utf8(bytes)?.split_inclusive('\n') {
        match part.strip_suffix("\n") {
            Some(line) => {
                shown.push_str(line)?;
                shown.push('/')?;
            }
            None => shown.push_str(part)?,
        }
    }
    Ok(())
}

// Runs the tool with arguments, and returns the answer and the printed text.
fn answer(alloc: Global, files: &mut MemFiles, words: &str, line: &str) -> Result<String, Fail> {
    let mut args = Vec::new(alloc);
    for word in line.split(' ').skip(1) {
        add_args(alloc, &mut args, word)?;
    }
    let bytes = Vec::from_slice(alloc, said(words, "input ").unwrap_or("").as_bytes())?;
    let fail = number_said(words, "fail input ", 0)?;
    let mut input = MemSource::new(bytes, Vec::from_slice(alloc, &[fail])?);
    let room = number_said(words, "room printed ", 400)? as usize;
    let fail = number_said(words, "fail printed ", 0)?;
    let mut out = MemSink::new(alloc, room, Vec::from_slice(alloc, &[fail])?)?;
    let status = tool(alloc, &args, files, &mut input, &mut out);
    let mut shown = show_status(alloc, status)?;
    if !out.taken().is_empty() {
        shown.push(' ')?;
    }
    push_shown(&mut shown, out.taken())?;
    Ok(shown)
}

// A check of a file: that it doesn't exist (`none`), its whole `text`, how it `starts` or `ends`, or its `bytes` from
// an offset on.
fn check_file(
    rt: &impl Abort,
    alloc: Global,
    content: Option<&[u8]>,
    kind: &str,
    wanted: &str,
) -> Result<(), Fail> {
    let Some(content) = content else {
        assert_eq!(rt; kind, "none");
        return Ok(());
    };
    if kind == "bytes" {
        let (offset, digits) = wanted.split_once(' ').ok_or("no bytes")?;
        let mut bytes = Vec::new(alloc);
        push_bytes(&mut bytes, digits)?;
        let offset = hexadecimal(offset)? as usize;
        let (_, rest) = content.split_at_checked(offset).ok_or("short")?;
        assert!(rt; rest.starts_with(&bytes), "bytes {wanted}");
        return Ok(());
    }
    let mut shown = String::new(alloc);
    push_shown(&mut shown, content)?;
    let holds = match kind {
        "text" => shown.as_str() == wanted,
        "starts" => shown.starts_with(wanted),
        "ends" => shown.ends_with(wanted),
        _ => false,
    };
    assert!(rt; holds, "{kind} {wanted}: {shown}");
    Ok(())
}

// Overwrites bytes of a file: its name, the offset and the bytes.
fn patch(alloc: Global, files: &mut MemFiles, words: &str) -> Result<(), Fail> {
    let (name, rest) = words.split_once(' ').ok_or("no name")?;
    let (offset, digits) = rest.split_once(' ').ok_or("no bytes")?;
    let mut over = Vec::new(alloc);
    push_bytes(&mut over, digits)?;
    let offset = hexadecimal(offset)? as usize;
    let content = files.content(name).ok_or("no file")?;
    let (front, behind) = content.split_at_checked(offset).ok_or("short")?;
    let (_, rest) = behind.split_at_checked(over.len()).ok_or("short")?;
    let mut patched = Vec::from_slice(alloc, front)?;
    patched.extend_from_slice(&over)?;
    patched.extend_from_slice(rest)?;
    files.put(text(alloc, name)?, patched)?;
    Ok(())
}

/// Plays a session with these files. Its parts, separated by ` | `, are
///
/// - `$ ARGS`: the tool is run; `*COUNT*SIZE` means COUNT arguments of SIZE bytes each
/// - `NUMBER STATUS PRINTED`: its answer and its output, with `/` for the end of a line
/// - `patch FILE OFFSET BYTES`: these bytes are written into the file at this offset
/// - `none FILE`, `text FILE TEXT`, `starts FILE TEXT`, `ends FILE TEXT`, `bytes FILE OFFSET BYTES`
///
/// `words` has standard input, `input TEXT`, and the number of bytes that standard output accepts, `room printed SIZE`.
/// A call of either may fail: `fail input NUMBER`, `fail printed NUMBER`.
pub fn play(
    rt: &impl Abort,
    alloc: Global,
    files: &mut MemFiles,
    words: &str,
    session: &str,
) -> Result<(), Fail> {
    let mut shown = String::new(alloc);
    for part in session.split(" | ") {
        let part = part.trim_ascii();
        let (first, rest) = part.split_once(' ').unwrap_or((part, ""));
        if first == "$" {
            shown = answer(alloc, files, words, part)?;
        } else if first == "patch" {
            patch(alloc, files, rest)?;
        } else if first.parse::<u8>().is_ok() {
            assert_eq!(rt; shown.as_str(), part, "{words}");
        } else {
            let (name, wanted) = rest.split_once(' ').unwrap_or((rest, ""));
            check_file(rt, alloc, files.content(name), first, wanted)?;
        }
    }
    Ok(())
}

/// The file of a row.
pub fn input(rt: &impl Abort, alloc: Global, row: &Row<'_>) -> Result<Vec<u8>, Fail> {
    let file = file_in_words(alloc, &row.words);
    assert!(rt; file.is_ok(), "{}", row.words);
    Ok(file?)
}

/// Plays the sessions of a table.
pub fn play_rows(rt: &impl Abort, alloc: Global, table: &str) -> Result<(), Fail> {
    for row in &rows(alloc, table)? {
        let mut files = files_with(alloc, &row.words, input(rt, alloc, row)?)?;
        play(rt, alloc, &mut files, &row.words, row.wanted)?;
    }
    Ok(())
}

/// Runs each of `commands` on the file of each row, which has the answer and the output; nothing is written.
pub fn commands_refuse(
    rt: &impl Abort,
    alloc: Global,
    commands: &[&str],
    table: &str,
) -> Result<(), Fail> {
    for row in &rows(alloc, table)? {
        for command in commands {
            let mut files = files_with(alloc, &row.words, input(rt, alloc, row)?)?;
            let shown = answer(alloc, &mut files, &row.words, command)?;
            assert_eq!(rt; shown.as_str(), row.wanted, "{command} {}", row.words);
            assert!(rt; files.content("out").is_none(), "{}", row.words);
            assert!(rt; files.content("map").is_none(), "{}", row.words);
        }
    }
    Ok(())
}
