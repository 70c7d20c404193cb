//! Goes over tables: makes each row's call, compares, and tells the rows that differ and how many rows each table has.
use crate::answer;
use act_io::{Files, RealFiles};
use cases_books::Shelf;
use cases_rows::Case;
use std::alloc::{Alloc, AllocError, Global};
use std::process::ExitCode;
use std::rt::{Env, Files as FileSystem};
use std::sync::Wait;
use std::thread::Threads;
use std::{env, io, str};

/// Goes over the tables that the program's words name, and prints a report. It ends with 1 where a row differs.
pub fn go_over<R: Alloc<A = Global> + Env + FileSystem + Print + Threads + Wait + Sync>(
    rt: &R,
) -> io::Result<ExitCode> {
    let mut shelf = Shelf::new(rt.alloc());
    let mut files = RealFiles::new(rt);
    let mut report = Case::of(rt.alloc(), "");
    let mut differ = 0_u64;
    for name in env::args(rt)?.skip(1) {
        differ = differ.saturating_add(table_told(
            rt,
            &mut report,
            &mut files,
            &mut shelf,
            name.as_str(),
        ));
    }
    let is_well = differ == 0 && !report.is_wrong;
    let text = String::from_utf8_lossy(report.alloc, &report.told)?;
    print!(rt; "{text}")?;
    Ok(ExitCode::from(u8::from(!is_well)))
}

/// Goes over the table of that name, reports on it, and answers how many rows differ.
fn table_told<R: Threads + Wait + Sync, F: Files>(
    rt: &R,
    report: &mut Case<'_>,
    files: &mut F,
    shelf: &mut Shelf,
    name: &str,
) -> u64 {
    let bytes = report.file(files, name);
    let (rows, differ) = match str::from_utf8(&bytes) {
        Ok(text) => rows_told(rt, report, files, shelf, name, text),
        Err(_) => (0, 1),
    };
    report.text(name);
    report.text(": ");
    report.value(rows);
    report.text(" rows, ");
    report.value(differ);
    report.text(" differ\n");
    differ
}

/// Goes over the rows of a text, and answers how many there are, and how many of them differ. A line that begins with `#` is a
/// comment, and one that begins with a space goes on with the row before it.
fn rows_told<R: Threads + Wait + Sync, F: Files>(
    rt: &R,
    report: &mut Case<'_>,
    files: &mut F,
    shelf: &mut Shelf,
    name: &str,
    text: &str,
) -> (u64, u64) {
    let mut row = String::new(report.alloc);
    let (mut rows, mut differ) = (0_u64, 0_u64);
    // A line more ends the last row.
    for line in text.lines().chain(["end"]) {
        if is_first(line) && !row.is_empty() {
            rows = rows.saturating_add(1);
            differ = differ.saturating_add(row_told(rt, report, files, shelf, name, row.as_str()));
            row.clear();
        }
        report.is_wrong |= push_line(&mut row, line).is_err();
    }
    (rows, differ)
}

/// Whether a line begins a row.
fn is_first(line: &str) -> bool {
    !line.is_empty() && !line.starts_with(' ') && !line.starts_with('#')
}

/// Adds a line to a row, without the spaces that it begins with. One that begins with the wanted answer is no line of its own.
fn push_line(row: &mut String, line: &str) -> Result<(), AllocError> {
    let line = line.trim_start_matches(' ');
    match line.as_bytes() {
        [] | [b'#', ..] => Ok(()),
        [b'=', b' ', ..] => {
            row.push_str(" ")?;
            row.push_str(line)
        }
        _ => {
            if !row.is_empty() {
                row.push_str("\n")?;
            }
            row.push_str(line)
        }
    }
}

/// Makes the call of a row, and reports where it answers something else than what is wanted. It answers 1 there, and else 0.
fn row_told<R: Threads + Wait + Sync, F: Files>(
    rt: &R,
    report: &mut Case<'_>,
    files: &mut F,
    shelf: &mut Shelf,
    name: &str,
    row: &str,
) -> u64 {
    let (before, text) = parts(row);
    let (call, given) = before.split_once(' ').unwrap_or((before, ""));
    let mut case = Case::of(report.alloc, given);
    answer(rt, shelf, &mut case, files, name, call);
    let mut wanted = Case::of(report.alloc, "");
    wanted_told(&mut wanted, files, text);
    if case.is_wrong || wanted.is_wrong || case.told != wanted.told {
        difference_told(report, name, before, &wanted.told, &case.told);
        return 1;
    }
    0
}

/// A row's call with what it is given, and what it is to answer.
fn parts(row: &str) -> (&str, &str) {
    row.split_once(" = ")
        .or(row.split_once(" =\n"))
        .unwrap_or((row, "@"))
}

/// Tells what is wanted: bytes, those of a file behind `@`, or a status and the lines of a file.
fn wanted_told<F: Files>(wanted: &mut Case<'_>, files: &mut F, text: &str) {
    match text.split_once("@") {
        Some(("", name)) => file_told(wanted, files, name),
        _ => match text.split_once(" @") {
            Some((status, name)) => {
                wanted.text(status);
                lines_told(wanted, files, name);
            }
            None => signs_told(wanted, text),
        },
    }
}

/// Tells the bytes of a file.
fn file_told<F: Files>(wanted: &mut Case<'_>, files: &mut F, name: &str) {
    let bytes = wanted.file(files, name);
    wanted.bytes_told(&bytes);
}

/// Tells the lines of a file.
fn lines_told<F: Files>(wanted: &mut Case<'_>, files: &mut F, name: &str) {
    let bytes = wanted.file(files, name);
    wanted.lines(&bytes);
}

/// Tells the bytes of a text with signs.
fn signs_told(wanted: &mut Case<'_>, text: &str) {
    let bytes = wanted.bytes_of(text);
    wanted.bytes_told(&bytes);
}

/// Reports a row: its table, its call with what it is given, and the first line that differs.
fn difference_told(report: &mut Case<'_>, name: &str, call: &str, wanted: &[u8], told: &[u8]) {
    report.text(name);
    report.text(": ");
    report.text(call.split_once("\n").unwrap_or((call, "")).0);
    let mut rest = told;
    for line in wanted.split(|byte| *byte == b'\n') {
        match rest.strip_prefix(line) {
            Some([b'\n', behind @ ..]) => rest = behind,
            _ => {
                report.text(" is to be ");
                report.bytes_told(line);
                report.text(", and is ");
                report.bytes_told(rest.get(..200).unwrap_or(rest));
                break;
            }
        }
    }
    report.text("\n");
}
