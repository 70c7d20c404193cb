//! Calls of the standard output: what is gathered, and what is written at once.
use act_io::{PutFault, Sink, StdSink};
use cases_rows::Case;
use std::alloc::Global;
use std::cell::RefCell;
use std::fmt::Display;
use std::io::{Error, ErrorKind, Result as Written, Write as _};

/// An output that keeps what is written, with a bar behind each piece.
#[derive(Drop)]
struct Output {
    /// What was written.
    pieces: RefCell<Vec<u8>>,
    /// How many pieces it takes before it fails.
    left: RefCell<u64>,
    /// How often it is interrupted first.
    interruptions: RefCell<u64>,
    /// How many bytes of a piece it takes at most, where it may take a part.
    most: usize,
}

impl Output {
    /// An output that nothing was written to.
    fn new(alloc: Global, left: u64, interruptions: u64, most: u32) -> Output {
        Output {
            pieces: RefCell::new(Vec::new(alloc)),
            left: RefCell::new(left),
            interruptions: RefCell::new(interruptions),
            most: most as usize,
        }
    }

    /// Tells what was written.
    fn told(&self, case: &mut Case<'_>) {
        match self.pieces.try_borrow() {
            Ok(pieces) => case.bytes_told(&pieces),
            Err(_) => case.fail("what was written is borrowed"),
        }
    }

    /// Tells how long the pieces are that were written, and how many of them aren't the next bytes of a text.
    fn pieces_told(&self, case: &mut Case<'_>, text: &[u8]) {
        let Ok(pieces) = self.pieces.try_borrow() else {
            return case.fail("what was written is borrowed");
        };
        let mut rest = text;
        let mut differ = 0u64;
        case.text(", pieces");
        for piece in pieces.split(|byte| *byte == b'|') {
            if !piece.is_empty() {
                case.text(" ");
                case.value(piece.len());
            }
            match rest.strip_prefix(piece) {
                Some(behind) => rest = behind,
                None => differ = differ.saturating_add(1),
            }
        }
        case.text(", ");
        case.value(differ);
        case.text(" differ");
    }
}

impl Print for Output {
    fn print<D: Display + Drop>(&self, _value: D) -> Written<()> {
        Err(Error::from(ErrorKind::Unsupported))
    }

    fn println<D: Display + Drop>(&self, _value: D) -> Written<()> {
        Err(Error::from(ErrorKind::Unsupported))
    }

    fn write_all(&self, bytes: &[u8]) -> Written<()> {
        if bytes.is_empty() {
            return Ok(());
        }
        if !counts_down(&self.left) {
            return Err(Error::from(ErrorKind::BrokenPipe));
        }
        match self.pieces.try_borrow_mut() {
            Ok(mut pieces) => {
                if pieces.extend_from_slice(bytes).is_err() || pieces.push(b'|').is_err() {
                    return Err(Error::from(ErrorKind::OutOfMemory));
                }
                Ok(())
            }
            Err(_) => Err(Error::from(ErrorKind::Other)),
        }
    }

    fn write_some(&self, bytes: &[u8]) -> Written<usize> {
        if counts_down(&self.interruptions) {
            return Err(Error::from(ErrorKind::Interrupted));
        }
        let taken = bytes.len().min(self.most);
        self.write_all(&bytes[..taken])?;
        Ok(taken)
    }
}

/// Counts down, and answers whether there was something left.
fn counts_down(count: &RefCell<u64>) -> bool {
    match count.try_borrow_mut() {
        Ok(mut left) if *left > 0 => {
            *left -= 1;
            true
        }
        _ => false,
    }
}

/// Tells what the standard output answers, where the system takes so many pieces, interrupts so often and takes at most so many bytes
/// at once: pieces that are put, texts of lines behind `lines:`, and the `end`. Behind `written` it tells what was written.
pub fn answer(case: &mut Case<'_>) {
    let (left, interruptions, most) = (case.place(), case.place(), case.count());
    let output = Output::new(case.alloc, left, interruptions, most);
    let mut sink = StdSink::new(case.alloc, &output);
    for word in case.given.split_whitespace().skip(3) {
        case.next(" ");
        match word {
            "written" => output.told(case),
            "end" => case.value(sink.finish().is_ok()),
            _ => put(case, &mut sink, word),
        }
    }
}

/// Tells how much of a piece, or of a text of lines, was taken.
fn put(case: &mut Case<'_>, sink: &mut StdSink<'_, Output>, word: &str) {
    let taken = match word.split_once("lines:") {
        Some((_, lines)) => sink.put_lines(&case.bytes_of(lines)),
        None => sink.put(&case.bytes_of(word)),
    };
    match taken {
        Ok(count) => case.value(count),
        Err(fault) => case.value(fault),
    }
}

/// Tells what comes of lines with the numbers from 1 on that are put one by one, and of the end, where the system answers as above:
/// how many bytes were taken, or the fault; how long the pieces are that were written; and how many of them aren't the next bytes
/// of these lines.
pub fn lines(case: &mut Case<'_>) {
    let (left, interruptions, most) = (case.place(), case.place(), case.count());
    let (last, call) = (case.count(), case.word());
    let text = numbers_to(case, last);
    let output = Output::new(case.alloc, left, interruptions, most);
    let mut sink = StdSink::new(case.alloc, &output);
    match put_each(&mut sink, &text, call) {
        Ok(taken) => {
            case.value(taken);
            case.text(" taken");
        }
        Err(fault) => case.value(fault),
    }
    output.pieces_told(case, &text);
}

/// The numbers from 1 to the last, each in a line.
fn numbers_to(case: &mut Case<'_>, last: u32) -> Vec<u8> {
    let mut text = Vec::new(case.alloc);
    for number in 1..=last {
        if writeln!(text, "{number}").is_err() {
            case.fail("memory ran out");
        }
    }
    text
}

/// Puts the lines of a text one by one, writes at last what is gathered, and answers how many bytes were taken.
fn put_each(sink: &mut StdSink<'_, Output>, text: &[u8], call: &str) -> Result<usize, PutFault> {
    let mut taken = 0usize;
    for line in text.split_inclusive(|byte| *byte == b'\n') {
        taken = taken.saturating_add(match call {
            "put_lines" => sink.put_lines(line)?,
            _ => sink.put(line)?,
        });
    }
    sink.finish()?;
    Ok(taken)
}
