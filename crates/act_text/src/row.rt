//! The lines of rows and of how they close.
ghost use Rattle.std.specs.Prelude.{◌≡◌, ◌+◌, ◌≤◌, [], ◌∷◌, ◌++◌, drop, length, true, IfSome, OnOk, OnErr, codes, option_map, unwrap_or};
ghost use Rattle.act_date.specs.Text.{date_text};
ghost use Rattle.act_model.specs.Name.{is_name};
ghost use Rattle.act_text.specs.Again.{other_cells, other_cells_text};
ghost use Rattle.act_text.specs.Lines.{close_text, line_of, row_text, type_text};

use crate::line::{MOST_LINE, TextLine};
use crate::number::NumberText;
use act_date::Day;
use act_model::{Close, EventType, Names, Row};
use act_num::{Fixed, NoMemory};
use std::marker::Model;

/// What is printed of a row but its day.
#[derive(Clone, Copy, PartialEq, Eq)]
struct OtherCells {
    kind: EventType,
    currency: u32,
    payoff: Fixed,
    notional: Fixed,
    rate: Fixed,
    interest: Fixed,
}

impl OtherCells {
    /// Those of a row.
    #[inline(always)]
    fn of(row: &Row) -> OtherCells
        ensures { result ≡ other_cells row.now }
    {
        OtherCells {
            kind: row.kind,
            currency: row.currency,
            payoff: row.payoff,
            notional: row.state.nt,
            rate: row.state.ipnr,
            interest: row.state.ipac,
        }
    }

    /// Whether they are the same as others.
    #[inline(always)]
    fn are(&self, others: &OtherCells) -> bool
        ensures { result ≡ true → self.now ≡ others.now }
    {
        self == others
    }
}

/// Room for the line of one row after another. Of a row that is printed as the one before but for its day, only the day is
/// written. It takes no memory. Contracts see the names and the line's bytes.
#[derive(Drop)]
pub struct RowPrinter<'a> {
    names: &'a Names,
    line: TextLine,
    last: Option<OtherCells>,
    /// Texts of the notional and the rate, kept from row to row: most rows have those of the row before.
    notional: NumberText,
    rate: NumberText,
}

impl<'a> Model for RowPrinter<'a> {
    ghost use Rattle.std.specs.Prelude.{◌≤◌, length};
    ghost use Rattle.act_text.specs.Again.{EndsAs, PrintedLine};

    ghost Value = { PrintedLine };

    ghost view = { λ p. record { names = p.names.now; bytes = p.line } };

    ghost invariant = { λ p. EndsAs p.names.now p.last p.line };
}

impl<'a> RowPrinter<'a> {
    /// A line of nothing yet. Lines are written with these names.
    pub fn new(names: &'a Names) -> RowPrinter<'a>
        ensures names { result.names ≡ names.now }
        ensures bytes { result.bytes ≡ [] }
    {
        RowPrinter {
            names,
            line: TextLine::new(),
            last: None,
            notional: NumberText::of(Fixed::ZERO),
            rate: NumberText::of(Fixed::ZERO),
        }
    }

    /// Prints a row's line in place of the one before: day, type, currency, payoff, and of the state after the event the
    /// notional, the rate and the interest accrued. Where the currency's number has no name, nothing stands there.
    #[inline(always)]
    pub fn print(&mut self, row: &Row)
        ensures names { self.new.names ≡ self.old.names }
        ensures bytes { self.new.bytes ≡ row_text self.old.names row.now }
    {
        let cells = OtherCells::of(row);
        if self.ends_as(&cells) {
            self.line.set_day(row.day);
        } else {
            self.print_anew(row.day, &cells);
        }
    }

    /// Puts the whole line together, and keeps what stands behind its day.
    #[inline(never)]
    fn print_anew(&mut self, day: Day, cells: &OtherCells)
        ensures names { self.new.names ≡ self.old.names }
        ensures bytes { self.new.bytes ≡ date_text day ++ other_cells_text self.old.names cells.now }
    {
        self.notional.renew(cells.notional);
        self.rate.renew(cells.rate);
        put_line(
            self.names,
            day,
            cells,
            &self.notional,
            &self.rate,
            &mut self.line,
        );
        self.last = Some(*cells);
    }

    /// Whether the line ends already in what is printed behind the day.
    #[inline(always)]
    fn ends_as(&self, cells: &OtherCells) -> bool
        ensures { result ≡ true → (10 ≤ length self.now.bytes) × (drop 10 self.now.bytes ≡ other_cells_text self.now.names cells.now) }
    {
        match &self.last {
            Some(last) => last.are(cells),
            None => false,
        }
    }

    /// The line's bytes.
    #[inline]
    pub fn line(&self) -> &[u8]
        ensures { result.now ≡ self.now.bytes }
    {
        self.line.as_bytes()
    }
}

/// Adds the line of a row to `out`, as [`RowPrinter`] prints it. Where memory runs out, `out` is as before.
pub fn row_line(names: &Names, row: &Row, out: &mut Vec<u8>) -> Result<(), NoMemory>
    ensures ok { OnOk result (out.new.items ≡ out.old.items ++ row_text names.now row.now) }
    ensures err { OnErr result (out.new.items ≡ out.old.items) }
{
    let mut printer = RowPrinter::new(names);
    printer.print(row);
    Ok(out.extend_from_slice(printer.line())?)
}

/// Puts a line together in place of the one before: a day, and what is printed behind it.
fn put_line(
    names: &Names,
    day: Day,
    cells: &OtherCells,
    notional: &NumberText,
    rate: &NumberText,
    line: &mut TextLine,
)
    requires notional { notional.now ≡ cells.now.notional }
    requires rate { rate.now ≡ cells.now.rate }
    ensures { line.new ≡ date_text day ++ other_cells_text names.now cells.now }
{
    line.clear();
    line.push_day(day);
    push_type(line, cells.kind);
    push_name(line, names.currency(cells.currency));
    line.push_number(cells.payoff);
    line.push_known_number(notional);
    line.push_known_number(rate);
    line.push_number(cells.interest);
    line.push_bytes(b"\n");
}

/// Adds the line of how rows close to `out`: `end`, `missing` with the code and the day, or `overflow` with the day and
/// the type. The number of a code that has no name is left empty. Where memory runs out, `out` is as before.
#[tactic(auto, unfolding(crate::specs::Lines::close_text))]
pub fn close_line(names: &Names, close: &Close, out: &mut Vec<u8>) -> Result<(), NoMemory>
    ensures ok { OnOk result (out.new.items ≡ out.old.items ++ close_text names.now close.now) }
    ensures err { OnErr result (out.new.items ≡ out.old.items) }
{
    match *close {
        Close::End => end_line(out),
        Close::Missing { code, day } => missing_line(names.code(code), day, out),
        Close::Overflow { day, kind } => overflow_line(day, kind, out),
    }
}

/// Adds the line `end`.
fn end_line(out: &mut Vec<u8>) -> Result<(), NoMemory>
    ensures ok { OnOk result (out.new.items ≡ out.old.items ++ line_of (codes "end") []) }
    ensures err { OnErr result (out.new.items ≡ out.old.items) }
{
    let mut line = TextLine::new();
    line.push_bytes(b"end");
    line.end(out)
}

/// Adds the line of an observation that isn't there.
fn missing_line(code: Option<&str>, day: Day, out: &mut Vec<u8>) -> Result<(), NoMemory>
    requires { IfSome code (λ s. is_name s.now ≡ true) }
    ensures ok { OnOk result (out.new.items
        ≡ out.old.items ++ line_of (codes "missing") (unwrap_or (option_map (λ s. s.now) code.entry) [] ∷ date_text day ∷ [])) }
    ensures err { OnErr result (out.new.items ≡ out.old.items) }
{
    let mut line = TextLine::new();
    line.push_bytes(b"missing");
    push_name(&mut line, code);
    line.push_bytes(b" ");
    line.push_day(day);
    line.end(out)
}

/// Adds the line of an amount that is undefined.
fn overflow_line(day: Day, kind: EventType, out: &mut Vec<u8>) -> Result<(), NoMemory>
    ensures ok { OnOk result (out.new.items
        ≡ out.old.items ++ line_of (codes "overflow") (date_text day ∷ type_text kind ∷ [])) }
    ensures err { OnErr result (out.new.items ≡ out.old.items) }
{
    let mut line = TextLine::new();
    line.push_bytes(b"overflow ");
    line.push_day(day);
    push_type(&mut line, kind);
    line.end(out)
}

/// Adds a space and a name, where there is one: 65 bytes at most.
fn push_name(line: &mut TextLine, name: Option<&str>)
    requires name { IfSome name (λ s. is_name s.now ≡ true) }
    requires room { length line.old + 65 ≤ MOST_LINE }
    ensures text { line.new ≡ line.old ++ codes " " ++ unwrap_or (option_map (λ s. s.now) name.entry) [] }
    ensures len { length line.new ≤ length line.old + 65 }
{
    match name {
        Some(name) => line.push_name(name),
        None => line.push_word(b""),
    }
}

/// Adds a space and the word of a type of events. Each has an arm of its own, so that the compiler knows how long the word is.
fn push_type(line: &mut TextLine, kind: EventType)
    requires room { length line.old + 5 ≤ MOST_LINE }
    ensures text { line.new ≡ line.old ++ codes " " ++ type_text kind }
    ensures len { length line.new ≤ length line.old + 5 }
{
    match kind {
        EventType::IED => line.push_bytes(b" IED"),
        EventType::PR => line.push_bytes(b" PR"),
        EventType::PP => line.push_bytes(b" PP"),
        EventType::PY => line.push_bytes(b" PY"),
        EventType::FP => line.push_bytes(b" FP"),
        EventType::PRD => line.push_bytes(b" PRD"),
        EventType::TD => line.push_bytes(b" TD"),
        EventType::IP => line.push_bytes(b" IP"),
        EventType::IPCI => line.push_bytes(b" IPCI"),
        EventType::RRF => line.push_bytes(b" RRF"),
        EventType::RR => line.push_bytes(b" RR"),
        EventType::PRF => line.push_bytes(b" PRF"),
        EventType::IPCB => line.push_bytes(b" IPCB"),
        EventType::SC => line.push_bytes(b" SC"),
        EventType::DV => line.push_bytes(b" DV"),
        EventType::MD => line.push_bytes(b" MD"),
        EventType::CE => line.push_bytes(b" CE"),
        EventType::XD => line.push_bytes(b" XD"),
        EventType::STD => line.push_bytes(b" STD"),
    }
}

/// The word of a type of events.
pub fn type_word(kind: EventType) -> &'static [u8]
    ensures text { result.now ≡ type_text kind }
    ensures short { length result.now ≤ 4 }
{
    match kind {
        EventType::IED => b"IED",
        EventType::PR => b"PR",
        EventType::PP => b"PP",
        EventType::PY => b"PY",
        EventType::FP => b"FP",
        EventType::PRD => b"PRD",
        EventType::TD => b"TD",
        EventType::IP => b"IP",
        EventType::IPCI => b"IPCI",
        EventType::RRF => b"RRF",
        EventType::RR => b"RR",
        EventType::PRF => b"PRF",
        EventType::IPCB => b"IPCB",
        EventType::SC => b"SC",
        EventType::DV => b"DV",
        EventType::MD => b"MD",
        EventType::CE => b"CE",
        EventType::XD => b"XD",
        EventType::STD => b"STD",
    }
}
