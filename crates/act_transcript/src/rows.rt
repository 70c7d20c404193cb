//! Writing blocks.
ghost use Rattle.std.specs.Prelude.{◌≡◌, ◌<◌, length};
ghost use Rattle.std.specs.List.{flat_map};
ghost use Rattle.act_engine.specs.Writing.{Writes};
ghost use Rattle.act_print.specs.Printed.{printed_block};
ghost use Rattle.act_print.specs.Text.{block_text};
ghost use Rattle.act_text.specs.Lines.{close_text, row_text};

use act_engine::{Failure, write_text};
use act_io::Sink;
use act_model::{Close, Names, Rows, Run};
use act_print::block_head;
use act_text::{RowPrinter, close_line};

/// Writes the block of a contract with its run, and keeps no lines. `line` is room for a line.
pub(crate) fn write_new_block<K: Sink>(
    out: &mut K,
    line: &mut Vec<u8>,
    names: &Names,
    contract: u32,
    run: &Run,
) -> Result<(), Failure>
    requires { contract < length names.now.contracts }
    ensures { Writes (block_text names.now (printed_block (contract, run.now))) (K.page out.old) result (K.page out.new) }
{
    line.clear();
    block_head(names, contract, line)?;
    write_text(out, line)?;
    write_new_rows(out, names, &run.rows)?;
    write_close(out, line, names, &run.close)
}

/// Writes the lines of rows, and keeps none.
fn write_new_rows<K: Sink>(out: &mut K, names: &Names, rows: &Rows) -> Result<(), Failure>
    ensures { Writes (flat_map (row_text names.now) rows.now) (K.page out.old) result (K.page out.new) }
{
    let mut printer = RowPrinter::new(names);
    'places: for place in 0..rows.count() {
        printer.print(&rows.row(place));
        write_text(out, printer.line())?;
    }
    Ok(())
}

/// Writes the line of how rows close.
fn write_close<K: Sink>(
    out: &mut K,
    line: &mut Vec<u8>,
    names: &Names,
    close: &Close,
) -> Result<(), Failure>
    ensures { Writes (close_text names.now close.now) (K.page out.old) result (K.page out.new) }
{
    line.clear();
    close_line(names, close, line)?;
    write_text(out, line)
}
