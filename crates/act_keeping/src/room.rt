//! Room for marks, steps and entries.
ghost use Rattle.std.specs.Prelude.{◌≡◌, ◌+◌, ◌<◌, ◌≤◌, [], ◌∷◌, ◌++◌, true, length, vec_capacity, IfErr, IfOk, OnOk};
ghost use Rattle.act_model.specs.Observed.{is_entry};
ghost use Rattle.act_model.specs.declared.journal.Step.TheVariants as step;
ghost use Rattle.act_history.specs.declared.mark.Mark.TheVariants as mark;

use act_book::BookFault;
use act_cut::IndexedBook;
use act_history::Mark;
use act_model::{Asked, Item, MOST_ENTRIES, Obs, Step};
use act_num::NoMemory;
use std::slice;

/// Makes room for the marks that are owed and some more. NoMemory where memory runs out, or they are too many to be counted. The
/// marks stay.
pub fn make_room(marks: &mut Vec<Mark>, owing: usize, more: usize) -> Result<(), NoMemory>
    ensures marks { marks.new.items ≡ marks.old.items }
    ensures kept { vec_capacity marks.old ≤ vec_capacity marks.new }
    ensures room { OnOk result (length marks.new.items + (owing + more) ≤ vec_capacity marks.new) }
{
    match owing.checked_add(more) {
        Some(room) => Ok(marks.reserve(room)?),
        None => Err(NoMemory),
    }
}

/// Makes room for the marks that are owed and some more, and for one step. NoMemory as in [`make_room`]. The marks and the steps
/// stay.
pub fn make_room_for_step(
    marks: &mut Vec<Mark>,
    items: &mut Vec<Item>,
    owing: usize,
    more: usize,
) -> Result<(), NoMemory>
    ensures marks { marks.new.items ≡ marks.old.items }
    ensures kept { vec_capacity marks.old ≤ vec_capacity marks.new }
    ensures room { OnOk result (length marks.new.items + (owing + more) ≤ vec_capacity marks.new) }
    ensures items { items.new.items ≡ items.old.items }
    ensures room_for_item { OnOk result (length items.new.items < vec_capacity items.new) }
{
    make_room(marks, owing, more)?;
    Ok(items.reserve(1)?)
}

/// Appends an entry to a book that has room for it. It answers how many there are then. NoMemory where memory runs out; the
/// entries stay then.
pub fn append_entry(book: &mut IndexedBook, entry: &Obs) -> Result<u64, NoMemory>
    requires entry { is_entry entry.now ≡ true }
    requires room { length book.old < MOST_ENTRIES }
    ensures added { IfOk result (λ _. book.new ≡ book.old ++ entry.now ∷ []) }
    ensures version { IfOk result (λ version. version ≡ length book.new) }
    ensures unchanged { IfErr result (λ _. book.new ≡ book.old) }
{
    match book.append(*entry) {
        Ok(version) => Ok(version),
        Err(BookFault::BookFull) => unreachable!(),
        Err(BookFault::NoMemory) => Err(NoMemory),
    }
}

/// Adds a mark, for which there is room.
pub fn put_mark(marks: &mut Vec<Mark>, mark: &Mark)
    requires room { length marks.old.items < vec_capacity marks.old }
    ensures added { marks.new.items ≡ marks.old.items ++ mark.now ∷ [] }
    ensures kept { vec_capacity marks.old ≤ vec_capacity marks.new }
{
    let Ok(()) = marks.extend_from_slice(slice::from_ref(mark)) else {
        unreachable!()
    };
}

/// Adds a step, for which there is room.
fn put_item(items: &mut Vec<Item>, item: &Item)
    requires room { length items.old.items < vec_capacity items.old }
    ensures { items.new.items ≡ items.old.items ++ item.now ∷ [] }
{
    let Ok(()) = items.extend_from_slice(slice::from_ref(item)) else {
        unreachable!()
    };
}

/// Adds what a caller appends.
pub fn put_entry(marks: &mut Vec<Mark>, items: &mut Vec<Item>, caller: u32, entry: &Obs)
    requires room { length marks.old.items < vec_capacity marks.old }
    requires room_for_item { length items.old.items < vec_capacity items.old }
    ensures mark { marks.new.items ≡ marks.old.items ++ mark.Append caller entry.now ∷ [] }
    ensures kept { vec_capacity marks.old ≤ vec_capacity marks.new }
    ensures item { items.new.items ≡ items.old.items ++ record { caller = caller; step = step.Append entry.now } ∷ [] }
{
    put_item(items, &appending(caller, entry));
    put_mark(marks, &Mark::append(caller, entry));
}

/// Adds what a caller asks.
pub fn put_ask(marks: &mut Vec<Mark>, items: &mut Vec<Item>, caller: u32, asked: Asked)
    requires room { length marks.old.items < vec_capacity marks.old }
    requires room_for_item { length items.old.items < vec_capacity items.old }
    ensures mark { marks.new.items ≡ marks.old.items ++ mark.Ask caller asked ∷ [] }
    ensures kept { vec_capacity marks.old ≤ vec_capacity marks.new }
    ensures item { items.new.items ≡ items.old.items ++ record { caller = caller; step = step.Ask asked } ∷ [] }
{
    put_item(items, &asking(caller, asked));
    put_mark(marks, &Mark::ask(caller, asked));
}

/// The step that appends an entry.
fn appending(caller: u32, entry: &Obs) -> Item
    ensures { result ≡ record { caller = caller; step = step.Append entry.now } }
{
    let step = Step::Append(*entry);
    Item { caller, step }
}

/// The step that asks.
fn asking(caller: u32, asked: Asked) -> Item
    ensures { result ≡ record { caller = caller; step = step.Ask asked } }
{
    let step = Step::Ask(asked);
    Item { caller, step }
}
