//! The program's commands, from the words it is given to the bytes it writes.
#![tactic(auto)]

mod big;
mod check;
mod desk;
mod eval;
mod laws;
mod ran;
mod top;
mod totals;
mod words;

pub use laws::{
    boards_are_handed, commands_end_as_told, one_script_is_its_journal,
    scripts_in_turn_are_an_interleaving, statuses_tell_faults, texts_are_read_back,
    texts_have_one_journal, versions_never_go_back,
};
pub use ran::{Aside, Ran};
pub use top::{actus_top, desk_top, eval_top};
