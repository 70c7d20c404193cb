//! The right answers to the asks of a journal, caller by caller.
ghost use Rattle.std.specs.Prelude.{◌≡◌, ◌+◌, ◌-◌, ◌≤◌, ◌<◌, ◌^◌, [], length, count_by, get_or, replicate, IfOk, OnOk, not};
ghost use Rattle.std.specs.List.{All};
ghost use Rattle.act_audit.specs.Journal.{as_one_caller};
ghost use Rattle.act_audit.specs.Judging.{answer_lists, with_answer};
ghost use Rattle.act_history.specs.History.{replies_of};
ghost use Rattle.act_model.specs.Journal.{is_append};
ghost use Rattle.act_model.specs.Names.{NameLists};
ghost use Rattle.act_model.specs.declared.journal.Item.{Item as JournalItem};
ghost use Rattle.act_profile.specs.Answers.{answers_of};
ghost use Rattle.act_profile.specs.Run.{Contracts};

use act_model::{Answer, Item, MOST_CALLERS, Step};
use act_num::NoMemory;
use std::alloc::Global;

/// The answers to the asks of a journal, given in its order, caller by caller: each list by number.
pub(crate) fn by_caller(
    alloc: Global,
    items: &[Item],
    answers: Vec<Answer>,
) -> Result<Vec<Vec<Answer>>, NoMemory>
    requires from_one { All (λ (item : JournalItem). 1 ≤ item.caller) items.now }
    requires to_most { All (λ (item : JournalItem). item.caller ≤ MOST_CALLERS) items.now }
    requires count { length answers.items ≡ count_by (λ (item : JournalItem). not (is_append item.step)) items.now }
    requires few { length items.now + 2 < 2 ^ 32 }
    ensures { (contracts : Contracts) (names : NameLists) → answers.items ≡ answers_of contracts names (as_one_caller items.now)
        → IfOk result (λ lists. replies_of lists.items ≡ answers_of contracts names items.now) }
{
    let mut lists = no_answers(alloc)?;
    let mut replies = answers.into_iter();
    for item in items {
        if let Step::Ask(_) = item.step {
            let Some(reply) = replies.next() else {
                unreachable!()
            };
            push_answer(&mut lists, item.caller, reply)?;
        }
    }
    Ok(lists)
}

/// No answers of each caller.
fn no_answers(alloc: Global) -> Result<Vec<Vec<Answer>>, NoMemory>
    ensures { IfOk result (λ lists. answer_lists lists.items ≡ replicate MOST_CALLERS []) }
{
    let mut lists = Vec::with_capacity(alloc, MOST_CALLERS)?;
    for _caller in 0..MOST_CALLERS {
        lists.push(Vec::new(alloc))?;
    }
    Ok(lists)
}

/// Adds the answer to the next ask of a caller.
fn push_answer(lists: &mut [Vec<Answer>], caller: u32, reply: Answer) -> Result<(), NoMemory>
    requires from_one { 1 ≤ caller }
    requires to_last { caller ≤ length lists.old }
    requires few { length (get_or (answer_lists lists.old) (caller - 1) []) + 1 < 2 ^ 32 }
    ensures { OnOk result (answer_lists lists.new ≡ with_answer (answer_lists lists.old) caller reply) }
{
    let Answer { version, runs, .. } = reply;
    let list = &mut lists[caller as usize - 1];
    let number = list.len() as u32 + 1;
    list.push(Answer {
        caller,
        number,
        version,
        runs,
    })?;
    Ok(())
}
