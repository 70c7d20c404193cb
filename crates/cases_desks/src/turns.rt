//! Turns that threads take.
ghost use Rattle.std.specs.Prelude.{◌≡◌};
ghost use Rattle.act_turn.specs.Standing.{IsFree};

use act_turn::{Kept, NewFault, Pass, Turn};
use cases_rows::Case;
use std::alloc::Global;
use std::sync::Wait;
use std::thread::{Threads, for_each_mut};

/// Numbers, each made by the pass of that number.
#[derive(Drop)]
struct Numbers {
    list: Vec<u32>,
    /// How many turns found another count of their number, or no memory.
    wrong: u32,
}

impl Kept for Numbers {
    ghost use Rattle.std.specs.Prelude.{Some};

    type Entry = u32;

    ghost journal = { λ v. v.list.items };

    ghost author = { λ n. Some n };
}

impl Numbers {
    ghost use Rattle.std.specs.Prelude.{◌≡◌, ◌⊎◌, ◌∷◌, ◌++◌, []};

    /// Adds a number twice, which is to be there so often.
    fn add_twice(&mut self, number: u32, times: usize)
        ensures { (self.new.list.items ≡ self.old.list.items ++ number ∷ number ∷ []) ⊎ (self.new.list.items ≡ self.old.list.items) }
    {
        let is_right = self.times(number) == times;
        let is_added = self.list.extend_from_slice(&[number, number]).is_ok();
        if !is_right || !is_added {
            self.wrong = self.wrong.saturating_add(1);
        }
    }

    fn times(&self, number: u32) -> usize {
        self.list.iter().filter(|n| **n == number).count()
    }

    /// How many numbers there are, how many of each, and how many turns were wrong.
    fn counts(&self) -> [usize; 5] {
        [
            self.list.len(),
            self.times(1),
            self.times(2),
            self.times(3),
            self.wrong as usize,
        ]
    }
}

/// Takes four turns with the pass of this number. It finds the number twice for each turn that it had, and adds it twice more.
fn four_turns<R: Wait>(rt: &R, turn: &Turn<Numbers>, pass: &mut Pass<Numbers>, number: u32)
    requires free { IsFree turn.now.id pass.old }
    requires number { pass.old.number ≡ number }
    ensures { IsFree turn.now.id pass.new }
{
    for round in 0..4usize {
        let mut held = turn.take(rt, pass);
        held.get_mut().add_twice(number, 2 * round);
        turn.give(pass, held);
    }
}

/// The counts of what the passes of numbers 1, 2 and 3 make of an empty list, each in a thread of its own. Where memory runs out there
/// is nothing.
fn three_threads<R: Threads + Wait + Sync>(rt: &R, alloc: Global) -> [usize; 5] {
    let empty = Numbers {
        list: Vec::new(alloc),
        wrong: 0,
    };
    match Turn::new(alloc, empty, 3) {
        Ok((turn, mut passes)) => {
            for_each_mut(
                rt,
                passes.as_mut_slice(),
                3,
                &|i, pass| four_turns(rt, &turn, pass, i as u32 + 1),
            );
            turn.close(passes).counts()
        }
        Err(NewFault { value: _ }) => [0; 5],
    }
}

/// Tells what three passes make in turns, so many times: only what differs from the time before.
pub fn turns_told<R: Threads + Wait + Sync>(rt: &R, case: &mut Case<'_>) {
    let mut before = [0; 5];
    for _ in 0..case.count() {
        let counts = three_threads(rt, case.alloc);
        if counts != before {
            counts_told(case, counts);
            before = counts;
        }
    }
}

fn counts_told(case: &mut Case<'_>, counts: [usize; 5]) {
    let [all, ones, twos, threes, wrong] = counts;
    case.next("; ");
    case.value(all);
    case.text(" numbers, ");
    for each in [ones, twos, threes] {
        case.value(each);
        case.text(" ");
    }
    case.text("of each, ");
    case.value(wrong);
    case.text(" wrong");
}
