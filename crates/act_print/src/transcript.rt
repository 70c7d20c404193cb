//! Reading a journal and its answers.
ghost use Rattle.std.specs.Prelude.{◌≡◌, ◌-◌, ◌^◌, ◌<◌, [], ◌∷◌, length, IfOk, OnOk};
ghost use Rattle.std.specs.List.{range_with_len};
ghost use Rattle.act_print.specs.Conditions.{ContractsNamed};
ghost use Rattle.act_print.specs.Giving.{Gives};
ghost use Rattle.act_print.specs.Reading.{answer_at, answers_at, block_at, blocks_at, items_at, journal_at, replies_at, rows_at, transcript_at};
ghost use Rattle.act_model.specs.Journal.{contracts_of};

use crate::heads::{answer_line, answers_line, block_line};
use crate::items::read_items;
use crate::line_fault::LineFault;
use crate::printed::{Printed, PrintedAnswer, PrintedBlock, PrintedRow};
use crate::reader::{Next, Reader};
use act_model::{Asked, Asking, Close, Item, Names, asks_of};
use act_num::NoMemory;
use std::alloc::Global;

/// How many contracts have names.
pub(crate) fn count_contracts(names: &Names) -> Result<u32, NoMemory>
    ensures count { IfOk result (λ count. count ≡ length names.now.contracts) }
    ensures named { OnOk result (ContractsNamed names.now) }
{
    'contracts: for contract in 0..u32::MAX {
        if names.id(contract).is_none() {
            return Ok(contract);
        }
    }
    Err(NoMemory)
}

impl<'a> Reader<'a> {
    /// A journal.
    #[tactic(auto, unfolding(crate::specs::Reading::journal_at))]
    pub(crate) fn journal(&mut self, alloc: Global, names: &Names) -> Result<Vec<Item>, LineFault>
        ensures { Gives (λ items. items.items) result self.new (journal_at names.now self.old) }
    {
        let count = self.count()?;
        read_items(self, alloc, names, count)
    }

    /// Rows, and how they close.
    fn rows(&mut self, alloc: Global, names: &Names) -> Result<(Vec<PrintedRow>, Close), LineFault>
        ensures { Gives (λ rows. (rows.0.items, rows.1)) result self.new (rows_at names.now self.old) }
    {
        let mut rows = Vec::new(alloc);
        'rows: loop {
            match self.next_row(names)? {
                Next::Row(row) => rows.push(row)?,
                Next::Last(close) => return Ok((rows, close)),
            }
        }
    }

    /// The rows of a contract.
    #[tactic(auto, unfolding(crate::specs::Reading::block_at))]
    fn block(
        &mut self,
        alloc: Global,
        names: &Names,
        contract: u32,
    ) -> Result<PrintedBlock, LineFault>
        ensures { Gives (λ block. block) result self.new (block_at names.now contract self.old) }
    {
        self.expect(block_line(names, contract).as_bytes())?;
        let (rows, close) = self.rows(alloc, names)?;
        Ok(PrintedBlock {
            contract,
            rows,
            close,
        })
    }

    /// The contracts of an ask, of so many contracts in all.
    fn blocks(
        &mut self,
        alloc: Global,
        names: &Names,
        contracts: u32,
        asked: Asked,
    ) -> Result<Vec<PrintedBlock>, LineFault>
        requires { contracts ≡ length names.now.contracts }
        ensures { Gives (λ blocks. blocks.items) result self.new
            (blocks_at names.now (contracts_of names.now asked) self.old) }
    {
        match asked {
            Asked::All => self.blocks_below(alloc, names, contracts),
            Asked::One(contract) => self.one_block(alloc, names, contract),
        }
    }

    /// The contracts below a number.
    fn blocks_below(
        &mut self,
        alloc: Global,
        names: &Names,
        end: u32,
    ) -> Result<Vec<PrintedBlock>, LineFault>
        ensures { Gives (λ blocks. blocks.items) result self.new
            (blocks_at names.now (range_with_len 0 end) self.old) }
    {
        let mut blocks = Vec::new(alloc);
        'contracts: for contract in 0..end {
            let block = self.block(alloc, names, contract)?;
            blocks.push(block)?;
        }
        Ok(blocks)
    }

    /// One contract.
    #[tactic(auto, unfolding(crate::specs::Reading::blocks_at))]
    fn one_block(
        &mut self,
        alloc: Global,
        names: &Names,
        contract: u32,
    ) -> Result<Vec<PrintedBlock>, LineFault>
        ensures { Gives (λ blocks. blocks.items) result self.new
            (blocks_at names.now (contract ∷ []) self.old) }
    {
        let mut blocks = Vec::new(alloc);
        let block = self.block(alloc, names, contract)?;
        blocks.push(block)?;
        Ok(blocks)
    }

    /// The answer to an ask.
    #[tactic(auto, unfolding(crate::specs::Reading::answer_at))]
    fn answer(
        &mut self,
        alloc: Global,
        names: &Names,
        contracts: u32,
        ask: Asking,
    ) -> Result<PrintedAnswer, LineFault>
        requires { contracts ≡ length names.now.contracts }
        ensures { Gives (λ answer. answer) result self.new (answer_at names.now ask self.old) }
    {
        let line = answer_line(u64::from(ask.caller), u64::from(ask.number), ask.version);
        self.expect(line.as_bytes())?;
        let blocks = self.blocks(alloc, names, contracts, ask.asked)?;
        Ok(PrintedAnswer {
            caller: ask.caller,
            number: ask.number,
            version: ask.version,
            blocks,
        })
    }

    /// The answers to asks.
    fn answers(
        &mut self,
        alloc: Global,
        names: &Names,
        contracts: u32,
        asks: &[Asking],
    ) -> Result<Vec<PrintedAnswer>, LineFault>
        requires { contracts ≡ length names.now.contracts }
        ensures { Gives (λ answers. answers.items) result self.new (answers_at names.now asks.now self.old) }
    {
        let mut answers = Vec::new(alloc);
        'asks: for ask in asks {
            let answer = self.answer(alloc, names, contracts, *ask)?;
            answers.push(answer)?;
        }
        Ok(answers)
    }

    /// The answers to the asks of items.
    #[tactic(auto, unfolding(crate::specs::Reading::replies_at))]
    fn replies(
        &mut self,
        alloc: Global,
        names: &Names,
        contracts: u32,
        items: &[Item],
    ) -> Result<Vec<PrintedAnswer>, LineFault>
        requires contracts { contracts ≡ length names.now.contracts }
        requires few { length items.now < 2 ^ 32 - 1 }
        ensures { Gives (λ answers. answers.items) result self.new (replies_at names.now items.now self.old) }
    {
        let asks = asks_of(alloc, items)?;
        self.expect(answers_line(asks.len()).as_bytes())?;
        self.answers(alloc, names, contracts, &asks)
    }

    /// A journal and its answers.
    #[tactic(auto, unfolding(crate::specs::Reading::transcript_at))]
    pub(crate) fn transcript(
        &mut self,
        alloc: Global,
        names: &Names,
        contracts: u32,
    ) -> Result<Printed, LineFault>
        requires contracts { contracts ≡ length names.now.contracts }
        requires few { length self.old < 2 ^ 32 - 1 }
        ensures { Gives (λ printed. printed) result self.new (transcript_at names.now self.old) }
    {
        let items = self.journal(alloc, names)?;
        let answers = self.replies(alloc, names, contracts, &items)?;
        Ok(Printed { items, answers })
    }
}
