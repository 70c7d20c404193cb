//! Files in memory.
ghost use Rattle.std.specs.Prelude.{◌≡◌, ℕ, ◌≤◌, List, [], Some, Err, IfSome, IfOk, map, option_map, string_bytes, vec_len};
ghost use Rattle.act_io.specs.Memory.{Answers, content_of, fetch_answer, files_after, world_of};
ghost use Rattle.act_io.specs.World.{Fetches};

use crate::{FetchFault, Files};
use std::alloc::Global;
use std::marker::Model;

/// A list of names with bytes. It keeps the names that were asked for, and the calls whose numbers, from
/// 1, are listed fail. A name that it doesn't have fails too. A call that memory ran out for has no number.
#[derive(Drop)]
pub struct MemFiles {
    files: Vec<(String, Vec<u8>)>,
    fails: Vec<u64>,
    calls: u64,
    faults: u64,
    failed_at: u64,
    asked: Vec<String>,
}

impl Model for MemFiles {
    ghost use Rattle.std.specs.Prelude.{map, string_bytes};
    ghost use Rattle.act_io.specs.Memory.{FilesInMemory};

    ghost Value = { FilesInMemory };

    ghost view = { λ m. record { files = map (λ f. (string_bytes f.0, f.1.items)) m.files.items; fails = m.fails.items; calls = m.calls; faults = m.faults; failed_at = m.failed_at; asked = map string_bytes m.asked.items } };
}

impl MemFiles {
    /// Files of these names and bytes, of which the calls of these numbers are to fail.
    pub fn new(alloc: Global, files: Vec<(String, Vec<u8>)>, fails: Vec<u64>) -> MemFiles
        ensures files { result.files ≡ map (λ f. (string_bytes f.0, f.1.items)) files.items }
        ensures fails { result.fails ≡ fails.items }
        ensures calls { result.calls ≡ 0 }
        ensures faults { result.faults ≡ 0 }
        ensures failed_at { result.failed_at ≡ 0 }
        ensures asked { result.asked ≡ [] }
    {
        MemFiles {
            files,
            fails,
            calls: 0,
            faults: 0,
            failed_at: 0,
            asked: Vec::new(alloc),
        }
    }

    /// The bytes of the first file of that name.
    fn find(&self, name: &str) -> Option<&Vec<u8>>
        ensures { option_map (λ bytes. bytes.now.items) result ≡ content_of self.now.files name.now }
    {
        self.files
            .iter()
            .find(|file| file.0.as_str() == name)
            .map(|file| &file.1)
    }

    /// What the next call answers.
    fn answer(&self, name: &str, limit: u64) -> Result<Vec<u8>, FetchFault>
        ensures { Answers result (fetch_answer self.now name.now limit) }
    {
        let call = self.calls.saturating_add(1);
        if self.fails.contains(&call) {
            return Err(FetchFault::Failed);
        }
        let Some(bytes) = self.find(name) else {
            return Err(FetchFault::Failed);
        };
        if bytes.len() as u64 > limit {
            return Err(FetchFault::TooLong);
        }
        bytes.clone().map_err(|_| FetchFault::NoMemory)
    }
}

impl Files for MemFiles {
    ghost world = { world_of };

    fn fetch(&mut self, alloc: Global, name: &str, limit: u64) -> Result<Vec<u8>, FetchFault>
        ensures fetched { Fetches name.now limit (world_of self.old) result (world_of self.new) }
        ensures answer { Answers result (fetch_answer self.old name.now limit) }
        ensures after { self.new ≡ files_after result self.old name.now }
    {
        let answer = self.answer(name, limit);
        if let Err(FetchFault::NoMemory) = answer {
            return answer;
        }
        let Ok(asked) = String::from_str(alloc, name) else {
            return Err(FetchFault::NoMemory);
        };
        if self.asked.push(asked).is_err() {
            return Err(FetchFault::NoMemory);
        }
        self.calls = self.calls.saturating_add(1);
        if let Err(FetchFault::Failed) = answer {
            self.faults = self.faults.saturating_add(1);
            self.failed_at = self.calls;
        }
        answer
    }
}
