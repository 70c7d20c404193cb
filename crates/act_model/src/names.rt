//! Names and their numbers.
ghost use Rattle.std.specs.Prelude.{◌≡◌, ◌≤◌, ◌++◌, [], ◌∷◌, true, false, None, Some, length, slice_get, option_map, IfOk, IfErr, IfSome, codes};
ghost use Rattle.std.specs.Str.{bytes_eq};
ghost use Rattle.act_model.specs.Name.{is_name};
ghost use Rattle.act_model.specs.Names.{AreFew, AreNames, no_names, number_of, place_of, with_name};

use crate::limits::MOST_NAMES;
use act_num::NoMemory;
use std::alloc::{AllocError, Global};
use std::collections::BTreeMap;
use std::marker::Model;
use std::sync::Arc;

/// The names of contracts, of market objects, which are called codes, and of currencies. A name's number is its
/// place, from 0, among those of its sort, in the order in which they were added. No name is held twice, and there are
/// at most 134,217,727 of each sort.
#[derive(Drop)]
pub struct Names {
    contracts: NameList,
    codes: NameList,
    currencies: NameList,
}

impl Model for Names {
    ghost use Rattle.act_model.specs.Names.{NameLists};

    ghost Value = { NameLists };

    ghost view = { λ n. record { contracts = n.contracts; codes = n.codes; currencies = n.currencies } };
}

/// Names of one sort, in the order in which they were added, at most 134,217,727, and the number of each. Copies share them until
/// one gets another name. A list without names holds nothing, so that no memory is needed to make one.
#[derive(Drop)]
struct NameList {
    alloc: Global,
    held: Option<Arc<Held, Global>>,
}

impl Model for NameList {
    ghost use Rattle.std.specs.Prelude.{[], ◌≤◌, ℕ, List, length};
    ghost use Rattle.std.specs.Arc.{arc_value};
    ghost use Rattle.std.specs.Option.{option_map_or};
    ghost use Rattle.act_model.specs.Limits.{most_names};

    ghost Value = { List (List ℕ) };

    ghost view = { λ n. option_map_or arc_value n.held [] };

    ghost invariant = { λ n. length (option_map_or arc_value n.held []) ≤ most_names };
}

/// The names that a list holds, and the number of each. The numbers are in a tree, so that no choice of names makes a look-up
/// slow.
#[derive(Drop)]
struct Held {
    texts: Vec<String>,
    numbers: BTreeMap<String, u32>,
}

impl Model for Held {
    ghost use Rattle.std.specs.Prelude.{◌≡◌, ℕ, List, map, string_bytes};
    ghost use Rattle.std.specs.BTreeMap.{get_by_text};
    ghost use Rattle.act_model.specs.Names.{AreNames, place_of};

    ghost Value = { List (List ℕ) };

    ghost view = { λ n. map string_bytes n.texts.items };

    ghost invariant = { λ n. AreNames (map string_bytes n.texts.items)
        × ((name : List ℕ) → get_by_text n.numbers name ≡ place_of name (map string_bytes n.texts.items)) };
}

impl Names {
    /// No names. What is added later is allocated by `alloc`.
    pub fn new(alloc: Global) -> Names
        ensures { result ≡ no_names }
    {
        Names {
            contracts: NameList::new(alloc),
            codes: NameList::new(alloc),
            currencies: NameList::new(alloc),
        }
    }

    /// The name of the contract of that number, or None where there is no such number.
    pub fn id(&self, contract: u32) -> Option<&str>
        ensures value { option_map (λ s. s.now) result ≡ slice_get self.now.contracts contract }
        ensures name { IfSome result (λ s. is_name s.now ≡ true) }
        ensures number { IfSome result (λ s. place_of s.now self.now.contracts ≡ Some contract) }
    {
        self.contracts.name(contract)
    }

    /// The name of the market object of that number, or None where there is no such number.
    pub fn code(&self, code: u32) -> Option<&str>
        ensures value { option_map (λ s. s.now) result ≡ slice_get self.now.codes code }
        ensures name { IfSome result (λ s. is_name s.now ≡ true) }
        ensures number { IfSome result (λ s. place_of s.now self.now.codes ≡ Some code) }
    {
        self.codes.name(code)
    }

    /// The name of the currency of that number, or None where there is no such number.
    pub fn currency(&self, currency: u32) -> Option<&str>
        ensures value { option_map (λ s. s.now) result ≡ slice_get self.now.currencies currency }
        ensures name { IfSome result (λ s. is_name s.now ≡ true) }
        ensures number { IfSome result (λ s. place_of s.now self.now.currencies ≡ Some currency) }
    {
        self.currencies.name(currency)
    }

    /// The number of the contract of that name, or None where there is no such name.
    pub fn contract(&self, id: &str) -> Option<u32>
        ensures { result ≡ place_of id.now self.now.contracts }
    {
        self.contracts.number(id)
    }

    /// The number of the market object of that name, or None where there is no such name.
    pub fn find_code(&self, code: &str) -> Option<u32>
        ensures { result ≡ place_of code.now self.now.codes }
    {
        self.codes.number(code)
    }

    /// The number of the currency of that name, or None where there is no such name.
    pub fn find_currency(&self, currency: &str) -> Option<u32>
        ensures { result ≡ place_of currency.now self.now.currencies }
    {
        self.currencies.number(currency)
    }

    /// Adds the name of a contract, which isn't there yet and isn't `*`, behind the others, and gives its number.
    /// NoMemory where memory runs out, or where there are 134,217,727 names of contracts already; the names are then
    /// as before.
    pub fn add_contract(&mut self, id: &str) -> Result<u32, NoMemory>
        requires name { is_name id.now ≡ true }
        requires no_star { bytes_eq id.now (codes "*") ≡ false }
        requires absent { place_of id.now self.old.contracts ≡ None }
        ensures number { IfOk result (λ n. n ≡ length self.old.contracts) }
        ensures names { IfOk result (λ _. self.new ≡ record self.old { contracts = self.old.contracts ++ id.now ∷ [] }) }
        ensures unchanged { IfErr result (λ _. self.new ≡ self.old) }
    {
        self.contracts.add(id)
    }

    /// Gives the number of the name of a market object, which it adds behind the others where it isn't there.
    /// NoMemory where memory runs out, or where it isn't there and there are 134,217,727 names of market objects
    /// already; the names are then as before.
    pub fn intern_code(&mut self, code: &str) -> Result<u32, NoMemory>
        requires name { is_name code.now ≡ true }
        ensures number { IfOk result (λ n. n ≡ number_of code.now self.old.codes) }
        ensures names { IfOk result (λ _. self.new ≡ record self.old { codes = with_name code.now self.old.codes }) }
        ensures unchanged { IfErr result (λ _. self.new ≡ self.old) }
    {
        self.codes.intern(code)
    }

    /// Gives the number of the name of a currency, which it adds behind the others where it isn't there. NoMemory
    /// where memory runs out, or where it isn't there and there are 134,217,727 names of currencies already; the
    /// names are then as before.
    pub fn intern_currency(&mut self, currency: &str) -> Result<u32, NoMemory>
        requires name { is_name currency.now ≡ true }
        ensures number { IfOk result (λ n. n ≡ number_of currency.now self.old.currencies) }
        ensures names { IfOk result (λ _. self.new ≡ record self.old { currencies = with_name currency.now self.old.currencies }) }
        ensures unchanged { IfErr result (λ _. self.new ≡ self.old) }
    {
        self.currencies.intern(currency)
    }

    /// The names of each sort are names, and each has the number of its place. It does nothing, and stands where a proof needs
    /// this.
    #[inline(always)]
    pub fn are_named(&self)
        ensures contracts { AreNames self.now.contracts }
        ensures codes { AreNames self.now.codes }
        ensures currencies { AreNames self.now.currencies }
    {
        self.contracts.are_named();
        self.codes.are_named();
        self.currencies.are_named();
    }

    /// A copy of the names.
    pub fn copied(&self) -> Result<Names, NoMemory>
        ensures names { IfOk result (λ names. names ≡ self.now) }
        ensures few { IfOk result (λ names. AreFew names) }
    {
        let contracts = self.contracts.copied()?;
        let codes = self.codes.copied()?;
        let currencies = self.currencies.copied()?;
        Ok(Names {
            contracts,
            codes,
            currencies,
        })
    }
}

impl NameList {
    /// No names.
    fn new(alloc: Global) -> NameList
        ensures { result ≡ [] }
    {
        NameList { alloc, held: None }
    }

    /// The name of that number.
    fn name(&self, number: u32) -> Option<&str>
        ensures value { option_map (λ s. s.now) result ≡ slice_get self.now number }
        ensures name { IfSome result (λ s. is_name s.now ≡ true) }
        ensures number { IfSome result (λ s. place_of s.now self.now ≡ Some number) }
    {
        match &self.held {
            Some(held) => held.name(number),
            None => None,
        }
    }

    /// The number of that name.
    fn number(&self, name: &str) -> Option<u32>
        ensures { result ≡ place_of name.now self.now }
    {
        match &self.held {
            Some(held) => held.number(name),
            None => None,
        }
    }

    /// Adds a name, which isn't there yet, behind the others, and gives its number. NoMemory also where there are as
    /// many as there may be.
    fn add(&mut self, name: &str) -> Result<u32, NoMemory>
        requires name { is_name name.now ≡ true }
        requires absent { place_of name.now self.old ≡ None }
        ensures number { IfOk result (λ n. n ≡ length self.old) }
        ensures names { IfOk result (λ _. self.new ≡ self.old ++ name.now ∷ []) }
        ensures unchanged { IfErr result (λ _. self.new ≡ self.old) }
    {
        if self.held.is_none() {
            self.held = Some(Arc::new(self.alloc, Held::new(self.alloc))?);
        }
        match &mut self.held {
            Some(held) => Arc::make_mut(held)?.add(name),
            None => unreachable!(),
        }
    }

    /// The number of a name, which it adds behind the others where it isn't there.
    fn intern(&mut self, name: &str) -> Result<u32, NoMemory>
        requires name { is_name name.now ≡ true }
        ensures number { IfOk result (λ n. n ≡ number_of name.now self.old) }
        ensures names { IfOk result (λ _. self.new ≡ with_name name.now self.old) }
        ensures unchanged { IfErr result (λ _. self.new ≡ self.old) }
    {
        match self.number(name) {
            Some(number) => Ok(number),
            None => self.add(name),
        }
    }

    /// They are names, and each has the number of its place.
    fn are_named(&self)
        ensures { AreNames self.now }
    {
        if let Some(held) = &self.held {
            held.are_named();
        }
    }

    /// A copy of the names, which shares them.
    fn copied(&self) -> Result<NameList, NoMemory>
        ensures names { IfOk result (λ names. names ≡ self.now) }
        ensures few { IfOk result (λ names. length names ≤ MOST_NAMES) }
    {
        let held = match &self.held {
            Some(held) => Some(Arc::try_clone(held)?),
            None => None,
        };
        Ok(NameList {
            alloc: self.alloc,
            held,
        })
    }
}

impl Held {
    /// No names.
    fn new(alloc: Global) -> Held
        ensures { result ≡ [] }
    {
        Held {
            texts: Vec::new(alloc),
            numbers: BTreeMap::new(alloc),
        }
    }

    /// The name of that number.
    fn name(&self, number: u32) -> Option<&str>
        ensures value { option_map (λ s. s.now) result ≡ slice_get self.now number }
        ensures name { IfSome result (λ s. is_name s.now ≡ true) }
        ensures number { IfSome result (λ s. place_of s.now self.now ≡ Some number) }
    {
        let text = self.texts.get(number as usize)?;
        Some(text.as_str())
    }

    /// The number of that name.
    fn number(&self, name: &str) -> Option<u32>
        ensures { result ≡ place_of name.now self.now }
    {
        self.numbers.get(name).copied()
    }

    /// They are names, and each has the number of its place.
    fn are_named(&self)
        ensures { AreNames self.now }
    {
        let _ = &self.texts;
    }

    /// Adds a name, which isn't there yet, behind the others, and gives its number. NoMemory also where there are as
    /// many as there may be.
    fn add(&mut self, name: &str) -> Result<u32, NoMemory>
        requires name { is_name name.now ≡ true }
        requires absent { place_of name.now self.old ≡ None }
        ensures number { IfOk result (λ n. n ≡ length self.old) }
        ensures names { IfOk result (λ _. self.new ≡ self.old ++ name.now ∷ []) }
        ensures few { IfOk result (λ _. length self.new ≤ MOST_NAMES) }
        ensures unchanged { IfErr result (λ _. self.new ≡ self.old) }
    {
        if self.texts.len() >= MOST_NAMES {
            return Err(NoMemory);
        }
        let number = self.texts.len() as u32;
        let alloc = *self.texts.allocator();
        let text = String::from_str(alloc, name)?;
        let key = String::from_str(alloc, name)?;
        let Ok(_) = self.texts.push(text) else {
            return Err(NoMemory);
        };
        let Ok(_) = self.numbers.insert(key, number) else {
            self.texts.truncate(number as usize);
            return Err(NoMemory);
        };
        Ok(number)
    }
}

impl Clone for Held {
    ghost use Rattle.std.specs.Prelude.{◌≡◌};

    ghost is_clone = { λ held copy. copy ≡ held };

    fn clone(&self) -> Result<Held, AllocError> {
        let texts = self.texts.clone()?;
        let numbers = self.numbers.clone()?;
        Ok(Held { texts, numbers })
    }
}
