//! The files that a command names.

/// The files that a command names: the portfolio's, and the scripts' in their order.
#[derive(Clone, Copy)]
pub struct Named<'a> {
    pub portfolio: &'a str,
    pub scripts: &'a [String],
}

impl<'a> Named<'a> {
    /// Those of a command of `actus`: the first word behind its own, but for a desk, which has a number there.
    pub fn by_command(words: &'a [String]) -> Named<'a> {
        let is_desk = words.first().is_some_and(|word| word.as_str() == "desk");
        if is_desk {
            Named::at(words, 2, 3)
        } else {
            Named::at(words, 1, 2)
        }
    }

    /// Those of an audit: the first word, and those behind the text's.
    pub fn by_audit(words: &'a [String]) -> Named<'a> {
        Named::at(words, 0, 2)
    }

    /// Those of the words at a place, and from a place on.
    fn at(words: &'a [String], portfolio: usize, scripts: usize) -> Named<'a> {
        Named {
            portfolio: words.get(portfolio).map_or("", |word| word.as_str()),
            scripts: words.get(scripts..).unwrap_or(&[]),
        }
    }

    /// The name of the script of that number, from 1.
    pub(crate) fn script(&self, number: u32) -> &'a str {
        let place = (number as usize).saturating_sub(1);
        self.scripts.get(place).map_or("", |word| word.as_str())
    }
}
