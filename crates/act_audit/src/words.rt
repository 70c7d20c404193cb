//! The words of an audit.
ghost use Rattle.std.specs.Prelude.{◌≡◌, map, string_bytes};
ghost use Rattle.act_audit.specs.Words.{audit_of};

use act_model::MOST_CALLERS;
use std::marker::Model;

/// What is written where the words are of no form.
pub(crate) const USAGE: &[u8] = b"usage: P TEXT [S..]\n";

/// The names of the files that an audit reads: the portfolio, the text, and the scripts of its callers, of which there may be none.
#[derive(Drop)]
pub(crate) struct AuditWords<'a> {
    pub(crate) portfolio: &'a str,
    pub(crate) text: &'a str,
    pub(crate) scripts: &'a [String],
}

impl<'a> Model for AuditWords<'a> {
    ghost use Rattle.std.specs.Prelude.{◌≤◌, length, map, string_bytes};
    ghost use Rattle.act_audit.specs.Words as words;
    ghost use Rattle.act_model.specs.Limits.{most_callers};

    ghost Value = { words.AuditFiles };

    ghost view = { λ w. record { portfolio = w.portfolio.now; text = w.text.now; scripts = map string_bytes w.scripts.now } };

    ghost invariant = { λ w. length w.scripts.now ≤ most_callers };
}

impl<'a> AuditWords<'a> {
    /// The files of these words, or None where they are of another form.
    pub(crate) fn of(words: &'a [String]) -> Option<AuditWords<'a>>
        ensures { result ≡ audit_of (map string_bytes words.now) }
    {
        match words {
            [portfolio, text, scripts @ ..] => {
                if scripts.len() > MOST_CALLERS {
                    return None;
                }
                Some(AuditWords {
                    portfolio: portfolio.as_str(),
                    text: text.as_str(),
                    scripts,
                })
            }
            _ => None,
        }
    }
}
