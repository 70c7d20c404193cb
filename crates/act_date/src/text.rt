//! Dates as text.
ghost use Rattle.std.specs.Prelude.{◌≡◌, ◌+◌, ◌%◌, ◌^◌, ◌<◌, ◌≤◌, length, true, false, if◌then◌else◌, IfSome, MatchOption};
ghost use Rattle.act_date.specs.JiffDate.{IsSameDate};
ghost use Rattle.act_date.specs.Text.{date_text, day_of, has_date, has_digits_behind, has_time_form, is_date_form, is_time_form, is_midnight, number_of, two_digits, written_date};

use crate::{DateFault, Day, civil};
use jiff::civil::Date;

/// The day of a text `YYYY-MM-DD` or `YYYY-MM-DDT00:00:00`, or the first fault that it has, in the order
/// of [`DateFault`].
pub fn parse_day(text: &[u8]) -> Result<Day, DateFault>
    ensures { result ≡ day_of text.now }
{
    let Some(midnight) = is_midnight(text) else {
        return Err(DateFault::NotDate);
    };
    let Some(date) = written_date(text) else {
        return Err(DateFault::NotDate);
    };
    if !midnight {
        return Err(DateFault::TimeOfDay);
    }
    Day::from_date(date).ok_or(DateFault::DateRange)
}

/// Whether no time of day stands behind a date, or midnight, or None where something else stands there.
fn is_midnight(text: &[u8]) -> Option<bool>
    ensures { result ≡ (if has_time_form text.now then Some (is_midnight text.now) else None) }
{
    match text.len() {
        10 => Some(true),
        19 => {
            let (hour, minute, second) = time_parts(text)?;
            Some(hour + minute + second == 0)
        }
        _ => None,
    }
}

/// The hour, the minute and the second that the form `Thh:mm:ss` writes behind ten bytes, or None where
/// the bytes there have another form.
fn time_parts(text: &[u8]) -> Option<(u16, u16, u16)>
    requires { length text.now ≡ 19 }
    ensures value { result
        ≡ (if is_time_form text.now
        then Some (two_digits text.now 11, two_digits text.now 14, two_digits text.now 17) else None) }
    ensures bound { IfSome result (λ parts. (parts.0 < 100) × (parts.1 < 100) × (parts.2 < 100)) }
{
    let hour = digits_behind(text, 10, b'T')?;
    let minute = digits_behind(text, 13, b':')?;
    let second = digits_behind(text, 16, b':')?;
    Some((hour, minute, second))
}

/// The date that the first ten bytes write, or None where they have another form than `YYYY-MM-DD` or
/// there is no such civil day.
fn written_date(text: &[u8]) -> Option<Date>
    requires { 10 ≤ length text.now }
    ensures { MatchOption result (has_date text.now ≡ false)
        (λ d. (has_date text.now ≡ true) × IsSameDate (written_date text.now) d) }
{
    let (year, month, day) = date_parts(text)?;
    Date::new(year as i16, month as i8, day as i8).ok()
}

/// The year, the month and the day that the form `YYYY-MM-DD` writes, or None where the first ten bytes
/// have another form.
fn date_parts(text: &[u8]) -> Option<(u16, u16, u16)>
    requires { 10 ≤ length text.now }
    ensures value { let date = written_date text.now in
        result ≡ (if is_date_form text.now then Some (date.year, date.month, date.day) else None) }
    ensures bound { IfSome result (λ parts. (parts.0 < 10_000) × (parts.1 < 100) × (parts.2 < 100)) }
{
    let year = number(&text[0..4])?;
    let month = digits_behind(text, 4, b'-')?;
    let day = digits_behind(text, 7, b'-')?;
    Some((year, month, day))
}

/// The number that two digits write behind the mark, or None where other bytes stand there.
#[tactic(auto, unfolding(crate::specs::Text::has_digits_behind, crate::specs::Text::two_digits))]
fn digits_behind(text: &[u8], at: usize, mark: u8) -> Option<u16>
    requires { at + 3 ≤ length text.now }
    ensures value { result
        ≡ (if has_digits_behind text.now at mark then Some (two_digits text.now (at + 1)) else None) }
    ensures bound { IfSome result (λ n. n < 100) }
{
    if text[at] != mark {
        return None;
    }
    number(&text[at + 1..at + 3])
}

/// The number that at most four digits write, or None where another byte is among them.
pub(crate) fn number(digits: &[u8]) -> Option<u16>
    requires { length digits.now ≤ 4 }
    ensures value { result ≡ number_of digits.now }
    ensures bound { IfSome result (λ n. n < 10 ^ length digits.now) }
{
    let mut value = 0;
    for digit in digits {
        if !digit.is_ascii_digit() {
            return None;
        }
        value = 10 * value + u16::from(*digit - b'0');
    }
    Some(value)
}

impl Day {
    /// Writes the day as `YYYY-MM-DD`, which [`parse_day`] reads as the day again.
    pub fn write(self, out: &mut [u8; 10])
        ensures written { out.new ≡ date_text self }
        ensures read_back { day_of out.new ≡ Ok self }
    {
        let (year, month, day) = civil(self);
        let year = year as u16;
        let (month, day) = (u16::from(month), u16::from(day));
        *out = [
            last_digit(year / 1000),
            last_digit(year / 100),
            last_digit(year / 10),
            last_digit(year),
            b'-',
            last_digit(month / 10),
            last_digit(month),
            b'-',
            last_digit(day / 10),
            last_digit(day),
        ];
    }
}

/// The last decimal digit, as text.
fn last_digit(number: u16) -> u8
    ensures { result ≡ 48 + number % 10 }
{
    b'0' + (number % 10) as u8
}
