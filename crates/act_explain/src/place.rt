//! Places in files, by their lines and columns.

use crate::contracts::File;
use crate::message::Message;

/// Says where in a file something stands: its name, the line and the column, both from 1. Columns are counted in characters.
pub(crate) fn say_place(message: &mut Message, file: File<'_>, place: usize) {
    message.show(file.name.as_bytes());
    message.say(":");
    say_line_column(message, file, place);
    message.say(": ");
}

/// Says the line and the column of a place.
pub(crate) fn say_line_column(message: &mut Message, file: File<'_>, place: usize) {
    let before = file.bytes.get(..place).unwrap_or(file.bytes);
    let (mut line, mut column) = (1_u64, 1_u64);
    for byte in before {
        if *byte == b'\n' {
            line = line.saturating_add(1);
            column = 1;
        } else if !matches!(byte, 0x80..=0xbf) {
            column = column.saturating_add(1);
        }
    }
    message.plain_number(line);
    message.say(":");
    message.plain_number(column);
}
