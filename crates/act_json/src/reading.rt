//! Reading JSON.
ghost use Rattle.std.specs.Prelude.{◌≡◌, ◌≢◌, ◌+◌, ◌*◌, ◌≤◌, length, Some, None, Err, IfOk, IfErr, IsUtf8};
ghost use Rattle.std.specs.Option.{ForSome};
ghost use Rattle.serde_json.specs.Events.{items_len};
ghost use Rattle.serde_json.specs.Find.{as_array};
ghost use Rattle.serde_json.specs.Read.{read};
ghost use Rattle.serde_json.specs.View.{view};
ghost use Rattle.act_json.specs.Reading.{json_of};
ghost use Rattle.act_json.specs.Results.{result_map};

use crate::JsonFault;
use crate::quoting::{is_quoted, quote};
use serde_json::Value;
use std::alloc::Global;

/// The JSON value that the bytes are read as, once each bare number is in quotes; NotJson exactly where they have
/// no reading by `serde_json`: they aren't UTF-8 or no JSON, or lists and objects nest more than 127 deep. A list has
/// at most three values for each byte, and one.
pub fn read(alloc: Global, bytes: &[u8]) -> Result<Value, JsonFault>
    ensures value { result ≢ Err JsonFault.NoMemory → result_map view result ≡ json_of bytes.now }
    ensures few { IfOk result (λ value. ForSome (as_array (view value)) (λ items. items_len items ≤ 3 * length bytes.now + 1)) }
{
    if is_quoted(bytes) {
        return read_quoted(alloc, bytes);
    }
    let Ok(quoted) = quote(alloc, bytes) else {
        return Err(JsonFault::NoMemory);
    };
    read_quoted(alloc, &quoted)
}

/// The JSON value of a text in which no bare number stands; NotJson where it has no reading by `serde_json`.
fn read_quoted(alloc: Global, text: &[u8]) -> Result<Value, JsonFault>
    ensures value { IfOk result (λ value. IsUtf8 text.now × (read text.now ≡ Some (view value))) }
    ensures refused { IfErr result (λ fault. fault ≢ JsonFault.NoMemory
        → (fault ≡ JsonFault.NotJson) × (IsUtf8 text.now → read text.now ≡ None)) }
{
    match Value::from_slice(alloc, text) {
        Ok(value) => Ok(value),
        Err(error) if error.is_memory() => Err(JsonFault::NoMemory),
        Err(_) => Err(JsonFault::NotJson),
    }
}
