//! Texts put together from pieces.
ghost use Rattle.std.specs.Prelude.{◌≡◌, ◌+◌, ◌≤◌, ◌++◌, length, take, drop};

/// Writes the text at a place of `out`, and returns the place behind it.
#[tactic(auto, using(std::proofs::lemmas::Slice::overwrites))]
pub(crate) fn put(out: &mut [u8], at: usize, text: &[u8]) -> usize
    requires { at + length text.now ≤ length out.old }
    ensures end { result ≡ at + length text.now }
    ensures written { take result out.new ≡ take at out.old ++ text.now }
    ensures rest { drop result out.new ≡ drop result out.old }
{
    let end = at + text.len();
    out[at..end].copy_from_slice(text);
    end
}
