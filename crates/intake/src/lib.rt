//! Texts, taken from an input.
#![tactic(auto)]

ghost use Rattle.std.specs.Prelude.{◌≡◌, ◌≤◌, IfOk, IfSome, take, vec_items, vec_len};

use scenario::reader::MOST_TEXT;
use std::alloc::Global;
use std::io;
use std::io::Read;

// One byte more than a text may have, by which a longer one is known.
fn most() -> u64
    ensures { result ≡ 65537 }
{
    MOST_TEXT as u64 + 1
}

/// The bytes of an input, but no more than one above those that a text may have.
pub fn text<R: Read + Drop>(heap: Global, input: R) -> io::Result<Vec<u8>>
    ensures given { IfOk result (λ bytes. IfSome (R.remaining input) (λ given. vec_items bytes ≡ take 65537 given)) }
    ensures most { IfOk result (λ bytes. vec_len bytes ≤ 65537) }
{
    let mut bytes = Vec::new(heap);
    input.take(most()).read_to_end(&mut bytes)?;
    // no contract says how many bytes come from an input whose contents are not known
    bytes.truncate(MOST_TEXT + 1);
    Ok(bytes)
}
