// A text put into lent bytes.
ghost use Rattle.command.specs.Output.{Puts};

use cube::refusal::Refusal;

/// Puts a text at the front of the bytes, if they are enough for it, and returns its length.
pub fn put_text(text: &[u8], out: &mut [u8]) -> Result<usize, Refusal>
    ensures { Puts text.now out.old result out.new }
{
    // Tried: after `get_mut(..size)` or `split_at_mut_checked(size)` the proof has lost what the bytes end as.
    let size = text.len();
    if size > out.len() {
        return Err(Refusal::OutputTooShort);
    }
    out[..size].copy_from_slice(text);
    Ok(size)
}
