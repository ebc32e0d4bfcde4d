// Input into memory that is lent.
ghost use Rattle.std.specs.Prelude.{◌≡◌, ◌≤◌, length, take, IfOk, IfSome};

use std::io;
use std::io::Read;

// Reads until the memory is full or the input ends: how many bytes came. Each read asks for all that is free, so a packet
// for which there is room is never cut. Each turn brings a byte at least, so there are no more turns than bytes.
pub fn fill<R: Read>(source: &mut R, buf: &mut [u8]) -> io::Result<usize>
    ensures within { IfOk result (λ n. n ≤ length buf.new) }
    ensures bytes { IfOk result (λ n. IfSome (R.remaining source.old) (λ xs. take n buf.new ≡ take (length buf.new) xs)) }
{
    let mut used = 0;
    for _ in 0..buf.len() {
        let count = source.read(&mut buf[used..])?;
        if count == 0 {
            return Ok(used);
        }
        used += count;
    }
    Ok(used)
}
