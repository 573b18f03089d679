// What the programs read: a buffer of 65,536 bytes, filled from an input.
#![tactic(auto)]

ghost use Rattle.std.specs.Prelude.{◌≡◌, ◌≤◌, length, take};
ghost use Rattle.std.specs.Io.KnownBytes.{Consumes};

use std::io::Read;

// 65,536 zeros.
pub fn large_buffer() -> [u8; 65536]
    ensures { length result ≡ 65536 }
{
    [0; 65536]
}

// Reads until buf is full, the input ends or a read fails, and returns how many bytes it put at the start of buf.
pub fn read_full<R: Read>(from: &mut R, buf: &mut [u8]) -> usize
    ensures within { result ≤ length buf.new }
    ensures bytes { Consumes (R.remaining from.old) (R.remaining from.new) (take result buf.new) }
{
    // A loop over `read`: std's own loops don't say what they read before a failure.
    let mut done = 0;
    while done < buf.len() {
        match from.read(&mut buf[done..]) {
            Ok(0) => break,
            Ok(n) => done += n,
            Err(_) => break,
        }
    }
    done
}
