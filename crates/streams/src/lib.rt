// What a program is handed, read into room that it lends.
#![tactic(auto)]

ghost use Rattle.std.specs.Prelude.{◌≤◌, ◌<◌, length, take, IfOk};
ghost use Rattle.std.specs.Io.KnownBytes.{Consumes, IsAtEnd};

use std::io;
use std::io::Read;

/// Reads until the room is full or the input ends, and gives how many bytes stand at the room's front: those that the
/// reader had, and all of them where the room is not full. A loop over `read`: of `read_exact` and `read_to_end` std says
/// little after an `Err`, and the first wants as much as the room holds.
pub fn read_full<R: Read>(reader: &mut R, room: &mut [u8]) -> io::Result<usize>
    ensures fits { IfOk result (λ n. n ≤ length room.new) }
    ensures bytes { IfOk result (λ n. Consumes (R.remaining reader.old) (R.remaining reader.new) (take n room.new)) }
    ensures end { IfOk result (λ n. n < length room.new → IsAtEnd (R.remaining reader.new)) }
{
    let mut done = 0;
    while done < room.len() {
        let n = reader.read(&mut room[done..])?;
        if n == 0 {
            break;
        }
        done += n;
    }
    Ok(done)
}

#[cfg(test)]
mod tests {
    use super::*;
    use std::test::Fail;

    #[test]
    fn reads_to_the_end_or_until_full(rt: HostRuntime) -> Result<(), Fail> {
        let mut room = [7u8; 4];
        let mut short: &[u8] = b"abc";
        assert!(rt; read_full(&mut short, &mut room)? == 3);
        assert!(rt; room == [97, 98, 99, 7]);
        let mut long: &[u8] = b"defghi";
        assert!(rt; read_full(&mut long, &mut room)? == 4);
        assert!(rt; room == [100, 101, 102, 103]);
        assert!(rt; long == b"hi".as_slice());
        Ok(())
    }
}
