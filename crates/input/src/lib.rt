// For other crates, to read as `lamp` and `vectors` do, each by a function of its own: as much of an input as a room holds. No crate here calls it.
#![tactic(auto)]

ghost use Rattle.std.specs.Prelude.{◌≤◌, length};
ghost use Rattle.std.specs.Io.KnownBytes.{Consumes};

use std::io;

// Reads until the room is full, the input ends or a read fails, and hands out what it read: just the bytes that the input lost, where it says which.
// Kept: a `while`, since only `read` says how far a turn comes.
pub fn read_full<'a, R: io::Read>(from: &mut R, room: &'a mut [u8]) -> &'a [u8]
    ensures fits { length result.now ≤ length room.old }
    ensures bytes { Consumes (R.remaining from.old) (R.remaining from.new) result.now }
{
    let mut done = 0;
    while done < room.len() {
        match from.read(&mut room[done..]) {
            Ok(0) | Err(_) => break,
            Ok(got) => done += got,
        }
    }
    &room[..done]
}

#[cfg(test)]
mod tests {
    use super::*;
    use std::io::Read;

    // Each read fails.
    #[derive(Drop)]
    struct Broken;

    impl io::Read for Broken {
        fn read(&mut self, _buf: &mut [u8]) -> io::Result<usize> {
            Err(io::ErrorKind::Other.into())
        }
    }

    // What no contract says, since a read may give less or fail at any byte: that it goes on after reads that gave less than there was room for, and
    // stops at a full room, at the input's end and at a read that fails.
    #[test]
    fn reads_until_full_or_ended(rt: HostRuntime) {
        let mut room = [0; 4];
        let front = b"a".as_slice().chain(b"b".as_slice());
        let mut input = front.chain(b"c".as_slice()).chain(b"def".as_slice());
        for want in [b"abcd".as_slice(), b"ef", b""] {
            assert_eq!(rt; *read_full(&mut input, &mut room), *want);
        }
        let mut input = b"ab".as_slice().chain(Broken);
        assert_eq!(rt; *read_full(&mut input, &mut []), *b"".as_slice());
        assert_eq!(rt; *read_full(&mut input, &mut room), *b"ab".as_slice());
        assert_eq!(rt; *read_full(&mut input, &mut room), *b"".as_slice());
    }
}
