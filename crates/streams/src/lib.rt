// Reading to the end of an input. A read that fails is told apart from the end, whatever the reason: nothing there yet, a directory, a
// closed descriptor.
#![tactic(auto)]

ghost use Rattle.std.specs.Prelude.{◌≡◌, length, IfOk};
ghost use Rattle.streams.specs.Read.{meant, Holds};

use std::io;
use std::io::Read;

// How many bytes a read gave: none only at the end of the input, and a read that fails is not the end.
fn meaning(answer: io::Result<usize>) -> io::Result<Option<usize>>
    ensures { result ≡ meant answer }
{
    match answer {
        Ok(0) => Ok(None),
        Ok(count) => Ok(Some(count)),
        Err(error) => Err(error),
    }
}

// What is left of a text that is too long is read and forgotten: to the end of the input, or past 16 petabytes of it.
fn skip_all<R: Read>(reader: &mut R) -> io::Result<()> {
    let mut space = [0; 65536];
    for _ in 0..274877906944u64 {
        if meaning(reader.read(&mut space))?.is_none() {
            return Ok(());
        }
    }
    Ok(())
}

// The front of a text that the room holds, to its end or until the room is full; how many bytes.
fn read_front<R: Read>(reader: &mut R, room: &mut [u8]) -> io::Result<usize>
    ensures { IfOk result (λ count. Holds (R.remaining reader.old) room.new count) }
{
    let mut done = 0;
    while done < room.len() {
        let Some(more) = meaning(reader.read(&mut room[done..]))? else {
            return Ok(done);
        };
        done += more;
    }
    Ok(done)
}

// A text, to its end; how many bytes of it lie in the room. What finds no room is read and forgotten, so that a writer does not find the
// pipe closed.
pub fn read_text<R: Read>(reader: &mut R, room: &mut [u8]) -> io::Result<usize>
    ensures { IfOk result (λ count. Holds (R.remaining reader.old) room.new count) }
{
    let count = read_front(reader, room)?;
    if count == room.len() {
        skip_all(reader)?;
    }
    Ok(count)
}
