// Whole texts saved into a lent buffer, and texts and bytes put at a place of one.
ghost use Rattle.std.specs.Prelude.{◌≡◌, ℕ, List, OnErr, OnOk};
ghost use Rattle.writing.specs.Saves.{PutAt, Saved};
ghost use Rattle.writing.specs.Sinks.{Put};

use crate::fault::SaveFault;
use crate::sink::{Buffer, Counter, Sink};

// What is put as a text.
pub trait Text {
    ghost text: { Self → List ℕ };

    // what its values are known to be once it is put
    ghost shown: { Self → Type 0 };

    // Puts the text into a sink.
    fn put_into<S: Sink>(&self, sink: &mut S) -> Result<(), SaveFault>
        ensures put { Put S.room S.puts S.keeps sink.old (text self.now) result sink.new }
        ensures shown { OnOk result (shown self.now) };
}

// Saves a text: its length, or no room and nothing written.
pub fn save<T: Text>(text: &T, out: &mut [u8]) -> Result<usize, SaveFault>
    ensures saved { Saved (T.text text.now) out.old out.new result }
    ensures shown { OnOk result (T.shown text.now) }
{
    let mut counter = Counter { left: out.len() };
    text.put_into(&mut counter)?;
    let length = out.len() - counter.left;
    text.put_into(&mut Buffer { out, at: 0 })?;
    Ok(length)
}

// Puts bytes at a place of a buffer: the place after them. There is no room where they, or the place, lie past its end, and then nothing
// is put.
pub fn put_bytes(out: &mut [u8], at: usize, bytes: &[u8]) -> Result<usize, SaveFault>
    ensures put { PutAt out.old at bytes.now out.new result }
    ensures refused { OnErr result (out.new ≡ out.old) }
{
    if at > out.len() {
        return Err(SaveFault::NoRoom);
    }
    let mut buffer = Buffer { out, at };
    buffer.put(bytes)?;
    Ok(buffer.at)
}

// Puts a text at a place of a buffer: the place after it. There is no room where it, or the place, lies past its end, and then nothing is
// put.
pub fn put_at<T: Text>(text: &T, out: &mut [u8], at: usize) -> Result<usize, SaveFault>
    ensures put { PutAt out.old at (T.text text.now) out.new result }
    ensures shown { OnOk result (T.shown text.now) }
{
    let left = out.len().checked_sub(at).ok_or(SaveFault::NoRoom)?;
    let mut room = Counter { left };
    text.put_into(&mut room)?;
    let end = out.len() - room.left;
    text.put_into(&mut Buffer { out, at })?;
    Ok(end)
}
