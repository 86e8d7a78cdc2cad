// What texts are put into.
ghost use Rattle.std.specs.Prelude.{◌≡◌, ℕ, ◌+◌, ◌≤◌, ⊤, List, length, OnErr};
ghost use Rattle.writing.specs.Sinks.{Put, SinkLaws};
ghost use Rattle.writing.specs.Writes.{room_in, WritesOn, KeepsFront};
ghost use Rattle.writing.specs.Laws.{counting_laws, writing_laws};

use crate::fault::SaveFault;

// Takes bytes one after the other, as far as there is room.
pub trait Sink {
    // for how many bytes there is room
    ghost room: { Self → ℕ };

    // the sink before a text that was put, the text, and the sink after it
    ghost puts: { Self → List ℕ → Self → Type 0 };

    // what was put before stays, with room or without
    ghost keeps: { Self → Self → Type 0 };

    // Puts bytes, or nothing where there is no room for them.
    fn put(&mut self, bytes: &[u8]) -> Result<(), SaveFault>
        ensures put { Put room puts keeps self.old bytes.now result self.new }
        ensures refused { OnErr result (self.new ≡ self.old) };

    ghost laws: { SinkLaws room puts keeps };
}

// Only counts: for how many bytes more there is room.
#[derive(Drop)]
pub struct Counter {
    pub left: usize,
}

impl Sink for Counter {
    ghost room = { λ c. c.left };

    ghost puts = { λ c text d. d.left + length text ≡ c.left };

    ghost keeps = { λ c d. ⊤ };

    ghost laws = { counting_laws (λ c. c.left) };

    fn put(&mut self, bytes: &[u8]) -> Result<(), SaveFault> {
        self.left = self.left.checked_sub(bytes.len()).ok_or(SaveFault::NoRoom)?;
        Ok(())
    }
}

// Writes into a buffer, from a place on: not into a slice that shrinks, since what was put before must be known to be there still.
#[derive(Drop)]
pub struct Buffer<'a> {
    pub out: &'a mut [u8],
    pub at: usize,
    ghost within: { at ≤ length out.now },
}

impl<'a> Sink for Buffer<'a> {
    ghost room = { λ b. room_in (record { name = b.out.ghost_name; bytes = b.out.now; at = b.at }) };

    ghost puts = { λ b text c. WritesOn (record { name = b.out.ghost_name; bytes = b.out.now; at = b.at }) text (record { name = c.out.ghost_name; bytes = c.out.now; at = c.at }) };

    ghost keeps = { λ b c. KeepsFront (record { name = b.out.ghost_name; bytes = b.out.now; at = b.at }) (record { name = c.out.ghost_name; bytes = c.out.now; at = c.at }) };

    ghost laws = { writing_laws (λ b. record { name = b.out.ghost_name; bytes = b.out.now; at = b.at }) (λ b. b.within) };

    fn put(&mut self, bytes: &[u8]) -> Result<(), SaveFault> {
        if bytes.len() > self.out.len() - self.at {
            return Err(SaveFault::NoRoom);
        }
        let end = self.at + bytes.len();
        self.out[self.at..end].copy_from_slice(bytes);
        self.at = end;
        Ok(())
    }
}
