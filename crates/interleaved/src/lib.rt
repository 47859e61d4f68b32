//! Two memories in turn.
#![tactic(auto)]

ghost use Rattle.std.specs.Prelude.{◌≡◌, ◌/◌, if◌then◌else◌, Ok, Err, nat_lt};
ghost use Rattle.memory.specs.declared.refusal.Refusal.TheVariants.{NoSuchBlock};
ghost use Rattle.interleaved.specs.Interleaved.{interleaved_size, is_even, interleaved};
ghost use Rattle.interleaved.specs.InterleavedLaws.{interleaved-lawful};

use memory::Memory;
use memory::refusal::Refusal;

// The half that a block is in, and the block's number there.
// Each call matches on it, since the two memories are of different types.
#[derive(Clone, Copy, PartialEq, Eq, Debug)]
enum Half {
    Even(u16),
    Odd(u16),
}

/// Even block n is block n/2 of `even`, and odd block n is block (n-1)/2 of `odd`.
#[derive(Drop)]
pub struct Interleaved<E, O> {
    even: E,
    odd: O,
}

impl<E: Memory, O: Memory> Interleaved<E, O> {
    /// The two memories in turn.
    pub fn new(even: E, odd: O) -> Interleaved<E, O>
        ensures { (result.even ≡ even) × (result.odd ≡ odd) }
    {
        Self { even, odd }
    }

    /// The two memories, as they now are.
    pub fn into_parts(self) -> (E, O)
        ensures { (result.0 ≡ self.even) × (result.1 ≡ self.odd) }
    {
        let Interleaved { even, odd } = self;
        (even, odd)
    }

    /// The half that a block is in, and its number there.
    fn half(&self, block: u16) -> Result<Half, Refusal>
        ensures { result ≡ (if nat_lt block (interleaved_size (record { even = E.Memory.meaning self.now.even; odd = O.Memory.meaning self.now.odd })) then Ok (if is_even block then Half.Even (block / 2) else Half.Odd (block / 2)) else Err NoSuchBlock) }
    {
        if u32::from(block) >= self.size() {
            Err(Refusal::NoSuchBlock)
        } else if block % 2 == 0 {
            Ok(Half::Even(block / 2))
        } else {
            Ok(Half::Odd(block / 2))
        }
    }
}

impl<E: Memory, O: Memory> Memory for Interleaved<E, O> {
    ghost meaning = { λ p. interleaved (E.Memory.meaning p.even) (O.Memory.meaning p.odd) };

    ghost lawful = { λ p. interleaved-lawful (E.Memory.meaning p.even) (O.Memory.meaning p.odd) (E.Memory.lawful p.even) (O.Memory.lawful p.odd) };

    fn size(&self) -> u32 {
        let smaller = self.even.size().min(self.odd.size());
        smaller.min(32768) * 2
    }

    fn ask(&self, block: u16) -> Result<Option<u32>, Refusal> {
        match self.half(block)? {
            Half::Even(found) => self.even.ask(found),
            Half::Odd(found) => self.odd.ask(found),
        }
    }

    fn store(&mut self, block: u16, stamp: u32) -> Result<(), Refusal> {
        match self.half(block)? {
            Half::Even(found) => self.even.store(found, stamp),
            Half::Odd(found) => self.odd.store(found, stamp),
        }
    }

    fn stale(&mut self, block: u16) -> Result<(), Refusal> {
        match self.half(block)? {
            Half::Even(found) => self.even.stale(found),
            Half::Odd(found) => self.odd.stale(found),
        }
    }
}
