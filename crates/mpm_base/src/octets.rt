//! A growing list of bytes.
ghost use Rattle.std.specs.Prelude.{◌≡◌, ◌++◌, decimal, IfOk, OnOk, OnErr};

use crate::memory::NoMemory;
use crate::sequence::Sequence;
use itoa::Buffer;
use std::alloc::Global;

/// A list of bytes, as contracts see it.
pub type Octets = Sequence<u8>;

impl Sequence<u8> {
    /// A copy of the bytes.
    pub fn of(alloc: Global, bytes: &[u8]) -> Result<Octets, NoMemory>
        ensures { IfOk result (λ octets. octets ≡ bytes.now) }
    {
        match Vec::from_slice(alloc, bytes) {
            Ok(items) => Ok(Sequence { items }),
            Err(_) => Err(NoMemory),
        }
    }

    /// Puts the bytes at the end. Where memory lacks nothing changes.
    pub fn add(&mut self, bytes: &[u8]) -> Result<(), NoMemory>
        ensures ok { OnOk result (self.new ≡ self.old ++ bytes.now) }
        ensures err { OnErr result (self.new ≡ self.old) }
    {
        match self.items.extend_from_slice(bytes) {
            Ok(()) => Ok(()),
            Err(_) => Err(NoMemory),
        }
    }

    /// Puts the bytes of both pieces at the end, the one behind the other. Where memory lacks nothing changes.
    pub fn add_pair(&mut self, first: &[u8], second: &[u8]) -> Result<(), NoMemory>
        ensures ok { OnOk result (self.new ≡ self.old ++ first.now ++ second.now) }
        ensures err { OnErr result (self.new ≡ self.old) }
    {
        let before = self.items.len();
        self.add(first)?;
        if self.add(second).is_ok() {
            return Ok(());
        }
        self.items.truncate(before);
        Err(NoMemory)
    }

    /// Puts the decimal digits of the number at the end. Where memory lacks nothing changes.
    pub fn add_number(&mut self, number: u64) -> Result<(), NoMemory>
        ensures ok { OnOk result (self.new ≡ self.old ++ decimal number) }
        ensures err { OnErr result (self.new ≡ self.old) }
    {
        let mut buffer = Buffer::new();
        self.add(buffer.format(number).as_bytes())
    }
}
