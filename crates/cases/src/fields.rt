// The bytes of a case, read from the front: numbers of several bytes are big-endian, and past the end there are zeros.
ghost use Rattle.std.specs.Prelude.{◌≡◌, ◌+◌, ◌*◌, ◌≤◌, get_or, take, drop};

use sheets::dates::{Date, Dates};
use texts::buffers::put;

#[derive(Clone, Copy, Drop)]
pub(crate) struct Fields<'a> {
    // what is not read yet
    pub(crate) rest: &'a [u8],
}

impl<'a> Fields<'a> {
    pub(crate) fn of(bytes: &'a [u8]) -> Fields<'a>
        ensures { result.rest.now ≡ bytes.now }
    {
        Fields { rest: bytes }
    }

    // So many bytes, as far as there are any.
    pub(crate) fn take(&mut self, n: usize) -> &'a [u8]
        ensures taken { result.now ≡ take n self.old.rest.now }
        ensures left { self.new.rest.now ≡ drop n self.old.rest.now }
    {
        let (taken, rest) = self.rest.split_at(n.min(self.rest.len()));
        self.rest = rest;
        taken
    }

    pub(crate) fn u8(&mut self) -> u8
        ensures value { result ≡ get_or self.old.rest.now 0 0 }
        ensures left { self.new.rest.now ≡ drop 1 self.old.rest.now }
    {
        let first = self.rest.first().copied().unwrap_or(0);
        self.take(1);
        first
    }

    pub(crate) fn u16(&mut self) -> u16
        ensures value { result ≡ get_or self.old.rest.now 0 0 * 256 + get_or self.old.rest.now 1 0 }
        ensures left { self.new.rest.now ≡ drop 2 self.old.rest.now }
    {
        u16::from_be_bytes([self.u8(), self.u8()])
    }

    fn array<const N: usize>(&mut self) -> [u8; N]
        requires { N ≤ 8 }
    {
        let mut bytes = [0; N];
        put(&mut bytes, 0, self.take(N));
        bytes
    }

    pub(crate) fn u32(&mut self) -> u32 {
        u32::from_be_bytes(self.array())
    }

    pub(crate) fn u64(&mut self) -> u64 {
        u64::from_be_bytes(self.array())
    }

    // Numbers of four bytes.
    pub(crate) fn u32s<const N: usize>(&mut self) -> [u32; N] {
        let mut numbers = [0; N];
        for n in &mut numbers {
            *n = self.u32();
        }
        numbers
    }

    // Numbers of eight bytes.
    pub(crate) fn u64s<const N: usize>(&mut self) -> [u64; N] {
        let mut numbers = [0; N];
        for n in &mut numbers {
            *n = self.u64();
        }
        numbers
    }

    // The order's date, and the three of the record.
    pub(crate) fn dates(&mut self) -> Dates {
        Dates {
            order: Date(self.u32()),
            first32: Date(self.u32()),
            first33: Date(self.u32()),
            last02: Date(self.u32()),
        }
    }
}
