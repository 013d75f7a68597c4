// Text as bytes, of a room that is fixed when it is made; and a number as bytes.
#![tactic(auto)]

ghost use Rattle.std.specs.Prelude.{◌≡◌, ◌+◌, ◌≤◌, ◌++◌, length};
ghost use Rattle.text.specs.Decimal.{decimal_of};
ghost use Rattle.text.specs.Promise.{EmptyPromise, FitsPromise, SlicePromise, RoomPromise};

mod digits;
pub mod inner;

use std::marker::Model;

// At most `N` bytes. A clause sees them as a list.
#[derive(Drop)]
pub struct Text<const N: usize> {
    bytes: [u8; N],
    len: usize,
}

impl<const N: usize> Model for Text<N> {
    ghost use Rattle.std.specs.Prelude.{ℕ, ◌≤◌, List, take};

    ghost Value = { List ℕ };

    ghost view = { λ t. take t.len t.bytes };

    ghost invariant = { λ t. t.len ≤ N };
}

impl<const N: usize> Text<N> {
    pub fn new() -> Self
        ensures { EmptyPromise result }
    {
        Text {
            bytes: [0; N],
            len: 0,
        }
    }

    pub fn as_slice(&self) -> &[u8]
        ensures value { SlicePromise self.now result.now }
        ensures fits { FitsPromise N self.now }
    {
        &self.bytes[..self.len]
    }

    // Whether that many bytes more fit.
    pub fn has_room(&self, count: usize) -> bool
        ensures { RoomPromise N self.now count result }
    {
        count <= N - self.len
    }

    pub fn clear(&mut self)
        ensures { EmptyPromise self.new }
    {
        self.len = 0;
    }

    pub fn put(&mut self, more: &[u8])
        requires { length self.old + length more.now ≤ N }
        ensures { self.new ≡ self.old ++ more.now }
    {
        let end = self.len + more.len();
        let bytes = &mut self.bytes[..];
        bytes[self.len..end].copy_from_slice(more);
        self.len = end;
    }

    pub fn put_decimal(&mut self, x: u64)
        requires { length self.old + length (decimal_of x) ≤ N }
        ensures { self.new ≡ self.old ++ decimal_of x }
    {
        let end = self.len + digits::count(x);
        let bytes = &mut self.bytes[..];
        digits::fill(&mut bytes[self.len..end], x);
        self.len = end;
    }
}
