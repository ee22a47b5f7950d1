// Text being made in fixed room. What does not fit is dropped: the programs keep room for their longest line.
ghost use Rattle.std.specs.Prelude.{ℕ, ◌-◌, ◌≤◌, ◌≡◌, List, [], ◌∷◌, ◌++◌, length, map, take};
ghost use Rattle.text.specs.Appending.{appended};
ghost use Rattle.text.specs.Texts.{decimal, list, spaced};

use crate::front;
use std::marker::Model;

// What is written in decimal.
pub trait Number: Copy {
    ghost value: { Self → ℕ };

    fn value(self) -> u64
        ensures { result ≡ value self };
}

impl Number for u16 {
    ghost value = { λ n. n };

    fn value(self) -> u64 {
        u64::from(self)
    }
}

impl Number for u32 {
    ghost value = { λ n. n };

    fn value(self) -> u64 {
        u64::from(self)
    }
}

// A page with room for `N` bytes: no library here allocates.
#[derive(Drop)]
pub struct Page<const N: usize> {
    bytes: [u8; N],
    length: usize,
}

// Clauses see what is written.
impl<const N: usize> Model for Page<N> {
    ghost Value = { List ℕ };

    ghost view = { λ p. take p.length p.bytes };

    ghost invariant = { λ p. p.length ≤ N };
}

impl<const N: usize> Page<N> {
    pub fn new() -> Self
        ensures { result ≡ [] }
    {
        Page {
            bytes: [0; N],
            length: 0,
        }
    }

    pub fn clear(&mut self)
        ensures { self.new ≡ [] }
    {
        self.length = 0;
    }

    // What is written.
    pub fn bytes(&self) -> &[u8]
        ensures { result.now ≡ self.now }
    {
        &self.bytes[..self.length]
    }

    // How many bytes more fit.
    pub fn room(&self) -> usize
        ensures { result ≡ N - length self.now }
    {
        N - self.length
    }

    // Appends all of `text`.
    pub fn text(&mut self, text: &[u8])
        ensures { self.new ≡ appended N self.old text.now }
    {
        let fits = front(text, self.room());
        let end = self.length + fits.len();
        let bytes = &mut self.bytes[..];
        bytes[self.length..end].copy_from_slice(fits);
        self.length = end;
    }

    // Appends one byte. It is stored in place: a path comes byte by byte, and a call to copy it would cost more than all else.
    pub fn byte(&mut self, value: u8)
        ensures { self.new ≡ appended N self.old (value ∷ []) }
    {
        if self.length < N {
            self.bytes[self.length] = value;
            self.length += 1;
        }
    }

    // Appends a number in decimal.
    pub fn decimal(&mut self, value: u64)
        ensures { self.new ≡ appended N self.old (decimal value) }
    {
        let mut digits = [0u8; 20];
        let count = io::decimal(value, &mut digits);
        for &digit in &digits[..count] {
            self.byte(digit);
        }
    }

    // Appends a number in decimal, behind one space.
    #[tactic(auto, using(crate::proofs::Appended::both))]
    fn number(&mut self, value: u64)
        ensures { self.new ≡ appended N self.old (32 ∷ decimal value) }
    {
        self.byte(b' ');
        self.decimal(value);
    }

    // Appends numbers in decimal, each behind one space.
    pub fn numbers<T: Number>(&mut self, numbers: &[T])
        ensures { self.new ≡ appended N self.old (spaced (map T.value numbers.now)) }
    {
        for number in numbers {
            self.number(number.value());
        }
    }

    // Appends numbers in decimal, parted by one space.
    pub fn list<T: Number>(&mut self, numbers: &[T])
        ensures { self.new ≡ appended N self.old (list (map T.value numbers.now)) }
    {
        if let [first, rest @ ..] = numbers {
            self.decimal(first.value());
            self.numbers(rest);
        }
    }
}
