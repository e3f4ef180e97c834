//! A flat state as the evaluator reads it.
use crate::number::number;
use crate::view::View;
use code_form::Operand;
use flat_state::Flat;

impl View for Flat {
    ghost state = { λ s. s.state };

    fn place(&self) -> u32 {
        Flat::place(self)
    }

    fn value(&self, a: Operand) -> Option<u64> {
        Flat::value(self, a)
    }

    fn byte(&self, at: usize) -> u8 {
        self.kept()[at]
    }

    fn number(&self, at: usize, len: usize) -> u64 {
        number(&self.kept()[at..at + len])
    }

    fn top(&self) -> u32 {
        Flat::top(self)
    }

    fn callers(&self) -> usize {
        Flat::callers(self)
    }

    fn words(&self) -> u64 {
        Flat::words(self)
    }

    fn result(&self) -> Option<u32> {
        Flat::result(self)
    }

    fn restores(&self) -> u32 {
        Flat::restores(self)
    }

    fn next_input(&self) -> Option<u8> {
        Flat::next_input(self)
    }

    fn output_len(&self) -> usize {
        Flat::output_len(self)
    }
}
