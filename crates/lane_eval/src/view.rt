//! What the evaluator reads of a state.
ghost use Rattle.std.specs.Prelude.{◌≡◌, ◌+◌, ◌^◌, ◌<◌, ◌≤◌, length, slice_get, slice_index, slice_range};
ghost use Rattle.machine_form.specs.State.{State, registers_in_use};
ghost use Rattle.machine_form.specs.Straight.{value_of, number_of};

use code_form::Operand;

/// A state of a run, whatever keeps it. It is read and never written through this trait, and no call
/// takes memory.
pub trait View {
    /// The state that is shown.
    ghost state: { Self → State };

    /// The place where the running frame stands.
    fn place(&self) -> u32
        ensures { result ≡ (state self.now).running.place };

    /// The word that an operand has, where it is set.
    fn value(&self, a: Operand) -> Option<u64>
        ensures { result ≡ value_of (state self.now) a };

    /// The byte at an address below the stack top.
    fn byte(&self, at: usize) -> u8
        requires { at < (state self.now).top }
        ensures { result ≡ slice_index (state self.now).bytes at };

    /// The number that at most eight bytes below the stack top encode, the lowest byte first: those
    /// from an address on.
    fn number(&self, at: usize, len: usize) -> u64
        requires few { len ≤ 8 }
        requires within { at + len ≤ (state self.now).top }
        ensures { result ≡ number_of (slice_range (state self.now).bytes at (at + len)) };

    /// The stack top, a byte address.
    fn top(&self) -> u32
        ensures { result ≡ (state self.now).top };

    /// How many frames the running one has below it.
    fn callers(&self) -> usize
        ensures { result ≡ length (state self.now).callers };

    /// How many registers all frames have.
    fn words(&self) -> u64
        ensures value { result ≡ registers_in_use (state self.now) }
        ensures few { result < 2 ^ 63 };

    /// The register of the caller that gets the word that the running frame returns.
    fn result(&self) -> Option<u32>
        ensures { result ≡ (state self.now).running.result };

    /// The stack top that a return from the running frame restores, a byte address.
    fn restores(&self) -> u32
        ensures { result ≡ (state self.now).running.restores };

    /// The next byte of the input, if there is one.
    fn next_input(&self) -> Option<u8>
        ensures { result ≡ slice_get (state self.now).input (state self.now).position };

    /// How many bytes were put out.
    fn output_len(&self) -> usize
        ensures { result ≡ length (state self.now).output };
}
