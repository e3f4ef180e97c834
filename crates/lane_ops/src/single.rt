//! The plain loop over the lanes that whole blocks leave, for any operation on single words.
ghost use Rattle.std.specs.Prelude.{◌≡◌, ℕ, ◌<◌, ◌≤◌, length, take};
ghost use Rattle.std.specs.List.{All};
ghost use Rattle.std.specs.Simd.Lanes.{zip2};
ghost use Rattle.am_base.specs.Word.{IsWord};
ghost use Rattle.am_base.specs.declared.word.Width.{Width};

/// An operation on two words of one width, for one lane.
pub(crate) trait Single {
    ghost width: { Self → Width };

    ghost lane: { Self → ℕ → ℕ → ℕ };

    fn one(&self, left: u64, right: u64) -> u64
        requires left_word { IsWord (width self.now) left }
        requires right_word { IsWord (width self.now) right }
        ensures { result ≡ lane self.now left right };
}

/// The operation on the lanes from an index on, where those before it are done.
pub(crate) fn rest<K: Single>(kernel: &K, a: &[u64], b: &[u64], out: &mut [u64], from: usize)
    requires right { length b.now ≡ length a.now }
    requires room { length out.old ≡ length a.now }
    requires left_words { All (IsWord (K.width kernel.now)) a.now }
    requires right_words { All (IsWord (K.width kernel.now)) b.now }
    requires within { from ≤ length a.now }
    requires done { take from out.old ≡
        zip2 (K.lane kernel.now) (take from a.now) (take from b.now) }
    ensures { out.new ≡ zip2 (K.lane kernel.now) a.now b.now }
{
    for i in from..a.len() {
        out[i] = kernel.one(a[i], b[i]);
    }
}
