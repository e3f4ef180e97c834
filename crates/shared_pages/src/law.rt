//! The laws of own and used pages: each is the contract of a function that does nothing.
ghost use Rattle.std.specs.Prelude.{List, ℕ, ◌≡◌, ◌≢◌, ◌≤◌, ◌+◌, None, true, false};
ghost use Rattle.shared_pages.specs.Opening.{IsBegun};
ghost use Rattle.shared_pages.specs.Store.{IsAlone, IsIn, IsReserved, Store, is_own, memory};
ghost use Rattle.shared_pages.specs.Store.{shared_count, used_pages, written};

/// A law: a page is a memory's own exactly where it isn't the zero page, and no other memory and no
/// other place of this one has it.
pub fn own_pages_alone()
    ensures own { (s : Store) (m i : ℕ) → is_own s m i ≡ true → IsAlone s m i }
    ensures alone { (s : Store) (m i : ℕ) → IsAlone s m i → is_own s m i ≡ true }
{}

/// A law: two stores with equal memories have the same own pages and use equally many. So a fork
/// that is released again leaves the pages as they were.
pub fn pages_determined()
    ensures own { (s t : Store) → ((k : ℕ) → memory s k ≡ memory t k)
        → (m i : ℕ) → is_own s m i ≡ is_own t m i }
    ensures used { (s t : Store) → ((k : ℕ) → memory s k ≡ memory t k)
        → used_pages s ≡ used_pages t }
{}

/// A law: a memory that is equal to another one has no page of its own, so neither has after a fork.
pub fn equal_memories_share()
    ensures { (s : Store) (m n i : ℕ) → m ≢ n → memory s m ≡ memory s n → is_own s m i ≡ false }
{}

/// A law: a memory that stays keeps its own pages where another one begins or ends, and where one
/// is forked that is another than it.
pub fn own_pages_stay()
    ensures forked { (s t : Store) (m n : ℕ) → memory s n ≡ None → memory t n ≡ memory s m
        → ((k : ℕ) → k ≢ n → memory t k ≡ memory s k)
        → (k i : ℕ) → k ≢ m → k ≢ n → is_own s k i ≡ true → is_own t k i ≡ true }
    ensures begun { (s t : Store) (n : ℕ) (bytes : List ℕ) → memory s n ≡ None → IsBegun t n bytes
        → ((k : ℕ) → k ≢ n → memory t k ≡ memory s k)
        → (m i : ℕ) → m ≢ n → is_own s m i ≡ true → is_own t m i ≡ true }
    ensures ended { (s t : Store) (n : ℕ) → memory t n ≡ None
        → ((k : ℕ) → k ≢ n → memory t k ≡ memory s k)
        → (m i : ℕ) → m ≢ n → is_own s m i ≡ true → is_own t m i ≡ true }
{}

/// A law: whatever `reserve` answers, it takes at most one page for each page of these addresses
/// that wasn't the memory's own.
pub fn reserve_takes_few()
    ensures { (s t : Store) (m : ℕ) (at : List ℕ) → IsReserved s t m at
        → used_pages t ≤ used_pages s + shared_count s m at }
{}

/// A law: a write changes no page's number, so the same pages are own and equally many are used.
pub fn writes_keep_pages()
    ensures own { (s : Store) (m at byte : ℕ) → IsIn s m
        → (k i : ℕ) → is_own (written s m at byte) k i ≡ is_own s k i }
    ensures used { (s : Store) (m at byte : ℕ) → IsIn s m
        → used_pages (written s m at byte) ≡ used_pages s }
{}
