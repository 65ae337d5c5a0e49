//! Sorted items, each once.

ghost use Rattle.std.specs.Prelude.{◌≡◌, ◌↔◌, true, AllPairs, Contains};
ghost use Rattle.std.specs.declared.cmp.Ordering.TheVariants.{Less};

use crate::Items;

impl<T: Ord + Drop> Items<T> {
    /// Sorts the items, and keeps each once. It takes no memory.
    pub fn keep_distinct(&mut self)
        requires { (x y : T) → T.eq x y ≡ true → x ≡ y }
        ensures exactly { (x : T) → Contains self.new x ↔ Contains self.old x }
        ensures ascending { AllPairs (λ x y. T.cmp x y ≡ Less) self.new }
    {
        self.kept.sort_unstable();
        self.kept.dedup();
    }
}
