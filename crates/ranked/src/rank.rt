// What a ranked list holds.
ghost use Rattle.std.specs.Prelude.{◌≡◌, ℕ, Bool, true, false};
ghost use Rattle.ranked.specs.Order.{level};

// What has a rank: of two, one is better or they are level, and both relations carry through a third.
// It is no `Ord`, since entries that are level need not be equal.
pub trait Rank {
    // whether the first is better than the second
    ghost better: { Self → Self → Bool };

    // Whether it is better than the other.
    fn beats(&self, other: &Self) -> bool
        ensures { result ≡ better self.now other.now };

    ghost apart: { (x y : Self) → better x y ≡ true → better y x ≡ false };

    ghost carries: { (x y z : Self) → better x y ≡ true → better y z ≡ true → better x z ≡ true };

    ghost levels: { (x y z : Self) → level better x y ≡ true → level better y z ≡ true → level better x z ≡ true };
}

// What can be filled: it has a size besides, and a fill leaves its rank as it is.
pub trait Fill: Rank {
    // its contracts
    ghost size: { Self → ℕ };

    // the same with some contracts filled
    ghost fill: { Self → ℕ → Self };

    fn contracts(&self) -> u32
        ensures { result ≡ size self.now };

    fn filled(&self, n: u32) -> Self
    where
        Self: Sized,
        ensures { result ≡ fill self.now n };

    ghost keeps: { (x y : Self) (n : ℕ) → (Self.better (fill x n) y ≡ Self.better x y) × (Self.better y (fill x n) ≡ Self.better y x) };
}
