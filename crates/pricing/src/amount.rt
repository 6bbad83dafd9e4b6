// What has a largest value that is priced.
ghost use Rattle.std.specs.Prelude.{◌≡◌, ℕ};

/// An amount: so many of its unit.
pub trait Amount: Copy {
    /// How many of its unit it is.
    ghost count: { Self → ℕ };

    /// How many of its unit it is.
    fn count(self) -> u64
        ensures { result ≡ count self };
}
