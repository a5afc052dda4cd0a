ghost use Rattle.std.specs.Prelude.{◌≡◌, Bool, List, length};

/// A value that stands for a list of entries, which only grows.
pub trait Logged: Drop {
    /// What one entry is.
    type Item;

    // The entries, in order.
    ghost entries: { Self → List Self.Item };

    // The value is over, which it then stays: `leave` asks it of each value that is put back, and `enter` and `close`
    // tell it of the one that they hand out, where the seat has seen a value that was.
    ghost over: { Self → Bool };

    // This value comes from that first one, in whatever sense the type chooses. `Shared::new` asks it of the value that
    // it is given, `leave` of each that it puts back, and `enter` and `close` tell it of the one that they hand out.
    ghost comes: { Self → Self → Type 0 };

    /// How many entries there are.
    fn count(&self) -> u64
        ensures { result ≡ length (entries self.now) };
}
