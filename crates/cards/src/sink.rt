// What takes texts one after another.
ghost use Rattle.std.specs.Prelude.{ℕ, List, ◌∷◌};
ghost use Rattle.std.specs.Fmt.{decimal, signed_decimal};
ghost use Rattle.cards.specs.Sinks.{SinkLaws};

pub(crate) trait Sink {
    // Relates the sink before a text and the sink after it.
    ghost puts: { Self → List ℕ → Self → Type 0 };

    fn put(&mut self, text: &[u8])
        ensures { puts self.old text.now self.new };

    // Puts a number in decimal, without leading zeros.
    fn put_decimal(&mut self, n: u64)
        ensures { puts self.old (decimal n) self.new };

    // A comma, and a number in decimal.
    fn put_next(&mut self, n: u64)
        ensures { puts self.old (44 ∷ decimal n) self.new };

    // The decimal of a figure, with a minus before it if it is negative.
    #[inline]
    final fn put_figure(&mut self, z: i64)
        ensures { puts self.old (signed_decimal z) self.new }
    {
        if z < 0 {
            self.put(b"-");
        }
        self.put_decimal(z.unsigned_abs());
    }

    ghost laws: { SinkLaws puts };
}
