// Which pairs of neighbouring bytes texts have, as far as 256 bits tell.
ghost use Rattle.std.specs.Prelude.{◌≡◌, ◌↔◌, IsTrue, map};
ghost use Rattle.std.specs.Char.{to_ascii_lowercase};
ghost use Rattle.pl_sketch.specs.Pairs as spec;
ghost use Rattle.pl_sketch.specs.Pairs.{Covers, at_place, nothing, place_of, sketch_of};

/// Which pairs of neighbouring bytes stand in texts, in 256 bits: one for each place that a pair
/// can have. Many pairs have the same place.
///
/// Where the sketch of a text does not cover that of a word, the word stands nowhere in the text.
/// Where it does, the word may stand there or not.
#[derive(Clone, Copy, Debug, PartialEq, Eq)]
pub struct Sketch {
    // The places from 0 to 63, the lowest bit first.
    from_0: u64,
    from_64: u64,
    from_128: u64,
    from_192: u64,
}

impl Sketch {
    /// That of no text.
    pub fn new() -> Sketch
        ensures { result ≡ nothing }
    {
        Sketch {
            from_0: 0,
            from_64: 0,
            from_128: 0,
            from_192: 0,
        }
    }

    /// That of a text.
    pub fn of(text: &str) -> Sketch
        ensures { result ≡ sketch_of text.now }
    {
        let bytes = text.as_bytes();
        let mut sketch = Sketch::new();
        for place in 1..bytes.len() {
            sketch = sketch.with(bytes[place - 1], bytes[place]);
        }
        sketch
    }

    /// That of a text whose ASCII letters are made lowercase.
    pub fn of_lowercase(text: &str) -> Sketch
        ensures { result ≡ sketch_of (map to_ascii_lowercase text.now) }
    {
        let bytes = text.as_bytes();
        let mut sketch = Sketch::new();
        for place in 1..bytes.len() {
            let first = bytes[place - 1].to_ascii_lowercase();
            sketch = sketch.with(first, bytes[place].to_ascii_lowercase());
        }
        sketch
    }

    /// That of the texts of both.
    pub fn union(self, other: Sketch) -> Sketch
        ensures { result ≡ spec.union self other }
    {
        Sketch {
            from_0: self.from_0 | other.from_0,
            from_64: self.from_64 | other.from_64,
            from_128: self.from_128 | other.from_128,
            from_192: self.from_192 | other.from_192,
        }
    }

    /// Whether it has each place that the other has.
    pub fn covers(self, other: Sketch) -> bool
        ensures { IsTrue result ↔ Covers self other }
    {
        self.union(other) == self
    }

    // With the place of one more pair.
    fn with(self, first: u8, second: u8) -> Sketch
        ensures { result ≡ spec.union self (at_place (place_of first second)) }
    {
        let place = first.wrapping_mul(11).wrapping_add(second);
        self.union(Sketch {
            from_0: bit_from(0, place),
            from_64: bit_from(64, place),
            from_128: bit_from(128, place),
            from_192: bit_from(192, place),
        })
    }
}

// The bit of a place in the word whose places start there.
fn bit_from(start: u8, place: u8) -> u64
    ensures { result ≡ spec.bit_from start place }
{
    if place / 64 * 64 == start {
        return 1 << (place % 64);
    }
    0
}
