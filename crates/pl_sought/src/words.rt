// The sketch of words that are looked for.
ghost use Rattle.std.specs.Prelude.{◌≡◌};
ghost use Rattle.pl_sought.specs.Sought as spec;

use pl_base::Txt;
use pl_sketch::Sketch;

/// The sketch of words: a page whose sketch does not cover it lacks one of them.
pub fn sketch_of_words(words: &[Txt]) -> Sketch
    ensures { result ≡ spec.sketch_of_words words.now }
{
    let mut sketch = Sketch::new();
    for word in words {
        sketch = sketch.union(Sketch::of(word.as_str()));
    }
    sketch
}
