// What is looked for in each page.
ghost use Rattle.std.specs.Prelude.{◌≡◌};
ghost use Rattle.pl_sought.specs.Sought as sought;

use pl_sketch::Sketch;
use pl_sought::sketch_of_words;
use pl_words::BarText;

/// The marks and the words of a text, and the sketch of the words.
#[derive(Drop)]
pub struct Asked {
    pub text: BarText,
    pub sketch: Sketch,
    ghost sketched: { sketch ≡ sought.sketch_of_words text.words },
}

impl Asked {
    pub fn of(text: BarText) -> Asked
        ensures { result.text ≡ text }
    {
        let sketch = sketch_of_words(text.words.as_slice());
        Asked { text, sketch }
    }
}
