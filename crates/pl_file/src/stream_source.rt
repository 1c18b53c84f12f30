ghost use Rattle.std.specs.Prelude.{◌≡◌, ◌≤◌, None, length, IfOk, OnErr};
ghost use Rattle.std.specs.Io.KnownBytes.{ReadConsumes};
ghost use Rattle.pl_desk.specs.Counts.{Counts, next_count};

use pl_desk::{Failed, Source};
use std::io::Read;
use std::marker::Model;

/// Standard input. As a source it tells nothing of its content: its reader may know none.
#[derive(Drop)]
pub struct StreamSource<R: Input> {
    reader: R::Reader,
    faults: u64,
}

impl<R: Input> Model for StreamSource<R> {
    ghost use Rattle.pl_file.specs.Streams.{StreamState};

    ghost Value = { StreamState };

    ghost view = { λ s. record { remaining = R.Reader.remaining s.reader; faults = s.faults } };
}

impl<R: Input> StreamSource<R> {
    pub fn new(rt: &R) -> StreamSource<R>
        ensures { result.faults ≡ 0 }
    {
        StreamSource {
            reader: rt.reader(),
            faults: 0,
        }
    }
}

impl<R: Input> Source for StreamSource<R> {
    ghost left = { λ _. None };

    ghost faults = { λ s. s.faults };

    /// Makes one read of the reader.
    fn read(&mut self, out: &mut [u8]) -> Result<usize, Failed>
        ensures bytes { ReadConsumes self.old.remaining self.new.remaining result out.new }
        ensures after_failed { OnErr result (self.new.faults ≡ next_count self.old.faults) }

        // What each source promises.
        ensures within { IfOk result (λ n. n ≤ length out.old) }
        ensures counted { Counts result self.old.faults self.new.faults }
    {
        match self.reader.read(out) {
            Ok(count) => Ok(count),
            Err(_) => {
                self.faults = self.faults.saturating_add(1);
                Err(Failed)
            }
        }
    }
}
