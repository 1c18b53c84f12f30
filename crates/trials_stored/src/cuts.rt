// Any cut of the input, and any cut of what is said.
ghost use Rattle.std.specs.Prelude.{◌≡◌, ◌≤◌, None};
ghost use Rattle.std.proofs.lemmas.Option.{none-some};
ghost use Rattle.pl_desk.specs.Counts.{Rose};

use pl_desk::{Desk, Failed, MemDesk, MemSource, Source};
use places::{Status, run};
use std::test::Fail;

// 60 bytes.
const SCRIPT: &[u8] = b"visit\thttps://a.example/\t2\t0\r\nfrob\n# xyz\nvisit\tdata:,\t1\t0\nxy";

const SAID: &[u8] =
    b"visit\t1\tpage\t1\tfrecency\t2000\nrefused\t14\t1\nrefused\t2\nrefused\t14\t1\n";

// Two pieces, cut at a place.
#[derive(Drop)]
struct TwoPieces {
    bytes: &'static [u8],
    cut: usize,
    read: usize,
}

impl Source for TwoPieces {
    ghost use Rattle.std.specs.Prelude.{None};

    ghost left = { λ _. None };

    ghost faults = { λ _. 0 };

    fn read(&mut self, out: &mut [u8]) -> Result<usize, Failed> {
        let end = if self.read < self.cut {
            self.cut
        } else {
            self.bytes.len()
        };
        let mut count = 0;
        while count < out.len() && self.read < end && self.read < self.bytes.len() {
            out[count] = self.bytes[self.read];
            count += 1;
            self.read += 1;
        }
        Ok(count)
    }
}

// Says one byte at a time. It has no file.
#[derive(Drop)]
struct OneByte {
    said: Vec<u8>,
    device_faults: u64,
    line_faults: u64,
}

impl OneByte {
    fn fail_call(&mut self) -> Failed
        ensures line { self.new.line_faults ≡ self.old.line_faults }
        ensures counted { self.old.device_faults ≤ self.new.device_faults }
        ensures cause { Rose self.old.device_faults self.new.device_faults }
    {
        self.device_faults = self.device_faults.saturating_add(1);
        Failed
    }
}

impl Desk for OneByte {
    ghost held = { λ _. None };

    ghost said = { λ _. None };

    ghost written = { λ _. 0 };

    ghost device_faults = { λ d. d.device_faults };

    ghost line_faults = { λ d. d.line_faults };

    ghost may_leave = { λ _ _. Unit {0} };

    ghost moment = { λ _. 0 };

    ghost shown_since = { λ _ _ _ _. Unit {0} };

    ghost told_together = { λ _. (λ told. told, λ told. told) };

    ghost counts_now = { λ _ _ _ _ _ _ _. tt };

    ghost shown_now = { λ _ _ _ _ _ _ _. tt };

    ghost only_now = { λ _ line_now _ _ same _. absurd (none-some line_now same) };

    fn len(&mut self) -> Result<u64, Failed> {
        Err(self.fail_call())
    }

    fn read_at(&mut self, _at: u64, _out: &mut [u8]) -> Result<(), Failed> {
        Err(self.fail_call())
    }

    fn write_at(&mut self, _at: u64, _bytes: &[u8]) -> Result<(), Failed> {
        Err(self.fail_call())
    }

    fn sync(&mut self) -> Result<(), Failed> {
        Err(self.fail_call())
    }

    fn say(&mut self, bytes: &[u8]) -> Result<usize, Failed> {
        match self.said.push(bytes[0]) {
            Ok(()) => Ok(1),
            Err(_) => {
                self.line_faults = self.line_faults.saturating_add(1);
                Err(Failed)
            }
        }
    }
}

#[test]
fn says_the_same_at_any_cut(rt: HostRuntime) -> Result<(), Fail> {
    let alloc = rt.alloc();
    assert_eq!(rt; SCRIPT.len(), 60);
    for cut in 0..61 {
        let mut input = TwoPieces {
            bytes: SCRIPT,
            cut,
            read: 0,
        };
        let mut desk = MemDesk::holding(alloc, &[], &[])?;
        let status = run(alloc, &["try"], &mut input, &mut desk);
        assert_eq!(rt; status, Status::Done);
        assert_eq!(rt; desk.said(), SAID, "cut at {cut}");
    }
    Ok(())
}

#[test]
fn says_one_byte_at_a_time(rt: HostRuntime) -> Result<(), Fail> {
    let alloc = rt.alloc();
    let mut input = MemSource::over(alloc, SCRIPT, 64, &[])?;
    let mut desk = OneByte {
        said: Vec::new(alloc),
        device_faults: 0,
        line_faults: 0,
    };
    let status = run(alloc, &["try"], &mut input, &mut desk);
    assert_eq!(rt; status, Status::Done);
    assert_eq!(rt; desk.said.as_slice(), SAID);
    Ok(())
}
