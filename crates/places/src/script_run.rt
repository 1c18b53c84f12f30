// A run of a script whose bytes come one after another.
ghost use Rattle.std.specs.Prelude.{◌≡◌, ◌≢◌, ℕ, List, Option, [], ◌∷◌, ◌++◌, Err};
ghost use Rattle.std.specs.Prelude.{IfErr, IfOk, OnOk};
ghost use Rattle.std.specs.Str.Lines.{strip_carriage_return};

use crate::answer::answer;
use crate::answer_error::AnswerError;
use pl_base::NoMemory;
use pl_desk::Desk;
use pl_script::LONGEST_LINE;
use pl_store::Keeper;
use std::alloc::Global;

/// As much of a line is kept as tells what it asks for: past the longest line two bytes more, of
/// which the last may be the CR before its LF.
const KEPT: usize = LONGEST_LINE + 2;

/// The store after the lines that have ended, and the line that has not.
#[derive(Drop)]
pub struct ScriptRun {
    alloc: Global,
    keeper: Keeper,
    line: Vec<u8>,
}

impl ScriptRun {
    ghost use Rattle.pl_base.specs.Store.{Store};
    ghost use Rattle.pl_base.specs.Live.{slot_limit};
    ghost use Rattle.pl_step.specs.Run.{replies, after};
    ghost use Rattle.pl_store.specs.Keeper.{keeper_limit, keeper_store};
    ghost use Rattle.pl_script.specs.Script.{script};
    ghost use Rattle.places.specs.Progress.{IsAt, ShowsIn, StopsIn, Takes, WritesIn};
    ghost use Rattle.places.specs.Said.{Says, texts};
    ghost use Rattle.places.specs.Serving.{CountsFaults, Serves};

    pub fn new(alloc: Global, keeper: Keeper) -> Self
        ensures at { keeper_limit keeper ≡ slot_limit → (begun : Option (List ℕ))
            → IsAt (keeper_store keeper) [] begun result begun }
        ensures keeper { result.keeper ≡ keeper }
    {
        ScriptRun {
            alloc,
            keeper,
            line: Vec::new(alloc),
        }
    }

    /// Takes the next bytes of the input, and answers each line that ends within them.
    pub fn take_all<D: Desk>(self, piece: &[u8], desk: &mut D) -> Result<ScriptRun, AnswerError>
        ensures takes { Takes D.Desk self piece.now result desk.old desk.new }
        ensures serves { Serves D.Desk self.keeper (λ run. run.keeper) result desk.old desk.new }
        ensures counted { CountsFaults D.Desk (result ≡ Err AnswerError.SayFault)
            (result ≡ Err AnswerError.DeviceFault) desk.old desk.new }
    {
        let mut run = self;
        for &byte in piece {
            if byte == b'\n' {
                run = run.end_line(desk)?;
            } else {
                run.keep(byte)?;
            }
        }
        Ok(run)
    }

    // The line has ended with LF.
    fn end_line<D: Desk>(self, desk: &mut D) -> Result<ScriptRun, AnswerError>
        ensures takes { Takes D.Desk self (10 ∷ []) result desk.old desk.new }
        ensures serves { Serves D.Desk self.keeper (λ run. run.keeper) result desk.old desk.new }
        ensures counted { CountsFaults D.Desk (result ≡ Err AnswerError.SayFault)
            (result ≡ Err AnswerError.DeviceFault) desk.old desk.new }
    {
        let ScriptRun {
            alloc,
            keeper,
            mut line,
        } = self;
        let keeper = answer(alloc, keeper, without_carriage_return(&line), desk)?;
        line.clear();
        Ok(ScriptRun {
            alloc,
            keeper,
            line,
        })
    }

    // The line goes on with this byte. The run stays in place, as moving it takes far longer.
    fn keep(&mut self, byte: u8) -> Result<(), NoMemory>
        requires { byte ≢ 10 }
        ensures ok { OnOk result ((start : Store) (bytes : List ℕ) (begun said : Option (List ℕ))
            → IsAt start bytes begun self.old said
            → IsAt start (bytes ++ byte ∷ []) begun self.new said) }
        ensures keeper { self.new.keeper ≡ self.old.keeper }
    {
        if self.line.len() >= KEPT {
            return Ok(());
        }
        self.line.push(byte)?;
        Ok(())
    }

    /// The input has ended: the line that has not ended with LF ends too.
    pub fn finish<D: Desk>(self, desk: &mut D) -> Result<Keeper, AnswerError>
        ensures ok { OnOk result ((start : Store) (bytes : List ℕ) (begun : Option (List ℕ))
            → IsAt start bytes begun self (D.said desk.old)
            → Says begun (texts (replies slot_limit start (script bytes))) (D.said desk.new)) }
        ensures store { IfOk result
            (λ keeper. (start : Store) (bytes : List ℕ) (begun : Option (List ℕ))
            → IsAt start bytes begun self (D.said desk.old)
            → keeper_store keeper ≡ after slot_limit start (script bytes)) }
        ensures serves { Serves D.Desk self.keeper (λ keeper. keeper) result desk.old desk.new }
        ensures ends { IfErr result (λ error.
            StopsIn D.Desk error self script desk.old desk.new) }
        ensures shows { ShowsIn D.Desk self script desk.old desk.new }
        ensures writes { WritesIn D.Desk self script desk.old desk.new }
        ensures counted { CountsFaults D.Desk (result ≡ Err AnswerError.SayFault)
            (result ≡ Err AnswerError.DeviceFault) desk.old desk.new }
    {
        answer(self.alloc, self.keeper, &self.line, desk)
    }
}

fn without_carriage_return(line: &[u8]) -> &[u8]
    ensures { result.now ≡ strip_carriage_return line.now }
{
    match line {
        [front @ .., b'\r'] => front,
        _ => line,
    }
}
