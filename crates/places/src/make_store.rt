// A new store in an empty file.
ghost use Rattle.std.specs.Prelude.{◌≡◌};
ghost use Rattle.places.specs.Ending.{EndsNew, EndsTask};
ghost use Rattle.places.specs.Serving.{CountsFaults};

use crate::say::say_all;
use crate::status::Status;
use pl_desk::Desk;
use pl_store::create;
use pl_task::Task;
use std::alloc::Global;

/// Writes the store before its first command into the desk's file, and says `new`. A stop within it
/// may leave a file that stands for no store.
pub fn make_store<D: Desk>(alloc: Global, desk: &mut D) -> Status
    ensures status { EndsTask Task.New result }
    ensures ends { EndsNew D.Desk result desk.old desk.new }
    ensures counted { CountsFaults D.Desk (result ≡ Status.SayFault)
        (result ≡ Status.DeviceFault) desk.old desk.new }
{
    if let Err(ended) = create(alloc, desk) {
        return Status::from(ended);
    }
    match say_all(desk, b"new\n") {
        Ok(()) => Status::Done,
        Err(_) => Status::SayFault,
    }
}
