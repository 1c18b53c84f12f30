use pl_base::Touched;
use std::marker::Model;

/// The gate is not set: the file stands for the pages that lie in their places.
#[derive(Drop)]
pub struct Closed {
    pub(crate) seal: (),
}

/// The journal of a change is on the disk, and the gate is not set yet.
#[derive(Drop)]
pub struct Staged<'t> {
    pub(crate) touched: &'t Touched,
}

impl<'t> Model for Staged<'t> {
    ghost use Rattle.pl_base.specs.Touched.{Change};

    ghost Value = { Change };

    ghost view = { λ s. s.touched.now };
}

/// The gate is set on the disk over the journal.
#[derive(Drop)]
pub struct Armed<'t> {
    pub(crate) touched: &'t Touched,
}

impl<'t> Model for Armed<'t> {
    ghost use Rattle.pl_base.specs.Touched.{Change};

    ghost Value = { Change };

    ghost view = { λ s. s.touched.now };
}

/// The pages are on the disk in their places, and the gate is still set.
#[derive(Drop)]
pub struct Installed<'t> {
    pub(crate) touched: &'t Touched,
}

impl<'t> Model for Installed<'t> {
    ghost use Rattle.pl_base.specs.Touched.{Change};

    ghost Value = { Change };

    ghost view = { λ s. s.touched.now };
}
