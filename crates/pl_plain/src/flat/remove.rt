// A visit goes, and no visit came from it from then on.
ghost use Rattle.std.specs.Prelude.{◌≡◌, ◌==◌, map, not, true};
ghost use Rattle.std.specs.List.{filter};
ghost use Rattle.pl_base.specs.Rows.{has_visit, without_visit};
ghost use Rattle.pl_stored.specs.declared.stored.StoredVisit.{StoredVisit};
ghost use Rattle.pl_plain.specs.FlatRows.{left_by};

use crate::Flat;
use pl_base::VisitId;
use pl_stored::StoredVisit;

// The visit with this id goes.
fn drop_visit_row(visits: &mut Vec<StoredVisit>, id: VisitId)
    ensures { visits.new.items
        ≡ filter (λ (v : StoredVisit). not (v.id.0 == id.0)) visits.old.items }
{
    visits.retain(|visit| visit.id.0 != id.0);
}

// If the visit came from the one with this id, it came from none from then on.
fn leave_source(visit: &mut StoredVisit, id: VisitId)
    ensures { visit.new ≡ left_by id visit.old }
{
    if let Some(source) = visit.source {
        if source.0 == id.0 {
            visit.source = None;
        }
    }
}

// The visits that came from this one came from none from then on.
fn leave_sources(visits: &mut Vec<StoredVisit>, id: VisitId)
    ensures { visits.new.items ≡ map (left_by id) visits.old.items }
{
    for visit in visits.iter_mut() {
        leave_source(visit, id);
    }
}

impl Flat {
    ghost use Rattle.std.specs.Prelude.{ℕ, List};
    ghost use Rattle.pl_plain.specs.Flat.{kept_of};

    /// Drops a visit, and the visits that came from it came from none from then on.
    pub(crate) fn drop_visit(&mut self, id: VisitId)
        requires { has_visit (kept_of self.old) id ≡ true }
        ensures kept { kept_of self.new ≡ without_visit id (kept_of self.old) }
    {
        drop_visit_row(&mut self.visits, id);
        leave_sources(&mut self.visits, id);
        self.live -= 1;
    }
}
