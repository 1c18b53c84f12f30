// A visit of a file, looked for by its id.
ghost use Rattle.std.specs.Prelude.{◌≡◌, ◌==◌, find};
ghost use Rattle.std.specs.List.{position};
ghost use Rattle.std.specs.List.Sorted.{IsStrictlyIncreasing};
ghost use Rattle.std.specs.Option.{option_copied};
ghost use Rattle.pl_check.specs.Rows.{stored_visit_ids};

use pl_base::VisitId;
use pl_stored::StoredVisit;

/// The visit with this id, looked for by halves.
pub fn find_visit(visits: &[StoredVisit], id: VisitId) -> Option<&StoredVisit>
    requires { IsStrictlyIncreasing (stored_visit_ids visits.now) }
    ensures { option_copied result ≡ find (λ v. v.id.0 == id.0) visits.now }
{
    visits.get(visit_index(visits, id)?)
}

// Where the visit with this id stands.
fn visit_index(visits: &[StoredVisit], id: VisitId) -> Option<usize>
    requires { IsStrictlyIncreasing (stored_visit_ids visits.now) }
    ensures { result ≡ position (λ v. v.id.0 == id.0) visits.now }
{
    visits.binary_search_by_key(&id.0, |visit| visit.id.0).ok()
}
