// Redirects among the visits of a file.
ghost use Rattle.std.specs.Prelude.{◌≡◌, IfOk};
ghost use Rattle.std.specs.List.Sorted.{IsStrictlyIncreasing};
ghost use Rattle.pl_base.specs.Redirects as redirects;
ghost use Rattle.pl_check.specs.Rows.{stored_visit_ids};
ghost use Rattle.pl_stored.specs.Stored.{stored_store, visit_of};
ghost use Rattle.pl_sound.specs.Redirects as spec;

use pl_base::{NoMemory, Transition};
use pl_check::{Numbers, find_visit};
use pl_stored::{StoredRows, StoredVisit};
use std::alloc::Global;
use std::marker::Model;

/// The rows of a file, with the ids of the visits that led to a redirect.
#[derive(Drop)]
pub(crate) struct Redirects<'a> {
    rows: &'a StoredRows,
    sources: Numbers,
}

impl<'a> Model for Redirects<'a> {
    ghost use Rattle.pl_stored.specs.Stored.{Stored};
    ghost use Rattle.pl_sound.specs.Redirects.{HasSources};

    ghost Value = { Stored };

    ghost view = { λ r. r.rows.now };

    ghost invariant = { λ r. HasSources r.rows.now.visits r.sources };
}

impl<'a> Redirects<'a> {
    pub fn of(alloc: Global, rows: &'a StoredRows) -> Result<Redirects<'a>, NoMemory>
        requires { IsStrictlyIncreasing (stored_visit_ids rows.now.visits) }
        ensures { IfOk result (λ redirects. redirects ≡ rows.now) }
    {
        let sources = Numbers::of(redirect_sources(alloc, &rows.visits)?);
        Ok(Redirects { rows, sources })
    }

    /// Whether some redirect came from the visit.
    pub fn led_from(&self, visit: &StoredVisit) -> bool
        ensures { result
            ≡ redirects.is_redirect_source (stored_store self.now) (visit_of visit.now) }
    {
        self.sources.has(visit.id.0)
    }

    /// The transition of the visit that a redirect came from.
    pub fn source_of(&self, visit: &StoredVisit) -> Option<Transition>
        ensures { result
            ≡ redirects.source_transition (stored_store self.now) (visit_of visit.now) }
    {
        if !visit.transition.is_redirect() {
            return None;
        }
        let id = visit.source?;
        let rows = self.rows;
        let source = find_visit(&rows.visits, id)?;
        Some(source.transition)
    }
}

fn redirect_sources(alloc: Global, visits: &[StoredVisit]) -> Result<Vec<u32>, NoMemory>
    ensures { IfOk result (λ sources. sources.items ≡ spec.redirect_sources visits.now) }
{
    let sources = visits.iter().filter_map(|visit| redirect_source(visit));
    Ok(sources.collect(alloc)?)
}

// The number of the visit that a redirect came from.
fn redirect_source(visit: &StoredVisit) -> Option<u32>
    ensures { result ≡ spec.redirect_source visit.now }
{
    if !visit.transition.is_redirect() {
        return None;
    }
    visit.source.map(|source| source.0)
}
