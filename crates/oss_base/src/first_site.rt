//! An accumulator that keeps the first of the sites that it is told, in any order. No call touches
//! memory.

ghost use Rattle.std.specs.Prelude.{◌≡◌, List, ◌++◌, ◌∷◌, [], Some, None};
ghost use Rattle.oss_base.specs.Sites.{earlier_site, first_of};
ghost use Rattle.oss_base.specs.declared.sites.FaultSite.{FaultSite};

use crate::sites::FaultSite;
use std::marker::Model;

/// The first of the sites so far. Contracts see it as an option of a site.
#[derive(Debug, Drop)]
pub struct FirstSite {
    site: Option<FaultSite>,
}

impl Model for FirstSite {
    ghost use Rattle.std.specs.Prelude.{Option};
    ghost use Rattle.oss_base.specs.declared.sites.FaultSite.{FaultSite};

    ghost Value = { Option FaultSite };

    ghost view = { λ f. f.site };
}

impl FirstSite {
    /// No site so far.
    pub fn new() -> FirstSite
        ensures { result ≡ None }
    {
        FirstSite { site: None }
    }

    /// Takes account of one site more.
    pub fn note(&mut self, site: FaultSite)
        ensures earlier { self.new ≡ earlier_site self.old (Some site) }
        ensures first { (sites : List FaultSite) → self.old ≡ first_of sites
            → self.new ≡ first_of (sites ++ site ∷ []) }
    {
        self.keep(site);
    }

    fn keep(&mut self, site: FaultSite)
        ensures { self.new ≡ earlier_site self.old (Some site) }
    {
        match self.site {
            None => self.site = Some(site),
            Some(first) => {
                if site.goes_before(first) {
                    self.site = Some(site);
                }
            }
        }
    }

    /// The first of the sites so far.
    pub fn get(&self) -> Option<FaultSite>
        ensures { result ≡ self.now }
    {
        self.site
    }
}
