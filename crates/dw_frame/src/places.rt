//! Where the CIEs of a table stand that are written so far.

ghost use Rattle.std.specs.Prelude.{◌≡◌, ◌<◌, length, IfOk, IfErr};
ghost use Rattle.dw_base.specs.declared.error.Error.TheVariants.{NoMemory};
ghost use Rattle.dw_frame.specs.Places.{known};
ghost use Rattle.dw_frame.specs.Tables.{no_places, with_place};

use dw_base::{CieId, Result};
use std::alloc::Global;

/// The places of CIEs, by their ids.
#[derive(Drop)]
pub struct CiePlaces {
    places: Vec<Option<usize>>,
}

impl CiePlaces {
    /// Of so many CIEs, of which none is written.
    pub fn new(alloc: Global, count: usize) -> Result<CiePlaces>
        ensures places { IfOk result (λ p. known p.places.items ≡ no_places) }
        ensures count { IfOk result (λ p. length p.places.items ≡ count) }
        ensures err { IfErr result (λ e. e ≡ NoMemory) }
    {
        let places = vec![in alloc; None; count]?;
        Ok(CiePlaces { places })
    }

    /// Where a CIE stands, if it is written.
    pub fn get(&self, id: CieId) -> Option<usize>
        requires { id.0 < length self.now.places.items }
        ensures { result ≡ known self.now.places.items id.0 }
    {
        self.places[id.index()]
    }

    /// A CIE stands at a place.
    pub fn set(&mut self, id: CieId, place: usize)
        requires { id.0 < length self.old.places.items }
        ensures places { known self.new.places.items ≡
            with_place id.0 place (known self.old.places.items) }
        ensures count { length self.new.places.items ≡ length self.old.places.items }
    {
        self.places[id.index()] = Some(place);
    }
}
