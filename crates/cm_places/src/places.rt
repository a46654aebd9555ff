//! The places of what each described controller reads, exports and claims.

ghost use Rattle.std.specs.Prelude.{◌≡◌, ◌<◌, length, slice_index_or, IfOk, None};
ghost use Rattle.chain_order.specs.Links.{linked};
ghost use Rattle.cm_places.specs.Placed.{placed_of};

use crate::listed::list;
use crate::rows;
use cm_document::Checked;
use fixed_num::Memory;
use sequence::Seq;
use std::alloc::Global;
use std::marker::Model;

/// For each described controller, by place, where what it reads, its references and what it claims stand on the board;
/// and for each place on the board, who claims it and who exports it. It rests on the description alone, and is made
/// once.
#[derive(Debug, Drop)]
pub struct CtlPlaces {
    reads: Seq<Seq<u32>>,
    references: Seq<Seq<u32>>,
    claims: Seq<Seq<u32>>,
    claimers: Seq<Seq<u32>>,
    exporters: Seq<Option<u32>>,
}

impl Model for CtlPlaces {
    ghost use Rattle.cm_places.specs.Placed.{Placed};

    ghost Value = { Placed };

    ghost view = { λ p. record {
      reads = p.reads;
      references = p.references;
      claims = p.claims;
      claimers = p.claimers;
      exporters = p.exporters;
    } };
}

impl CtlPlaces {
    /// The places of a description.
    pub fn of(alloc: Global, checked: &Checked) -> Result<CtlPlaces, Memory>
        ensures { IfOk result (λ places. places ≡ placed_of checked.now) }
    {
        let listed = list(alloc, checked)?;
        let controllers = checked.description().controllers.as_slice();
        Ok(CtlPlaces {
            reads: rows::reads(alloc, &listed, controllers)?,
            references: rows::references(alloc, &listed, controllers)?,
            claims: rows::claims_of(alloc, &listed, controllers)?,
            claimers: rows::claimers(alloc, &listed, controllers)?,
            exporters: rows::exporters(alloc, &listed)?,
        })
    }

    /// Where the state interfaces stand that the controller at a place reads, in their order.
    pub fn reads(&self, controller: u32) -> &[u32]
        requires { controller < length self.now.reads }
        ensures { result.now ≡ linked self.now.reads controller }
    {
        self.reads.as_slice()[controller as usize].as_slice()
    }

    /// Where its references stand, in their order.
    pub fn references(&self, controller: u32) -> &[u32]
        requires { controller < length self.now.references }
        ensures { result.now ≡ linked self.now.references controller }
    {
        self.references.as_slice()[controller as usize].as_slice()
    }

    /// Where what it claims stands, in their order.
    pub fn claims(&self, controller: u32) -> &[u32]
        requires { controller < length self.now.claims }
        ensures { result.now ≡ linked self.now.claims controller }
    {
        self.claims.as_slice()[controller as usize].as_slice()
    }

    /// The controllers that claim the interface at a place on the board, by their places in the description.
    pub fn claimers(&self, place: u32) -> &[u32]
        requires { place < length self.now.claimers }
        ensures { result.now ≡ linked self.now.claimers place }
    {
        self.claimers.as_slice()[place as usize].as_slice()
    }

    /// The controller that exports the interface at a place on the board, by its place in the description.
    pub fn exporter(&self, place: u32) -> Option<u32>
        requires { place < length self.now.exporters }
        ensures { result ≡ slice_index_or self.now.exporters place None }
    {
        self.exporters.as_slice()[place as usize]
    }
}
