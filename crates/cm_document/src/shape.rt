//! What a controller has, by its parameters.

ghost use Rattle.std.specs.Prelude.{◌≡◌, Some};
ghost use Rattle.std.specs.Option.{option_map_or};
ghost use Rattle.cm_document.specs.Params.{exports_of, reads_beside, told_reads, claims_of, references_by, shape_of};

use crate::description::{Exports, Params};

/// How many interfaces a controller has of each sort.
#[derive(Clone, Copy, Debug, PartialEq, Eq)]
pub struct Shape {
    /// How many interfaces it claims, which is how many outputs an update gives.
    pub claims: usize,
    /// How many states it reads; none where it reads any number.
    pub reads: Option<usize>,
    /// How many references it exports.
    pub references: usize,
}

impl Params {
    /// How many interfaces such a controller has.
    #[tactic(auto, using(crate::proofs::OwnLemmas::shape_is))]
    pub fn shape(&self) -> Shape
        ensures { result ≡ shape_of self.now }
    {
        let claims = self.claims();
        Shape {
            claims,
            reads: self.reads(claims),
            references: self.references(claims),
        }
    }

    fn claims(&self) -> usize
        ensures { result ≡ claims_of self.now }
    {
        match self.told_claims() {
            Some(claims) => claims as usize,
            None => self.most_claims(),
        }
    }

    fn reads(&self, claims: usize) -> Option<usize>
        ensures { result ≡ option_map_or Some (told_reads self.now) (reads_beside self.now claims) }
    {
        match self.told_reads() {
            Some(reads) => Some(reads as usize),
            None => self.reads_beside(claims),
        }
    }

    fn references(&self, claims: usize) -> usize
        ensures { result ≡ references_by (exports_of self.now) claims }
    {
        match self.exports() {
            Exports::Nothing => 0,
            Exports::FirstRead => 1,
            Exports::EachClaim => claims,
        }
    }
}
