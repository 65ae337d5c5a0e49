//! Where a place of a point is: in facets, and on an edge.
use crate::live::Freedom;
use crate::star::Star;
use geo_laws::Side;
use std::alloc::Global;
use tet_ports::NoMemory;

/// Where a place is to be: the facets in which it lies, and the edge on which it lies.
#[derive(Drop)]
pub(crate) struct Site {
    pub(crate) facets: Vec<u32>,
    pub(crate) edge: Option<Side>,
}

impl Site {
    /// In no facet.
    pub(crate) fn new(alloc: Global) -> Self {
        Site {
            facets: Vec::new(alloc),
            edge: None,
        }
    }

    /// Makes this a place in no facet.
    pub(crate) fn clear(&mut self) {
        self.facets.clear();
        self.edge = None;
    }

    /// Adds a facet.
    pub(crate) fn add(&mut self, facet: u32) -> Result<(), NoMemory> {
        if !self.facets.contains(&facet) {
            self.facets.push(facet)?;
        }
        Ok(())
    }

    /// Makes this where a point lies, from its star, and reports whether it may be moved there.
    pub(crate) fn set(&mut self, star: &Star, freedom: Freedom) -> Result<bool, NoMemory> {
        self.clear();
        for bordering in star.borderings.as_slice() {
            self.add(bordering.facet)?;
        }
        match freedom {
            Freedom::Nowhere => Ok(false),
            Freedom::Anywhere => Ok(self.facets.is_empty()),
            Freedom::InFacet(facet) => {
                Ok(self.facets.len() == 1 && self.facets.contains(&facet))
            }
            Freedom::OnSegment => {
                self.edge = star.ends();
                Ok(self.edge.is_some())
            }
        }
    }
}
