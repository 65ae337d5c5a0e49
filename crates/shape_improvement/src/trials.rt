//! How often tetrahedra and stars of points were tried in vain, by the places of their corners.
use mesh_parts::Spot;
use std::alloc::Global;
use std::collections::HashMap;
use tet_ports::NoMemory;

/// After how many trials in vain a tetrahedron or a star is let alone, where few tetrahedra are
/// asked for.
const MOST: u8 = 2;

/// How often tetrahedra and stars were tried in vain, each known by a hash of its corners, so that
/// it is known again in a later mesh. Where two have one hash, both are let alone earlier.
#[derive(Drop)]
pub struct Trials {
    counts: HashMap<u64, u8>,
    /// After how many trials in vain one is let alone.
    most: u8,
}

/// A number whose low bits depend on all bits of this one.
fn mixed(x: u64) -> u64 {
    let x = (x ^ (x >> 29)).wrapping_mul(0xBF58_476D_1CE4_E5B9);
    x ^ (x >> 32)
}

/// The hash of a point.
pub(crate) fn code_of(p: Spot) -> u64 {
    let x = p.x.cast_unsigned().wrapping_mul(0x9E37_79B9_7F4A_7C15);
    let y = p.y.cast_unsigned().wrapping_mul(0xC2B2_AE3D_27D4_EB4F);
    let z = p.z.cast_unsigned().wrapping_mul(0x1656_67B1_9E37_79F9);
    mixed(x.wrapping_add(y).wrapping_add(z))
}

/// The hash of a tetrahedron, which does not depend on the order of its corners.
pub(crate) fn tet_code(corners: &[Spot; 4]) -> u64 {
    let [a, b, c, d] = *corners;
    let first = code_of(a).wrapping_add(code_of(b));
    let second = code_of(c).wrapping_add(code_of(d));
    mixed(first.wrapping_add(second))
}

impl Trials {
    /// Nothing was tried yet.
    pub fn new(alloc: Global) -> Self {
        Trials {
            counts: HashMap::new(alloc),
            most: MOST,
        }
    }

    /// Sets after how many trials in vain one is let alone: after one where more than one in 64 of
    /// all tetrahedra is asked for, else after `MOST`.
    pub(crate) fn set_most(&mut self, asked: usize, all: usize) {
        self.most = if asked > all / 64 { 1 } else { MOST };
    }

    /// How often the one with this hash was tried in vain.
    fn count(&self, code: u64) -> u8 {
        self.counts.get(&code).copied().unwrap_or(0)
    }

    /// Whether the one with this hash is let alone.
    pub(crate) fn is_spent(&self, code: u64) -> bool {
        self.count(code) >= self.most
    }

    /// Notes that the one with this hash was tried in vain.
    pub(crate) fn note(&mut self, code: u64) -> Result<(), NoMemory> {
        let count = self.count(code).saturating_add(1);
        self.counts.insert(code, count)?;
        Ok(())
    }
}
