//! Points as a text states them.

use tet_ports::Items;
use tet_text::Decimal;

/// A point as a text states it, and the line that states it, counted from 1.
#[derive(Clone, Copy, Debug)]
pub struct DecimalPoint {
    pub x: Decimal,
    pub y: Decimal,
    pub z: Decimal,
    pub line: usize,
}

/// A list of such points.
pub type DecimalPoints = Items<DecimalPoint>;
