//! The Delaunay list of an array of points.

ghost use Rattle.std.specs.Prelude.{◌≡◌, ◌≤◌, ◌<◌, ◌-◌, ◌^◌, map, drop, take, length, All, IfErr, IfOk, OnErr};
ghost use Rattle.geo_laws.specs.Delaunay.{HasDistinctPoints};
ghost use Rattle.node_files.specs.Limits.{AreIndexable};
ghost use Rattle.node_files.specs.Node.{IsNodeText};
ghost use Rattle.array_meshes.specs.Arrays.{AreDelaunayRows, IsArrayFault, IsArrayTable, IsMeshFault, IsTableFault, array_limits, code_of, decimal_point, named, text_of, wanted_of, whole};

use cavity_insert::{BuildFault, delaunay};
use geo_laws::TetList;
use grid_coords::{DecimalPoint, DecimalPoints};
use node_files::{GridOptions, Limits, Markers, Names, NodeFault, NodeTable, NodeText, settle};
use std::alloc::Global;
use tet_ports::{NoMemory, Words};
use tet_text::Decimal;

/// A point with whole coordinates, each at most 2^29 in size where it is meshed.
#[repr(C)]
#[derive(Clone, Copy, Debug, PartialEq, Eq)]
pub struct Place {
    pub x: i64,
    pub y: i64,
    pub z: i64,
}

/// A tetrahedron, by the places of its corners in an array of points, from 0.
#[repr(C)]
#[derive(Clone, Copy, Debug, PartialEq, Eq)]
pub struct Row {
    pub a: u32,
    pub b: u32,
    pub c: u32,
    pub d: u32,
}

/// Why an array of points has no Delaunay list, or why the list was not written.
#[derive(Clone, Copy, Debug, PartialEq, Eq)]
pub enum ArrayFault {
    /// There are more than 4,000,000 points.
    TooMany,
    /// A coordinate is over 2^29 in size.
    OffGrid,
    /// All points lie in one plane.
    Flat,
    /// The list is longer than the array that is to take it; its length.
    NoRoom { count: usize },
    /// Out of memory.
    NoMemory,
}

impl From<NoMemory> for ArrayFault {
    ghost use Rattle.array_meshes.specs.declared.arrays.ArrayFault.TheVariants.{NoMemory as OutOfMemory};

    ghost from_gives = { λ _ fault. fault ≡ OutOfMemory };

    fn from(_: NoMemory) -> ArrayFault {
        ArrayFault::NoMemory
    }
}

impl ArrayFault {
    /// The status with which a call ends: 5 for a limit, 6, 10 and 20 for want of room.
    pub fn code(&self) -> u8
        ensures { result ≡ code_of self.now }
    {
        match self {
            ArrayFault::TooMany => 5,
            ArrayFault::OffGrid => 5,
            ArrayFault::Flat => 6,
            ArrayFault::NoMemory => 10,
            ArrayFault::NoRoom { .. } => 20,
        }
    }

    /// The length of the list for which there is no room, and 0 for any other fault.
    pub fn wanted(&self) -> usize
        ensures { result ≡ wanted_of self.now }
    {
        match self {
            ArrayFault::NoRoom { count } => *count,
            _ => 0,
        }
    }
}

/// The limits of an array.
fn array_limits() -> Limits
    ensures values { result ≡ array_limits }
    ensures indexable { AreIndexable result }
{
    Limits {
        bytes: 1_073_741_824,
        points: 4_000_000,
        facets: 4_000_000,
        corners: 1_000_000,
        grid: 536_870_912,
    }
}

/// A whole number as a decimal.
fn whole(n: i64) -> Decimal
    ensures { result ≡ whole n }
{
    Decimal {
        value: i128::from(n),
        scale: 0,
    }
}

/// A point of an array as a point list states it.
pub(crate) fn decimal_point(p: &Place) -> DecimalPoint
    ensures { result ≡ decimal_point p.now }
{
    DecimalPoint {
        x: whole(p.x),
        y: whole(p.y),
        z: whole(p.z),
        line: 0,
    }
}

/// The points as a point list states them.
fn decimal_points(alloc: Global, places: &[Place]) -> Result<DecimalPoints, NoMemory>
    ensures { IfOk result (λ list. list ≡ map decimal_point places.now) }
{
    let mut list = DecimalPoints::with_capacity(alloc, places.len())?;
    for p in places {
        list.push(decimal_point(p))?;
    }
    Ok(list)
}

/// The point list of an array.
fn text_of(alloc: Global, places: &[Place]) -> Result<NodeText, NoMemory>
    requires { length places.now < 2 ^ 32 - 1 }
    ensures value { IfOk result (λ text. text ≡ text_of places.now) }
    ensures table { IfOk result IsNodeText }
{
    Ok(NodeText {
        first: 0,
        attribute_count: 0,
        flag: false,
        decimals: decimal_points(alloc, places)?,
        attributes: Words::new(alloc),
        markers: Markers::new(alloc),
    })
}

/// The rows of a list, by the names of their corners.
fn named_rows(alloc: Global, names: &Names, list: &TetList) -> Result<Vec<Row>, NoMemory>
    requires { All (λ t. (t.a < length names.now) × (t.b < length names.now)
        × (t.c < length names.now) × (t.d < length names.now)) list.now }
    ensures { IfOk result (λ rows. rows.items ≡ map (named names.now) list.now) }
{
    let mut rows = Vec::with_capacity(alloc, list.len())?;
    for t in list.as_slice() {
        rows.push(Row {
            a: names.at(t.a as usize),
            b: names.at(t.b as usize),
            c: names.at(t.c as usize),
            d: names.at(t.d as usize),
        })?;
    }
    Ok(rows)
}

/// The points of an array on the grid of whole numbers, whose unit is halved up to so many times as
/// all points fit, where equal ones are folded.
pub(crate) fn table_of(
    alloc: Global,
    places: &[Place],
    halvings: u32,
) -> Result<NodeTable, ArrayFault>
    ensures table { IfOk result (IsArrayTable halvings places.now) }
    ensures distinct { IfOk result (λ table. HasDistinctPoints table.points) }
    ensures fault { IfErr result (IsTableFault places.now) }
{
    if places.len() > 4_000_000 {
        return Err(ArrayFault::TooMany);
    }
    let text = text_of(alloc, places)?;
    let options = GridOptions {
        decimals: None,
        halvings,
    };
    match settle(alloc, array_limits(), text, &options) {
        Ok(table) => Ok(table),
        Err(NodeFault::NoMemory) => Err(ArrayFault::NoMemory),
        Err(NodeFault::Range { .. }) => Err(ArrayFault::OffGrid),
        Err(_) => Err(ArrayFault::TooMany),
    }
}

/// The Delaunay list of an array of points, ascending, by the places of the corners in the array,
/// from 0. Of equal points the first stands for all.
///
/// Refusals: `TooMany`, over 4,000,000 points; `OffGrid`, a coordinate over 2^29 in size; `Flat`,
/// all points lie in one plane, as fewer than four do; `NoMemory`.
pub fn delaunay_rows(alloc: Global, places: &[Place]) -> Result<Vec<Row>, ArrayFault>
    ensures rows { IfOk result (λ rows. AreDelaunayRows places.now rows.items) }
    ensures fault { IfErr result (IsMeshFault places.now) }
{
    let table = table_of(alloc, places, 0)?;
    let list = match delaunay(alloc, &table.points) {
        Ok(list) => list,
        Err(BuildFault::Flat) => return Err(ArrayFault::Flat),
        Err(BuildFault::NoMemory) => return Err(ArrayFault::NoMemory),
    };
    Ok(named_rows(alloc, &table.names, &list)?)
}

/// Writes the Delaunay list of an array of points to the front of `rows`, and answers its length.
/// What lies behind stays, and on a refusal all of `rows`.
///
/// Refusals: as of `delaunay_rows`, and `NoRoom` where `rows` is shorter than the list.
pub fn delaunay_into(alloc: Global, places: &[Place], rows: &mut [Row]) -> Result<usize, ArrayFault>
    ensures rows { IfOk result (λ count. AreDelaunayRows places.now (take count rows.new)) }
    ensures within { IfOk result (λ count. count ≤ length rows.old) }
    ensures behind { IfOk result (λ count. drop count rows.new ≡ drop count rows.old) }
    ensures fault { IfErr result (IsArrayFault places.now (length rows.old)) }
    ensures kept { OnErr result (rows.new ≡ rows.old) }
{
    let made = delaunay_rows(alloc, places)?;
    let count = made.len();
    if count > rows.len() {
        return Err(ArrayFault::NoRoom { count });
    }
    rows[..count].copy_from_slice(made.as_slice());
    Ok(count)
}
