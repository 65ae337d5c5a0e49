//! The binary `.stl` files.

ghost use Rattle.std.specs.Prelude.{◌≡◌, ◌≤◌, ◌+◌, ◌-◌, ◌<◌, ◌^◌, ◌==◌, [], drop, length, map, IfOk, Ok, Err, if◌then◌else◌};
ghost use Rattle.tet_text.specs.Faults.{extra};
ghost use Rattle.plc_files.specs.Outcome.{PlcGives};
ghost use Rattle.plc_files.specs.Checks.{HasFewParts};
ghost use Rattle.plc_files.specs.Text.{AreWritten};
ghost use Rattle.soup_files.specs.BinaryStl.{word_at, is_binary_stl, coordinate_at, vertex_at, binary_facet_at, facets_to_end, count_in, settled, binary_stl_of};
ghost use Rattle.soup_files.specs.Triangles.{triangle_polygon};

use crate::stl::{Triangle, placed, surface};
use crate::stl_facet::StlFacet;
use crate::vertex_set::VertexSet;
use binary_floats::float_decimal;
use grid_coords::DecimalPoint;
use plc_files::{PlcFault, PlcText};
use std::alloc::Global;
use tet_ports::{Bytes, Items};
use tet_text::{Decimal, TextFault, TextKind};

/// The bytes before the first facet: 80 of any kind, and the number of facets.
const HEAD: usize = 84;

/// The bytes of a facet.
const FACET: usize = 50;

fn word_at(bytes: &[u8], i: usize) -> u32
    requires { i + 4 ≤ length bytes.now }
    ensures { result ≡ word_at bytes.now i }
{
    u32::from_le_bytes([bytes[i], bytes[i + 1], bytes[i + 2], bytes[i + 3]])
}

/// Whether the bytes are those of a binary `.stl` file, by their number, which is 84 and 50 more
/// for each facet of the count in the head. The bytes before the count decide nothing, since some
/// binary files begin as a text does.
pub fn is_binary_stl(bytes: &Bytes) -> bool
    ensures { result ≡ is_binary_stl bytes.now }
{
    let bytes = bytes.as_slice();
    if bytes.len() < HEAD {
        return false;
    }
    bytes.len() as u64 == 84 + 50 * u64::from(word_at(bytes, 80))
}

fn fault(facet: usize, kind: TextKind) -> TextFault
    ensures { result ≡ record { line = facet; kind = kind } }
{
    TextFault { line: facet, kind }
}

fn coordinate(facet: usize, bytes: &[u8], i: usize) -> Result<Decimal, TextFault>
    requires { i + 4 ≤ length bytes.now }
    ensures { result ≡ coordinate_at facet bytes.now i }
{
    float_decimal(word_at(bytes, i)).ok_or(fault(facet, TextKind::NotANumber))
}

#[tactic(auto, unfolding(crate::specs::BinaryStl::vertex_at))]
fn corner(facet: usize, bytes: &[u8], i: usize) -> Result<DecimalPoint, TextFault>
    requires { i + 12 ≤ length bytes.now }
    ensures { result ≡ vertex_at facet bytes.now i }
{
    let x = coordinate(facet, bytes, i)?;
    let y = coordinate(facet, bytes, i + 4)?;
    let z = coordinate(facet, bytes, i + 8)?;
    let line = facet;
    Ok(DecimalPoint { x, y, z, line })
}

/// The facet in the first 50 bytes. Its normal is not read, nor are its last two bytes.
#[tactic(auto, unfolding(crate::specs::BinaryStl::binary_facet_at))]
fn facet_at(facet: usize, bytes: &[u8]) -> Result<StlFacet, TextFault>
    ensures value { result ≡ binary_facet_at facet bytes.now }
    ensures whole { IfOk result (λ _. 50 ≤ length bytes.now) }
{
    if bytes.len() < FACET {
        return Err(fault(facet, TextKind::Ended));
    }
    let a = corner(facet, bytes, 12)?;
    let b = corner(facet, bytes, 24)?;
    let c = corner(facet, bytes, 36)?;
    let line = facet;
    Ok(StlFacet { line, a, b, c })
}

/// The bytes behind the first `count`.
fn behind(count: usize, bytes: &[u8]) -> &[u8]
    requires { count ≤ length bytes.now }
    ensures { result.now ≡ drop count bytes.now }
{
    &bytes[count..]
}

/// Requires that no byte is left; else the fault names `facet`, which would be the next one.
fn want_end(facet: usize, left: &[u8]) -> Result<(), TextFault>
    ensures { result ≡ (if length left.now == 0 then Ok tt else Err (extra facet)) }
{
    if left.is_empty() {
        return Ok(());
    }
    Err(fault(facet, TextKind::Extra))
}

/// Reads `count` facets, and inserts their corners into the set of points; nothing may follow the
/// last facet.
fn read_facets(
    alloc: Global,
    count: u32,
    bytes: &[u8],
    points: &mut VertexSet,
) -> Result<Items<Triangle>, PlcFault>
    requires { points.old ≡ [] }
    ensures { PlcGives (λ triangles. (points.new, map triangle_polygon triangles)) result
        (settled (facets_to_end count 1 bytes.now)) }
{
    let mut triangles = Items::new(alloc);
    let mut left = bytes;
    for i in 0..count {
        let facet = facet_at(i as usize + 1, left)?;
        left = behind(FACET, left);
        triangles.push(placed(facet, points)?)?;
    }
    want_end(count as usize + 1, left)?;
    Ok(triangles)
}

/// Reads the number of facets.
fn read_count(bytes: &[u8]) -> Result<u32, TextFault>
    ensures value { result ≡ count_in bytes.now }
    ensures whole { IfOk result (λ _. 84 ≤ length bytes.now) }
{
    if bytes.len() < HEAD {
        return Err(fault(1, TextKind::Ended));
    }
    Ok(word_at(bytes, 80))
}

/// The bytes of a binary `.stl` file.
#[tactic(auto, unfolding(crate::specs::BinaryStl::binary_stl_of))]
fn read_bytes(alloc: Global, bytes: &[u8]) -> Result<PlcText, PlcFault>
    requires { length bytes.now < 2 ^ 32 - 1 }
    ensures { PlcGives (λ text. text) result (binary_stl_of bytes.now) }
{
    let count = read_count(bytes)?;
    let mut points = VertexSet::new(alloc);
    let triangles = read_facets(alloc, count, behind(HEAD, bytes), &mut points)?;
    let text = surface(alloc, &points, &triangles)?;
    Ok(text)
}

/// The complex of a binary `.stl` file of fewer than 2^32 - 1 bytes: its points are the distinct
/// corners of its facets, equal as decimals, numbered from 0 in the order in which they are first
/// found, and each facet is a facet of one triangle. A coordinate is the decimal of its float
/// (`float_decimal`). Facets are counted from 1, and their numbers take the place of line numbers.
/// The refusal is the first fault: a facet that is cut off, a coordinate that is no decimal, or
/// bytes behind the last facet.
pub fn read_binary_stl(alloc: Global, bytes: &Bytes) -> Result<PlcText, PlcFault>
    requires { length bytes.now < 2 ^ 32 - 1 }
    ensures value { PlcGives (λ text. text) result (binary_stl_of bytes.now) }
    ensures attributes { IfOk result (λ text. AreWritten text.regions) }
    ensures few { IfOk result HasFewParts }
{
    read_bytes(alloc, bytes.as_slice())
}
