//! Complexes whose facets have one polygon each.

ghost use Rattle.std.specs.Prelude.{◌≡◌, ◌-◌, ◌<◌, ◌^◌, length, OnOk};
ghost use Rattle.node_files.specs.Node.{IsNodeText};
ghost use Rattle.plc_files.specs.Text.{empty_polygon};
ghost use Rattle.soup_files.specs.Surface.{nodes_at, marked_face, plus_facet};

use grid_coords::DecimalPoints;
use node_files::{Markers, NodeText};
use plc_files::PlcText;
use std::alloc::Global;
use tet_ports::{NoMemory, Words};

/// A point list, numbered from 0, with no attribute and no marker.
pub(crate) fn nodes_at(alloc: Global, points: DecimalPoints) -> NodeText
    requires { length points < 2 ^ 32 - 1 }
    ensures value { result ≡ nodes_at points }
    ensures table { IsNodeText result }
{
    NodeText {
        first: 0,
        attribute_count: 0,
        flag: false,
        decimals: points,
        attributes: Words::new(alloc),
        markers: Markers::new(alloc),
    }
}

/// Appends a facet with this marker, of one polygon with no corner yet, at `line`.
pub(crate) fn start_face(
    marker: Option<i64>,
    line: usize,
    text: &mut PlcText,
) -> Result<(), NoMemory>
    ensures { OnOk result (text.new
        ≡ plus_facet (marked_face marker (empty_polygon line)) text.old) }
{
    text.add_facet(marker)?;
    text.add_polygon(line)
}
