//! Point lists.

ghost use Rattle.std.specs.Prelude.{◌≡◌, ◌<◌, ◌≤◌, ◌+◌, ◌-◌, ◌^◌, length, OnErr, IfOk, true};
ghost use Rattle.tet_text.specs.Lines.{content_lines, line_count_of};
ghost use Rattle.tet_text.specs.Views.{content_left, line_total};
ghost use Rattle.node_files.specs.Outcome.{NodeGives};
ghost use Rattle.node_files.specs.Point.{is_next};
ghost use Rattle.node_files.specs.Node.{first_with, point_onto, points_table, node_list_of, node_of, IsNodeText};

use crate::header::{Header, read_header};
use crate::point::{read_attributes, read_index, read_marker, read_place};
use crate::{Markers, NodeFault, NodeText};
use grid_coords::DecimalPoints;
use std::alloc::Global;
use tet_ports::{Bytes, Words};
use tet_text::{Fields, Lines};

/// The first number, where a point with this number comes behind `before`.
fn first_after(before: Option<u64>, first: u32, number: u64) -> u32
    requires { is_next before number ≡ true }
    ensures { result ≡ first_with before first number }
{
    match before {
        None => number as u32,
        Some(_) => first,
    }
}

/// Reads a point, appended to the table, and answers its number.
#[tactic(auto, unfolding(crate::specs::Point::point_of))]
fn read_point(
    alloc: Global,
    header: Header,
    before: Option<u64>,
    fields: &mut Fields,
    text: &mut NodeText,
) -> Result<u64, NodeFault>
    ensures { NodeGives (λ number. (number, text.new)) result
        (point_onto header before fields.old text.old) }
{
    let number = read_index(before, fields)?;
    let place = read_place(fields)?;
    text.first = first_after(before, text.first, number);
    text.decimals.push(place)?;
    read_attributes(alloc, header.attribute_count, fields, &mut text.attributes)?;
    read_marker(header.flag, fields, &mut text.markers)?;
    fields.want_end()?;
    Ok(number)
}

/// Reads the points that the first line states.
fn read_points(alloc: Global, header: Header, lines: &mut Lines) -> Result<NodeText, NodeFault>
    requires { line_total lines.old + 1 < 2 ^ 64 }
    ensures value { NodeGives (λ text. (text, content_left lines.new)) result
        (points_table header (line_total lines.old) (content_left lines.old)) }
    ensures count { line_total lines.new ≡ line_total lines.old }
{
    let mut text = NodeText {
        first: 1,
        attribute_count: header.attribute_count,
        flag: header.flag,
        decimals: DecimalPoints::new(alloc),
        attributes: Words::new(alloc),
        markers: Markers::new(alloc),
    };
    let mut before = None;
    for _ in 0..header.count {
        let mut fields = lines.want_line()?;
        let number = read_point(alloc, header, before, &mut fields, &mut text)?;
        before = Some(number);
    }
    Ok(text)
}

#[tactic(auto, unfolding(crate::specs::Node::node_list_of))]
fn node_list(alloc: Global, lines: &mut Lines) -> Result<NodeText, NodeFault>
    requires { line_total lines.old + 1 < 2 ^ 64 }
    ensures value { NodeGives (λ text. (text, content_left lines.new)) result
        (node_list_of (line_total lines.old) (content_left lines.old)) }
    ensures count { line_total lines.new ≡ line_total lines.old }
{
    let mut fields = lines.want_line()?;
    let header = read_header(&mut fields)?;
    read_points(alloc, header, lines)
}

/// A point list inside a text of fewer than 2^32 - 1 lines. The lines behind the list stay unread;
/// on a refusal the lines are as they were.
pub fn read_node_list(alloc: Global, lines: &mut Lines) -> Result<NodeText, NodeFault>
    requires { line_total lines.old < 2 ^ 32 - 1 }
    ensures value { NodeGives (λ text. (text, content_left lines.new)) result
        (node_list_of (line_total lines.old) (content_left lines.old)) }
    ensures count { line_total lines.new ≡ line_total lines.old }
    ensures err { OnErr result (lines.new ≡ lines.old) }
    ensures table { IfOk result IsNodeText }
{
    let mut ahead = *lines;
    let text = node_list(alloc, &mut ahead)?;
    *lines = ahead;
    Ok(text)
}

/// The point list of a `.node` file of fewer than 2^32 - 1 bytes.
#[tactic(auto, unfolding(crate::specs::Node::node_of))]
pub fn read_node(alloc: Global, bytes: &Bytes) -> Result<NodeText, NodeFault>
    requires { length bytes.now < 2 ^ 32 - 1 }
    ensures value { NodeGives (λ text. text) result
        (node_of (line_count_of bytes.now) (content_lines bytes.now)) }
    ensures table { IfOk result IsNodeText }
{
    let mut lines = Lines::new(bytes.as_slice());
    let text = read_node_list(alloc, &mut lines)?;
    lines.want_end()?;
    Ok(text)
}
