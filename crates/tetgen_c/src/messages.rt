//! The words for statuses, for C.

ghost use Rattle.std.specs.Prelude.{◌≡◌, ◌≤◌, ◌<◌, drop, length, take};
ghost use Rattle.tetgen_c.specs.Messages.{status_words};

/// The words for a status.
fn words_for(status: i32) -> &'static [u8]
    ensures { result.now ≡ status_words status }
{
    match status {
        0 => b"done",
        4 => b"a facet, a polygon or a corner names what is not there",
        5 => b"too many points, decimals or added points, or a coordinate too large or no number",
        6 => b"all points lie in one plane, a facet is not flat, or facets or segments cross",
        7 => b"a segment needs a finer grid",
        8 => b"as many points were added as allowed, and a segment is missing",
        9 => b"two facets cross one Delaunay tetrahedron, and no filling was found",
        10 => b"out of memory",
        20 => b"an array is too short",
        _ => b"",
    }
}

/// Writes the words for a status of a call on arrays to the front of `room`, where they fit, and
/// answers how many bytes they have, 0 where the number is no status of such a call. What lies
/// behind stays, and all of `room` where it is shorter.
#[unsafe(no_mangle)]
pub extern "C" fn tetgen_message(status: i32, room: &mut [u8]) -> usize
    ensures count { result ≡ length (status_words status) }
    ensures words { result ≤ length room.old → take result room.new ≡ status_words status }
    ensures behind { result ≤ length room.old → drop result room.new ≡ drop result room.old }
    ensures kept { length room.old < result → room.new ≡ room.old }
{
    let words = words_for(status);
    if words.len() <= room.len() {
        room[..words.len()].copy_from_slice(words);
    }
    words.len()
}
