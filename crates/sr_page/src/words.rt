//! What the words of a page mean, and where it is signed.

use crate::elements::put_all;
use crate::topology::Topology;
use std::io::{self, Write};

/// Words that are those of two LANs.
const OF_LANS: [&str; 9] = [
    "<dt>Frame, number</dt><dd>Each node sends every frame twice, once into each LAN, with the same sequence number. A frame is told by its source and its number.</dd>\n",
    "<dt>Lost on A (on B)</dt><dd>The copy of LAN A (of LAN B) is missing while that capture ran. The other copy came, so receivers got the frame; but a second fault would have lost it. Colours name the LAN on which something is missing.</dd>\n",
    "<dt>Lost on both</dt><dd>Neither copy was captured: a number is missing between others. Receivers did not get that frame.</dd>\n",
    "<dt>A alone, B alone</dt><dd>At least 3 frames behind each other came by one LAN alone: a link, port or switch of the other one was down.</dd>\n",
    "<dt>Skew</dt><dd>The time at which the copy came by LAN B minus that at LAN A. It has the difference of the paths, and that of the clocks of the two captures. Receivers take copies up to 400 ms apart.</dd>\n",
    "<dt>Wrong LAN</dt><dd>The frame bears the id of the other LAN: a cable in the wrong port, or LANs that are joined.</dd>\n",
    "<dt>Misfit</dt><dd>The frame ends as one with a PRP trailer, but the size in it is wrong.</dd>\n",
    "<dt>Repeated</dt><dd>A copy came twice by the same LAN: a loop, or a capture that sees a frame twice.</dd>\n",
    "<dt>Verdict</dt><dd>FAIL where frames were lost on A, on B or on both, were repeated, had the id of the other LAN or a trailer that is none, or came 400 ms or more behind their copies, and where a source has two senders, or has lost its redundancy. NO VERDICT where the captures have no frames to compare. PASS otherwise. The program ends <code>--check</code> with status 3, 4 and 0.</dd>\n",
];

/// Words that are those of a ring.
const OF_RINGS: [&str; 8] = [
    "<dt>Frame, number</dt><dd>Each node sends every frame twice, once each way round the ring, with the same sequence number. A frame is told by its source and its number.</dd>\n",
    "<dt>Lost on A (on B)</dt><dd>The copy that went way A (way B) round the ring is missing while that capture ran. The other copy came, so receivers got the frame; but a second fault would have lost it. Colours name the way on which something is missing.</dd>\n",
    "<dt>Lost on both</dt><dd>Neither copy was captured: a number is missing between others. Receivers did not get that frame.</dd>\n",
    "<dt>A alone, B alone</dt><dd>At least 3 frames behind each other came by one way alone: the ring was cut, or a node did not pass them on.</dd>\n",
    "<dt>Skew</dt><dd>The time at which the copy came by way B minus that by way A. It has the difference of the two ways round the ring, and that of the clocks of the two captures. Receivers take copies up to 400 ms apart.</dd>\n",
    "<dt>Misfit, wrong way</dt><dd>Faults of PRP trailers. Frames of a ring have none.</dd>\n",
    "<dt>Repeated</dt><dd>A copy came twice by the same way: it went round the ring again, or a capture sees a frame twice.</dd>\n",
    "<dt>Verdict</dt><dd>FAIL where frames were lost on A, on B or on both, were repeated, or came 400 ms or more behind their copies, and where a source has two senders or has lost its redundancy, and where the ring is cut. NO VERDICT where the captures have no frames to compare. PASS otherwise. The program ends <code>--check</code> with status 3, 4 and 0.</dd>\n",
];

/// What is said first of any network.
const FIRST: [&str; 2] = [
    "<section aria-labelledby=\"h-words\"><h2 id=\"h-words\">Words, and how this was counted</h2><dl class=\"words\">\n",
    "<dt>By both</dt><dd>Both copies were captured. This is what a sound network does with every frame.</dd>\n",
];

/// What is said last.
const LAST: [&str; 6] = [
    "<dt>Out of order</dt><dd>The frame came behind one with a greater number by the same way. Alone it is no fault.</dd>\n",
    "<dt>Jump, restart</dt><dd>Numbers that went on more than 1023 ahead, or anew behind 400 ms of silence: a node restarted, or the capture has a gap.</dd>\n",
    "<dt>Life gap</dt><dd>The greatest time between two supervision frames of a node, which it sends every 2 s.</dd>\n",
    "<dt>In Wireshark</dt><dd>Open a capture, and put the filter of a finding into the display filter bar. Times count from the first packet of both captures.</dd>\n",
    "</dl></section>\n",
    "<section class=\"sign\" aria-labelledby=\"h-sign\"><h2 id=\"h-sign\">Accepted</h2><table><thead><tr><th scope=\"col\">Role</th><th scope=\"col\">Name</th><th scope=\"col\">Date</th><th scope=\"col\">Signature</th></tr></thead><tbody><tr><td>Tested by</td><td></td><td></td><td></td></tr><tr><td>Witnessed by</td><td></td><td></td><td></td></tr></tbody></table></section>\n",
];

/// Writes what the words of a page mean, and where it is signed.
///
/// # Errors
/// The writer fails.
pub fn write_words<W: Write>(writer: &mut W, topology: Topology) -> io::Result<()> {
    put_all(writer, FIRST.as_slice())?;
    match topology {
        Topology::Lans => put_all(writer, OF_LANS.as_slice())?,
        Topology::Ring => put_all(writer, OF_RINGS.as_slice())?,
    }
    put_all(writer, LAST.as_slice())
}
