// Runs edit sessions: each refusal at its borders and with faults behind it, edits in every direction, at every
// edge and at places that are not there, more edits than a session keeps, and sessions changed by hand. A line of
// the output for each call has the pairs of characters that stand for it; then the refusal (0 for none) and the
// cells that the call gives, the session's count and number of edits, and its newest edit (place, 1 for a bulge,
// 1 for left); how many bytes of the buffer for scratch, filled with 255 before, are 0 and 255 after; and the
// whole buffer of the list, of which all behind the cells was 255 at first. Another line follows where a refused
// call alters the session. Then, for edits made up by a fixed sequence on small panels, how many were made, taken
// back and refused by each number, and how many calls differed in answer, session, list or scratch from what the
// plain way leaves, or left a list that Judge does not take.
#![tactic(auto)]

mod desk;
mod made_up;
mod plain;

use crate::desk::try_lines;
use std::io;

// Every fault at once, and one fewer with each call; then lists with fewer faults: a bulge, a press, a taking
// back. At the end 23 before 22, and before an edit behind the record that could be taken back.
const REFUSALS: &[u8] =
    b"12 22 12 32 02 x3 y3 hk pm i0 x0 rh s0 na L0 h3 L0 pn L0 i1 L0 x3 L0 r0 L0 sc L0
12 22 12 32 y3 n8 L0
12 22 12 y3 n6 L0
12 22 32 y3 n6 L0 y2 L0 L1 na L1
12 22 12 32 02 x3 y3 hk pm i0 x0 rh s0 na P0 h3 P0 pn P0 i1 P0 x3 P0 r0 P0 sc P0
12 22 12 32 y3 n8 P0
12 22 12 y3 n6 P0
12 22 32 y3 n6 P0 y2 P0
12 11 21 22 y3 n8 P0 y2 P0 P1
12 22 12 32 02 x3 y3 hk pm i0 x0 rh s0 na T0 h3 T0 pn T0 i1 T0 x3 T0 r0 T0 sc T0
12 22 12 32 y3 n8 T0
12 22 12 y3 n6 T0
12 22 32 y3 n6 T0 y2 T0 D0 T0 D1 T0 na T0
12 22 32 D0 r0 n6 T0
12 22 32 D1 r0 T0
";

// Sides of 0, 1, 128, 129 and the largest; pitches. Ends beside each edge and far off, and other ends. Counts of
// 0, of other than the list's cells, of more than the buffer holds; the edits claimed. The scratch. Lists with a
// cell off the panel, with a step that is none, with a cell twice.
const BORDERS: &[u8] = b"12 22 32 w0 L1 P1 T0
12 22 32 h0 L1 P1 T0
12 22 32 wk L1
12 22 32 hk L1
12 22 32 wr L1
12 22 32 hr L1
11 w1 h1 L1 P1 T0 wr hr L1
11 21 wj h1 L1 h2 R1
)1 *1 wj h2 R1 T0
11 12 w1 hj L1 w2 L1
2i 2j w2 hj R1 T0
12 22 32 p0 L1 pm L1 P1 T0 pn L1 T0
12 22 32 pp L1 P1 T0 pr L1 po L1 T0
12 22 32 i0 L1 i5 L1 ir L1 i2 L1 i1 L1
12 22 32 j0 L1 j4 P1 jr T0 j1 L1 j2 L1
12 22 32 x0 L1 x5 L1 xr L1 x2 L1 x3 L1
12 22 32 y0 L1 y4 P1 yr T0 y1 L1 y2 L1
12 22 32 i3 x1 L1 i1 L1 x3 L1
12 22 32 i4 j3 x4 y3 P1 T0
12 22 32 c0 L1 P1 T0
12 22 32 c1 L1 x1 L1 P1 T0
12 22 32 c2 L1 x2 L1 T0
12 22 21 c2 x2 y2 L1 R1
12 22 32 c4 L1
12 22 32 ca L1 cb L1 P1 T0 cq L1 P1 T0 cr L1 P1 T0 c3 L1
12 22 32 n0 L1 n5 L1 n6 L1 n7 L1 n9 L1 na L1
12 22 32 nb L1
12 11 21 22 n7 P1 n8 P1 T0
12 22 32 rg L1 T0
12 22 32 rh L1 P1 T0 rr L1 P1 T0 cq L1 r0 L1 c3 L1
12 22 32 rg T0 P1
12 22 32 s0 L1 sb L1 P1 T0 sc L1 T0
02 12 22 i1 L1 P1 T0
12 22 32 42 52 x4 L1
11 10 j1 y1 L1
13 14 y3 P1
11 21 ,, x2 y1 T0
12 32 L1 P1 T0
12 23 L1
12 22 22 L1
11 12 22 42 L1
12 22 12 L1 P1 T0
12 11 21 22 12 L1
12 22 32 31 21 22 23 L1
";

// Bulges of steps to the right, to the left, down and up, then in the middle and at the end of a track; the same
// of presses, with the sides left and right, and presses behind each other. No detour: three cells in a line,
// corners, a U that is too wide or open at the end. Detours off each of the four edges, both ways; then on the
// track: the first cell of the two, the second, both. Places of 0, the last cell's, past the end, far past it.
const EDITS: &[u8] = b"22 32 L1 T0 T0
22 32 R1 T0
32 22 L1 T0
32 22 R1 T0
22 23 L1 T0
22 23 R1 T0
23 22 L1 T0
23 22 R1 T0
12 22 32 42 L1 T0 L2 T0 L3 T0 R1 T0 R2 T0 R3 T0
12 22 32 42 L3 L1 T0 T0 L1 L2 R5 T0 L6 T0 T0 T0
21 22 23 24 L1 T0 R2 T0 L3 R1 T0 T0
22 21 31 32 P1 T0 T0
22 23 33 32 P1 T0
32 33 23 22 P1 T0
32 31 21 22 P1 T0
22 32 33 23 P1 T0
22 12 13 23 P1 T0
23 13 12 22 P1 T0
23 33 32 22 P1 T0
12 22 21 31 32 42 P1 P3 P2 T0 P4
12 11 21 22 32 33 43 42 P5 P1 T0 T0 P1 P3 T0 T0
23 22 21 31 32 33 P1 P3 P2 P1 T0 T0 T0
12 22 32 42 P1
22 21 31 41 42 P1 P2
12 22 32 33 P1
12 22 23 33 P1
12 13 23 33 P1
12 11 21 31 32 P1 P2
44 34 24 14 P1
41 42 43 44 P1
44 43 42 41 P1
22 21 31 P1 P2 P3
11 21 w2 h2 L1 R1
21 11 w2 h2 R1 L1
12 22 w2 h2 R1 L1
22 12 w2 h2 L1 R1
11 12 w2 h2 R1 L1
12 11 w2 h2 L1 R1
21 22 w2 h2 L1 R1
22 21 w2 h2 R1 L1
21 22 32 w3 h2 L2 R2
22 32 31 w3 h2 L1 h3 R1
11 12 22 32 31 21 w3 h2 L1 R1 L2 L5
31 21 22 23 33 w4 h4 L2 R2 R3 L4 R4
23 22 21 31 32 33 w4 h4 L2 R2 R4 R1
12 22 32 33 23 13 w4 h4 R1 R2 L4 L5 R4 L1
12 22 32 42 w4 h2 L0 L4 L5 Lq Lr R0 R4 Rq Rr L3
12 11 21 22 32 w4 h2 P0 P2 P3 P4 P5 P6 Pq Pr P1
12 22 32 31 41 42 w4 h2 P0 P2 P4 P6 P7 Pq Pr P3
";

// More edits than are kept, each taken back, and one taking back more. Then sessions changed by hand: edits on
// record at places that are not there; of detours that are not there, or on the other side; of cells that are
// taken or off the panel; with a buffer too short; behind those that count. A panel, a count and a buffer changed
// before an edit is taken back. The last place of the record.
const SESSIONS: &[u8] =
    b"12 22 32 42 L1 R5 P1 P3 L1 L5 R4 P4 P5 L5 R4 P7 L7 P1 P2 P3 L2 R1 R7 P1 P5 P2 L3 R2 P5 P2 R3 R1 L4 P7 P4 R5 L4 \
T0 T0 T0 T0 T0 T0 T0 T0 T0 T0 T0 T0 T0 T0 T0 T0 T0 T0 T0 T0 T0 T0 T0 T0 T0 T0 T0 T0 T0 T0 T0 T0 T0
12 22 32 42 B0 T0
12 22 32 42 B4 T0
12 22 32 42 B9 T0
12 22 32 42 Br T0
12 22 32 31 41 42 Bq T0 B3 T0
12 22 32 42 D0 T0
12 22 32 42 D4 T0
12 22 32 42 D5 T0
12 22 32 42 Dr T0
12 22 32 42 Dq T0
12 22 32 B1 T0
12 22 32 42 B1 T0
22 21 31 32 C1 T0 r0 B1 T0
22 23 33 32 B1 T0 r0 C1 T0
21 22 32 D2 T0 E2 T0
22 32 31 D1 T0 E1 T0
11 21 D1 T0 E1 T0
12 22 32 D1 n6 T0 n9 T0 na T0
22 21 31 32 B1 r0 T0 r1 T0
12 22 32 B1 D2 r1 T0 r2 T0
12 11 21 22 32 B3 B1 D1 r2 T0 T0
11 12 22 21 P1 h1 T0 h2 T0
12 22 32 L1 c3 x2 y1 T0 c5 x3 y2 T0
12 22 32 L1 R4 n9 T0 nd T0 ne T0 T0
12 22 32 rf Br T0
12 22 32 rf D1 T0
";

fn main(rt: HostRuntime) -> io::Result<()> {
    try_lines(&rt, b"refusals, 4 by 3:\n", 4, 3, REFUSALS)?;
    try_lines(&rt, b"borders, 4 by 3:\n", 4, 3, BORDERS)?;
    try_lines(&rt, b"edits, 4 by 4:\n", 4, 4, EDITS)?;
    try_lines(&rt, b"sessions, 4 by 3:\n", 4, 3, SESSIONS)?;
    made_up::run(&rt)
}
