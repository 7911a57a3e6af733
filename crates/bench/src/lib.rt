// The calls of the bench cutter, whose bed takes 32 cells a side: Bound, Draw and Judge for the panels
// that it takes. Each is the call for large panels behind a check of its own.
#![tactic(auto)]

ghost use Rattle.std.specs.Prelude.{◌≡◌};
ghost use Rattle.bench.specs.Bench.{fits_bench, check_bench, BenchBounds, BenchDraws, bench_buffer, BenchJudges};

use count::ClassCount;
use grid::{Cells, Order, Panel, Refusal, check_panel, ensure};

// The largest side of a panel on the bench.
const BENCH_SIDE: u32 = 32;

fn fits_bench(p: Panel) -> bool
    ensures { result ≡ fits_bench p }
{
    p.width <= BENCH_SIDE && p.height <= BENCH_SIDE
}

// What a bench call refuses of its panel: 1, 18, 19.
pub fn check_bench(p: Panel) -> Result<(), Refusal>
    ensures { result ≡ check_bench p }
{
    check_panel(p)?;
    ensure(fits_bench(p), Refusal::BenchSide)
}

// Bound on the bench.
pub fn bound(o: Order) -> Result<ClassCount, Refusal>
    ensures { BenchBounds o.panel o.entry o.exit result }
{
    check_bench(o.panel)?; // 1, 18, 19
    bound::bound(o)
}

// Draw on the bench.
pub fn draw(o: Order, buf: &mut [u8]) -> Result<Cells, Refusal>
    ensures bench_draws { BenchDraws o.panel o.entry o.exit buf.old buf.new result }
    ensures cells { buf.new ≡ bench_buffer o.panel o.entry o.exit buf.old }
{
    check_bench(o.panel)?; // and no byte is changed
    draw::draw(o, buf)
}

// Judge on the bench.
pub fn judge(o: Order, list: &[u8], scratch: &mut [u8]) -> Result<Cells, Refusal>
    ensures { BenchJudges o.panel o.entry o.exit list.now scratch.old scratch.new result }
{
    check_bench(o.panel)?; // and scratch is as it was
    judge::judge(o, list, scratch)
}
