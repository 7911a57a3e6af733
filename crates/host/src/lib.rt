// The calls of the order desk's C host: each takes numbers and byte slices, and gives refusal, class
// and count packed in one number. host/foil.h declares them.
#![tactic(auto)]

ghost use Rattle.std.specs.Prelude.{◌≡◌, ◌<◌, ◌^◌};
ghost use Rattle.grid.specs.Panel.{panel, cell};
ghost use Rattle.grid.specs.Answer.{cells_values};
ghost use Rattle.grid.specs.Refusal.{number};
ghost use Rattle.bound.specs.Bound.{bound_values};
ghost use Rattle.bench.specs.Bench.{check_bench};
ghost use Rattle.host.specs.Host.{packed, PacksBound, PacksDraw, PacksJudge, PacksBenchBound, PacksBenchDraw, PacksBenchJudge};

use bound::BoundValues;
use count::ClassCount;
use grid::{Cell, Cells, CellsValues, Order, Refusal, panel_of};

const REFUSAL_UNIT: u64 = 4294967296;

const CLASS_UNIT: u64 = 16777216;

// An order of its seven numbers, as a C program gives them.
fn order_of(m: u32, n: u32, pitch: u32, sx: u32, sy: u32, tx: u32, ty: u32) -> Order
    ensures { result ≡ record { panel = panel m n pitch; entry = cell sx sy; exit = cell tx ty } }
{
    Order {
        panel: panel_of(m, n, pitch),
        entry: Cell { x: sx, y: sy },
        exit: Cell { x: tx, y: ty },
    }
}

fn pack(refusal: u32, class: u32, count: Cells) -> u64
    requires class_bound { class < 2 ^ 8 }
    requires count_bound { count.0 < 2 ^ 24 }
    ensures { result ≡ packed refusal class count.0 }
{
    u64::from(refusal) * REFUSAL_UNIT + u64::from(class) * CLASS_UNIT + u64::from(count.0)
}

fn pack_bound(a: Result<ClassCount, Refusal>) -> u64
    requires a_bound { (bound_values a).class < 2 ^ 8 }
    requires a_bound_2 { (bound_values a).count.0 < 2 ^ 24 }
    ensures { result ≡ packed (bound_values a).refusal (bound_values a).class (bound_values a).count.0 }
{
    let v = BoundValues::from(a);
    pack(v.refusal, v.class, v.count)
}

// An answer without a class.
fn pack_cells(a: Result<Cells, Refusal>) -> u64
    requires { (cells_values a).cells.0 < 2 ^ 24 }
    ensures { result ≡ packed (cells_values a).refusal 0 (cells_values a).cells.0 }
{
    let v = CellsValues::from(a);
    pack(v.refusal, 0, v.cells)
}

// Bound: refusal · 2^32 + class · 2^24 + count.
#[unsafe(no_mangle)]
pub extern "C" fn foil_bound(m: u32, n: u32, pitch: u32, sx: u32, sy: u32, tx: u32, ty: u32) -> u64
    ensures { PacksBound (panel m n pitch) (cell sx sy) (cell tx ty) result }
{
    pack_bound(bound::bound(order_of(m, n, pitch, sx, sy, tx, ty)))
}

// Draw: refusal · 2^32 + count.
#[unsafe(no_mangle)]
pub extern "C" fn foil_draw(
    m: u32,
    n: u32,
    pitch: u32,
    sx: u32,
    sy: u32,
    tx: u32,
    ty: u32,
    buffer: &mut [u8],
) -> u64
    ensures { PacksDraw (panel m n pitch) (cell sx sy) (cell tx ty) buffer.old buffer.new result }
{
    pack_cells(draw::draw(order_of(m, n, pitch, sx, sy, tx, ty), buffer))
}

// Judge: refusal · 2^32 + count.
#[unsafe(no_mangle)]
pub extern "C" fn foil_judge(
    m: u32,
    n: u32,
    pitch: u32,
    sx: u32,
    sy: u32,
    tx: u32,
    ty: u32,
    list: &[u8],
    scratch: &mut [u8],
) -> u64
    ensures { PacksJudge (panel m n pitch) (cell sx sy) (cell tx ty) list.now scratch.old scratch.new result }
{
    let o = order_of(m, n, pitch, sx, sy, tx, ty);
    pack_cells(judge::judge(o, list, scratch))
}

// A refusal without class and count.
fn pack_refusal(r: Refusal) -> u64
    ensures { result ≡ packed (number r) 0 0 }
{
    pack(u32::from(r), 0, Cells(0))
}

// What the bench refuses of a panel: 1, 18, 19.
fn check_sides(m: u32, n: u32, pitch: u32) -> Result<(), Refusal>
    ensures { result ≡ check_bench (panel m n pitch) }
{
    bench::check_bench(panel_of(m, n, pitch))
}

// The same three calls for the bench, with the same parameters: each is the C call for large panels behind
// the bench's check. So Bound, Draw and Judge keep one caller each, and are compiled as one piece with it.
#[unsafe(no_mangle)]
pub extern "C" fn foil_bench_bound(
    m: u32,
    n: u32,
    pitch: u32,
    sx: u32,
    sy: u32,
    tx: u32,
    ty: u32,
) -> u64
    ensures { PacksBenchBound (panel m n pitch) (cell sx sy) (cell tx ty) result }
{
    match check_sides(m, n, pitch) {
        Err(r) => pack_refusal(r),
        Ok(()) => foil_bound(m, n, pitch, sx, sy, tx, ty),
    }
}

#[unsafe(no_mangle)]
pub extern "C" fn foil_bench_draw(
    m: u32,
    n: u32,
    pitch: u32,
    sx: u32,
    sy: u32,
    tx: u32,
    ty: u32,
    buffer: &mut [u8],
) -> u64
    ensures { PacksBenchDraw (panel m n pitch) (cell sx sy) (cell tx ty) buffer.old buffer.new result }
{
    match check_sides(m, n, pitch) {
        Err(r) => pack_refusal(r),
        Ok(()) => foil_draw(m, n, pitch, sx, sy, tx, ty, buffer),
    }
}

#[unsafe(no_mangle)]
pub extern "C" fn foil_bench_judge(
    m: u32,
    n: u32,
    pitch: u32,
    sx: u32,
    sy: u32,
    tx: u32,
    ty: u32,
    list: &[u8],
    scratch: &mut [u8],
) -> u64
    ensures { PacksBenchJudge (panel m n pitch) (cell sx sy) (cell tx ty) list.now scratch.old scratch.new result }
{
    match check_sides(m, n, pitch) {
        Err(r) => pack_refusal(r),
        Ok(()) => foil_judge(m, n, pitch, sx, sy, tx, ty, list, scratch),
    }
}
