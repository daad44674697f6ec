// The Hilbert curve through a square of 2^16 by 2^16 cells.
ghost use Rattle.std.specs.Prelude.{◌≡◌, ◌+◌, ◌*◌, ◌<◌, ◌≤◌, ◌^◌, ℕ};
ghost use Rattle.curve_order.specs.Curve.{AreNeighbours, IsCell, hilbert};

/// The number of a cell along the curve, which begins at (0, 0) and ends at (65535, 0).
pub fn curve(x: u16, y: u16) -> u32
    ensures value { result ≡ hilbert 16 x y }
{
    let mut x = x as u32;
    let mut y = y as u32;
    let mut number = 0u32;
    for bit in (0..16u32).rev() {
        let (before, u, v) = enter(bit, x, y);
        number += before;
        (x, y) = (u, v);
    }
    number
}

/// How many cells the curve through a square of 2^(bit + 1) by 2^(bit + 1) cells passes before the quarter of this cell,
/// and the cell that it is along the curve through that quarter.
#[inline(always)]
#[tactic(auto, using(crate::proofs::Quarters::whole))]
fn enter(bit: u32, x: u32, y: u32) -> (u32, u32, u32)
    requires low { bit < 16 }
    requires is_cell { IsCell (bit + 1) x y }
    ensures value { hilbert (bit + 1) x y ≡ result.0 + hilbert bit result.1 result.2 }
    ensures is_cell { IsCell bit result.1 result.2 }
{
    let half = half_of(bit);
    let quarter = half * half;
    if x < half {
        if y < half {
            return (0, y, x);
        }
        return (quarter, x, y - half);
    }
    if y < half {
        return (3 * quarter, half - 1 - y, half - 1 - (x - half));
    }
    (2 * quarter, x - half, y - half)
}

/// Half the side of a square of 2^(bit + 1) by 2^(bit + 1) cells.
#[inline(always)]
#[tactic(auto, using(std::proofs::lemmas::Nat::one_shl, crate::proofs::Quarters::half_small))]
fn half_of(bit: u32) -> u32
    requires { bit < 16 }
    ensures value { result ≡ 2 ^ bit }
    ensures small { result ≤ 32768 }
{
    1 << bit
}

/// The cell with this number along the curve.
pub fn uncurve(at: u32) -> (u16, u16)
    ensures inverse { hilbert 16 result.0 result.1 ≡ at }
    ensures only { (x y : ℕ) → IsCell 16 x y → hilbert 16 x y ≡ at → (x ≡ result.0) × (y ≡ result.1) }
{
    let mut x = 0u32;
    let mut y = 0u32;
    let mut rest = at;
    for bit in 0..16u32 {
        (x, y) = leave(bit, rest % 4, x, y);
        rest /= 4;
    }
    (x as u16, y as u16)
}

/// The cell of a square of 2^(bit + 1) by 2^(bit + 1) cells that is this cell along the curve through a quarter of the
/// square. The quarters are numbered from 0 to 3, as the curve passes them.
#[inline(always)]
#[tactic(auto, using(crate::proofs::Quarters::whole))]
fn leave(bit: u32, quarter: u32, x: u32, y: u32) -> (u32, u32)
    requires low { bit < 16 }
    requires is_quarter { quarter < 4 }
    requires is_cell { IsCell bit x y }
    ensures value { hilbert (bit + 1) result.0 result.1 ≡ quarter * (2 ^ bit * 2 ^ bit) + hilbert bit x y }
    ensures is_cell { IsCell (bit + 1) result.0 result.1 }
{
    let half = half_of(bit);
    if quarter == 0 {
        return (y, x);
    }
    if quarter == 1 {
        return (x, y + half);
    }
    if quarter == 2 {
        return (x + half, y + half);
    }
    (half + (half - 1 - y), half - 1 - x)
}

/// Cells whose numbers follow one another touch: they differ by 1 in one of x and y. Different cells have different
/// numbers, from 0 at (0, 0) to the last at (65535, 0).
pub fn neighbours_touch()
    ensures neighbours { (x y u v : ℕ) → IsCell 16 x y → IsCell 16 u v → hilbert 16 u v ≡ hilbert 16 x y + 1 → AreNeighbours x y u v }
    ensures different { (x y u v : ℕ) → IsCell 16 x y → IsCell 16 u v → hilbert 16 u v ≡ hilbert 16 x y → (x ≡ u) × (y ≡ v) }
    ensures within { (x y : ℕ) → IsCell 16 x y → hilbert 16 x y < 2 ^ 32 }
    ensures begin { hilbert 16 0 0 ≡ 0 }
    ensures end { hilbert 16 65535 0 + 1 ≡ 2 ^ 32 }
{}
