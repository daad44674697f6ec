ghost use Rattle.std.specs.Prelude.{◌≡◌, ◌*◌, ◌≤◌, IfErr, OnErr, OnOk};

use flat_layout::{Broken, Rule};

/// How much of a buffer's weight a reader may still visit: 4 for each table, the bytes of each string,
/// and the bytes of the elements of each vector, along every path from the root.
///
/// Tables may share what they lead to, so the weight can grow without bound beside the size. A reader
/// that spends before it goes on visits at most 4 times the size.
#[derive(Drop)]
pub struct Meter {
    left: u64,
    place: u64,
    // 4 times the largest buffer
    pub ghost small: { left ≤ 1073741824 },
}

impl Meter {
    ghost use Rattle.flat_views.specs.Meters.{IsTooHeavy, TakesOff, left_of, meter_place};

    /// A meter for a buffer of so many bytes, at most 268,435,456, the first of which stands at `place`
    /// in the file. It starts with 4 times the size.
    pub fn new(size: u64, place: u64) -> Meter
        requires { size ≤ 268435456 }
        ensures left { left_of result ≡ 4 * size }
        ensures place { meter_place result ≡ place }
    {
        Meter {
            left: 4 * size,
            place,
        }
    }

    /// Takes the amount off. Refuses Weight where less is left, and is then unchanged.
    pub fn spend(&mut self, amount: u64) -> Result<(), Broken>
        ensures ok { OnOk result (TakesOff amount self.old self.new) }
        ensures too_heavy { IfErr result (IsTooHeavy amount self.old) }
        ensures unchanged { OnErr result (self.new ≡ self.old) }
    {
        let refusal = Broken {
            place: self.place,
            rule: Rule::Weight,
        };
        self.left = self.left.checked_sub(amount).ok_or(refusal)?;
        Ok(())
    }
}
