// The bench charge: what a shop bills for a run, by its sum, in cents. Document 02, W13.
#![tactic(auto)]

ghost use Rattle.std.specs.Prelude.{◌≡◌, ◌+◌, ◌*◌};
ghost use Rattle.charge.specs.Charge.{tariff, charge_of};

// How a number of started thousands is charged, in cents: a base, and a rate for each of them.
#[derive(Clone, Copy)]
struct Band {
    base: u64,
    rate: u64,
}

// The charge for a sum, in cents.
#[tactic(auto, using(crate::proofs::ChargeLaws::paid_most, crate::proofs::ChargeLaws::paid_charge))]
pub fn charge(sum: u32) -> u32
    ensures { result ≡ charge_of sum }
{
    let started = u64::from(sum).div_ceil(1000);
    let band = band_of(started);
    (band.base + band.rate * started) as u32
}

// The band in which a number of started thousands lies. The base has the 150 of every plan, and what the thousands of lower bands add above this one's rate. Where no thousand
// is started any rate adds nothing; with the first band's the compiler can choose without a jump.
#[tactic(auto, using(crate::proofs::ChargeLaws::tariff_closed))]
fn band_of(started: u64) -> Band
    ensures { result.base + result.rate * started ≡ tariff started }
{
    match started {
        0 => Band {
            base: 150,
            rate: 12,
        },
        1..=20 => Band {
            base: 150,
            rate: 12,
        },
        21..=100 => Band { base: 210, rate: 9 },
        _ => Band { base: 610, rate: 5 },
    }
}
