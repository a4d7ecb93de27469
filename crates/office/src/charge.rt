// Amounts of money.
ghost use Rattle.std.specs.Prelude.{◌≡◌, ◌-◌, ◌^◌, min, Some};
ghost use Rattle.office.specs.Charges.{charge_of, sum_of, money_of};

use std::fmt;

// An amount in cents.
#[derive(Clone, Copy, Debug, PartialEq, Eq)]
pub struct Charge {
    pub cents: u64,
}

impl Charge {
    // Three bytes, high byte first, as a program delivers them. No From of an array, which would not say the order.
    pub fn of_bytes(high: u8, middle: u8, low: u8) -> Charge
        ensures { result ≡ charge_of high middle low }
    {
        Charge {
            cents: u64::from(u32::from_be_bytes([0, high, middle, low])),
        }
    }

    // The sum of the charges, or the greatest number of cents where it does not fit.
    pub fn total(charges: &[Charge]) -> Charge
        ensures { result.cents ≡ min (sum_of charges.now) (2 ^ 64 - 1) }
    {
        let cents = charges
            .iter()
            .fold(0u64, |sum, charge| sum.saturating_add(charge.cents));
        Charge { cents }
    }
}

// As `12.34`.
impl fmt::Display for Charge {
    ghost output = { λ c. Some (money_of c) };

    fn fmt<W: fmt::Write>(&self, f: &mut fmt::Formatter<W>) -> fmt::Result {
        let units = self.cents / 100;
        let tens = self.cents / 10 % 10;
        let ones = self.cents % 10;
        write!(f, "{units}.{tens}{ones}")
    }
}
