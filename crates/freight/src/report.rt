// What is printed.
use crate::listings::SHIPMENTS;
use crate::pricing::SLICE;
use crate::shippers::Shipper;
use crate::trespass::Attempt;
use office::bill::Bill;
use office::charge::Charge;
use std::fmt;
use std::fmt::InlineText;

// A shipper's bill alone, and its bill beside the others.
#[derive(Drop)]
pub struct Comparison {
    pub shipper: Shipper,
    pub alone: Bill,
    pub beside: Bill,
}

// Both shippers, each way, and the trespasser.
#[derive(Drop)]
pub struct Report {
    pub comparisons: Vec<Comparison>,
    pub attempts: Vec<Attempt>,
}

// A charge, or a dash where a shipper delivered none.
#[derive(Clone, Copy, PartialEq, Eq)]
struct Amount(Option<Charge>);

impl fmt::Display for Amount {
    fn fmt<W: fmt::Write>(&self, f: &mut fmt::Formatter<W>) -> fmt::Result {
        match self.0 {
            Some(delivered) => f.pad(InlineText::<24>::of(delivered).as_str()),
            None => f.pad("-"),
        }
    }
}

fn same(equal: bool) -> &'static str {
    if equal { "equal" } else { "DIFFERENT" }
}

// A figure of both ways, and whether they are equal.
fn write_figure<W: fmt::Write, T: fmt::Display + PartialEq + Copy>(
    f: &mut fmt::Formatter<W>,
    name: &str,
    alone: T,
    beside: T,
) -> fmt::Result {
    let verdict = same(alone == beside);
    writeln!(f, "{name:>16}{alone:>14}{beside:>14}   {verdict}")
}

impl Comparison {
    // A row for each shipment, with what it costs both ways. By place and no `zip`: a shipper may have delivered fewer charges than there are
    // shipments.
    fn write_charges<W: fmt::Write>(&self, f: &mut fmt::Formatter<W>) -> fmt::Result {
        for (place, shipment) in SHIPMENTS.iter().enumerate() {
            let alone = Amount(self.alone.charges.get(place).copied());
            let beside = Amount(self.beside.charges.get(place).copied());
            let zone = shipment.zone;
            let weight = shipment.weight;
            writeln!(f, "{zone:>8}{weight:>8}{alone:>14}{beside:>14}")?;
        }
        Ok(())
    }

    // The totals of both ways, and whether every charge is the same.
    fn write_totals<W: fmt::Write>(&self, f: &mut fmt::Formatter<W>) -> fmt::Result {
        let Comparison { alone, beside, .. } = self;
        write_figure(
            f,
            "charges",
            Amount(Some(Charge::total(&alone.charges))),
            Amount(Some(Charge::total(&beside.charges))),
        )?;
        write_figure(f, "steps", alone.steps, beside.steps)?;
        write_figure(f, "time in ns", alone.time, beside.time)?;
        writeln!(f, "{:>16}{:>14}{:>14}", "runs", alone.runs, beside.runs)?;
        let verdict = same(alone.agrees(beside));
        writeln!(
            f,
            "    Every charge, the steps and the time of both ways: {verdict}."
        )
    }
}

impl fmt::Display for Comparison {
    fn fmt<W: fmt::Write>(&self, f: &mut fmt::Formatter<W>) -> fmt::Result {
        let Shipper { name, method, .. } = self.shipper;
        writeln!(
            f,
            "{name}: {method}\n    zone  weight         alone   interleaved"
        )?;
        self.write_charges(f)?;
        self.write_totals(f)
    }
}

impl fmt::Display for Report {
    fn fmt<W: fmt::Write>(&self, f: &mut fmt::Formatter<W>) -> fmt::Result {
        let count = SHIPMENTS.len();
        writeln!(
            f,
            "{count} shipments, priced by two shippers over one sealed tariff page.\n\
            Alone: each on an engine and a board of its own.\n\
            Interleaved: on one engine and one board, in slices of {SLICE} steps, beside a trespasser."
        )?;
        for comparison in self.comparisons.iter() {
            write!(f, "\n{comparison}")?;
        }
        writeln!(f, "\nThe trespasser:")?;
        for attempt in self.attempts.iter() {
            writeln!(f, "    {attempt}")?;
        }
        Ok(())
    }
}
