// freight: two shippers' programs price a dozen shipments, each alone and then beside each other and a trespasser.
#![tactic(auto)]

mod host;
mod listings;
mod pricing;
mod problem;
mod report;
mod seat;
mod shippers;
mod trespass;

use pricing::Priced;
use problem::Problem;
use report::{Comparison, Report};
use shippers::SHIPPERS;
use std::alloc::Global;

// Both ways, side by side.
fn compare(heap: Global) -> Result<Report, Problem> {
    let alone = pricing::alone(heap)?;
    let Priced { bills, attempts } = pricing::interleaved(heap)?;
    let comparisons = SHIPPERS.into_iter().zip(alone).zip(bills);
    let comparisons = comparisons.map(|((shipper, alone), beside)| Comparison {
        shipper,
        alone,
        beside,
    });
    Ok(Report {
        comparisons: comparisons.collect(heap)?,
        attempts,
    })
}

fn main(rt: HostRuntime) -> Result<(), Problem> {
    let report = compare(rt.alloc())?;
    print!(rt; "{report}")?;
    Ok(())
}
