// run5500: reads one image from standard input, runs it as job 0 over a zeroed single board, and prints one line.
#![tactic(auto)]

use boards::single::Filling;
use image::enough;
use launch::{Told, launch};
use memory::sets::PageSet;
use std::io::Read;

fn main(rt: HostRuntime) -> anyhow::Result<()> {
    let mut file = Vec::new(rt.alloc());
    rt.stdin().take(enough() as u64).read_to_end(&mut file)?;
    let mut bytes = vec![in rt.alloc(); 0u8; 65536]?;
    let mut board = Filling::new().seal(PageSet::none()).board(&mut bytes);
    let told = Told {
        answer: launch(&file, &mut board),
    };
    println!(rt; "{told}")?;
    Ok(())
}
